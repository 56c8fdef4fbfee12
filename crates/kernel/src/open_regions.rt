ghost use Rattle.std.specs.Prelude.{◌≡◌, IfSome, is_some};
ghost use Rattle.sched_model.specs.Data.{Data};
ghost use Rattle.region.specs.Looks.{IsRegionOf};
ghost use Rattle.kernel.specs.code.Open.{AreOpenOf, advanced, in_front, shown_open};
ghost use Rattle.kernel.specs.code.Pending.{ArePending, after_saved};

use crate::pending::Pending;
use region::{Look, Region};

/// Where the regions stand that are gone through.
#[derive(Clone, Copy, Debug, PartialEq, Eq)]
pub enum Going {
    /// None is in front yet; the first of them is held.
    Ahead,
    /// The region that is held is in front.
    InFront,
    /// None is left.
    Done,
}

/// The open regions of a log, the current one before those that wait, to be gone through once. They
/// are one region with saves, and going on undoes one of them.
#[derive(Drop)]
pub struct Open {
    region: Region,
    pending: Pending,
    going: Going,
    best: Option<i64>,
}

impl std::marker::Model for Open {
    ghost use Rattle.kernel.specs.code.Open.{OpenRegions, shown_open};
    ghost use Rattle.kernel.specs.code.Pending.{ArePending, after_saved};

    ghost Value = { OpenRegions };

    ghost view = { λ o. shown_open o.going o.region.region (after_saved o.region.saved o.pending) o.best };

    ghost invariant = { λ o. ArePending o.region o.pending };
}

impl Open {
    pub(crate) fn new(region: Region, pending: Pending, going: Going, best: Option<i64>) -> Open
        requires { ArePending region pending }
        ensures { result ≡ shown_open going region.region (after_saved region.saved pending) best }
    {
        Open {
            region,
            pending,
            going,
            best,
        }
    }

    /// Takes the next region to the front, in the place of the one that was there. False exactly
    /// where none is left. No memory is needed, and no refusal can come: each split made room for
    /// this.
    pub fn advance(&mut self) -> bool
        ensures next { self.new ≡ advanced self.old }
        ensures left { result ≡ is_some self.new.front }
    {
        match self.going {
            Going::Ahead => {
                self.going = Going::InFront;
                true
            }
            Going::InFront => {
                if self.pending.next(&mut self.region).is_none() {
                    self.going = Going::Done;
                    return false;
                }
                true
            }
            Going::Done => false,
        }
    }

    /// The region in front, without a guess, beside the best value of the log. None exactly where
    /// nothing was taken to the front yet, or none was left.
    pub fn look(&self) -> Option<Look<'_>>
        ensures shows { result ≡ in_front self.now }
        ensures of { (m : Data) → AreOpenOf m self.now → IfSome result (λ l. IsRegionOf m l.region) }
    {
        if self.going == Going::InFront {
            return Some(self.region.look(None, self.best));
        }
        None
    }
}
