use sched_base::{Itv, Seq, at};
use sched_model::{Assignment, Slot};

/// The schedule that a search follows, so that it looks near it first.
#[derive(Drop)]
pub struct Guide<'a> {
    pub schedule: Option<&'a Assignment>,
    /// Whether the search has still to find a schedule of its own, so that it goes straight for this
    /// one.
    pub straight: bool,
}

impl<'a> Guide<'a> {
    /// What the schedule gives an interval.
    pub fn slot(&self, x: Itv) -> Option<Slot> {
        Some(*at(self.schedule?.slots.as_slice(), x.0 as usize)?)
    }

    /// When the schedule has an interval start and end.
    pub fn place(&self, x: Itv) -> Option<(i64, i64)> {
        match self.slot(x)? {
            Slot::Absent => None,
            Slot::Present { s, e } => Some((s, e)),
        }
    }

    /// Whether the first of two starts sooner, or starts with the other and ends sooner.
    pub fn is_sooner(&self, x: Itv, y: Itv) -> Option<bool> {
        let (s, e) = self.place(x)?;
        let (t, f) = self.place(y)?;
        Some(s < t || (s == t && e <= f))
    }

    /// The order of a sequence, where the search goes straight for the schedule.
    pub fn straight_order(&self, p: Seq) -> Option<&[Itv]> {
        if !self.straight {
            return None;
        }
        Some(at(self.schedule?.orders.as_slice(), p.0 as usize)?.as_slice())
    }
}
