//! Which findings wait.
use findings::Finding;
use kernel::{NoWitness, Witness};
use refute_seq::SeqWitness;
use region::{Guess, Region};

/// Whether a guess is on a bound under which the least size of its interval can't be kept: an end
/// before the earliest one, or a start after the latest one (Vilím 2007, chapter 1). Such facts
/// follow from one interval alone and come cheaply again, so they wait for others. So does an order
/// that two members of a sequence without overlap leave: there are many, and bounds that others narrow
/// tell more of them. No promise hangs on this.
pub fn is_late(region: &Region, f: &Finding<Witness<NoWitness>>) -> bool {
    let look = region.look(None, None);
    match f.guess {
        Some(Guess::EndLe(x, t)) => {
            if x.0 as usize >= look.len() {
                return false;
            }
            let c = look.bounds(x);
            t < c.smin.saturating_add(c.pmin)
        }
        Some(Guess::StartGe(x, t)) => {
            if x.0 as usize >= look.len() {
                return false;
            }
            let c = look.bounds(x);
            t > c.emax.saturating_sub(c.pmin)
        }
        Some(Guess::Before(..)) => matches!(f.witness, Witness::Seq(SeqWitness::Pair { .. })),
        _ => false,
    }
}
