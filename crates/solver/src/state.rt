use crate::chooser::Chooser;
use crate::mark::Mark;
use engine::{Engine, Propagator};
use kernel::{Found, Pending};
use prop_energy::PropEnergy;
use region::Region;
use sched_model::Assignment;

/// A search under way: one region with saves, what waits behind it, what is known of each save, the
/// engine, the search for overloads of energy, the intervals that may be open, the solution found last,
/// and how many nodes were opened.
#[derive(Drop)]
pub struct Search<P: Propagator> {
    pub region: Region,
    pub pending: Pending,
    pub marks: Vec<Mark>,
    pub engine: Engine<P>,
    pub energy: PropEnergy,
    pub intervals: Chooser,
    pub found: Option<Found>,
    pub nodes: u64,
    /// The schedule that is followed before the first is found.
    pub guide: Option<Assignment>,
}
