use sched_base::Cum;
use sched_model::Window;

/// The bounds of a cumulative function in a window, in units of the resource.
#[derive(Clone, Copy, Debug, PartialEq, Eq)]
pub struct Bound {
    pub f: Cum,
    pub window: Window,
    pub lo: i64,
    pub hi: i64,
}
