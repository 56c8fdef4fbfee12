use crate::orders::is_there;
use crate::view::View;
use refute_seq::members_of;
use sched_base::{Itv, Seq};

/// The least sizes of the members of a sequence that are there, together.
fn load_of(view: &View<'_>, p: Seq) -> i64 {
    let mut load: i64 = 0;
    for x in members_of(view.model, p) {
        if is_there(view.look, *x) {
            load = load.saturating_add(least_size(view, *x));
        }
    }
    load
}

fn least_size(view: &View<'_>, x: Itv) -> i64 {
    match view.bounds(x) {
        None => 0,
        Some(c) => c.pmin,
    }
}

/// How much is to be done where an interval is, and by itself.
pub fn load(view: &View<'_>, x: Itv) -> i64 {
    let mut most: i64 = 0;
    for p in view.links.sequences(x) {
        most = most.max(load_of(view, *p));
    }
    most.saturating_add(least_size(view, x))
}
