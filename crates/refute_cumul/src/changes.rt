//! The changes of a load: where the parts of a function go up and down.
ghost use Rattle.std.specs.Prelude.{◌≡◌, ◌+◌, ◌*◌, ◌≤◌, ◌<◌, ◌++◌, ◌∷◌, [], ℤ, length, vec_len, vec_capacity};
ghost use Rattle.std.specs.List.Sorted.{IsPermutation};
ghost use Rattle.refute_cumul.specs.code.Loads.{bounded, load};
ghost use Rattle.sched_model.specs.Changes.{IsInOrder, pulse_changes, sum_until};
ghost use Rattle.refute_cumul.specs.code.Profiles.{part_changes, shape_changes, load_changes};

use crate::levels::bounded;
use region::Look;
use sched_model::{Change, Part, Shape, sort_changes};

fn add(changes: &mut Vec<Change>, c: Change)
    requires room { vec_len changes.old < vec_capacity changes.old }
    ensures added { changes.new.items ≡ changes.old.items ++ c ∷ [] }
    ensures room { vec_capacity changes.new ≡ vec_capacity changes.old }
{
    changes.push_reserved(c);
}

fn add_pulse(changes: &mut Vec<Change>, minus: bool, u: i64, v: i64, h: i64)
    requires room { vec_len changes.old + 2 ≤ vec_capacity changes.old }
    ensures added { changes.new.items ≡ changes.old.items ++ pulse_changes minus u v h }
    ensures room { vec_capacity changes.new ≡ vec_capacity changes.old }
{
    if u >= v {
        return;
    }
    add(changes, Change { t: u, minus, h });
    add(
        changes,
        Change {
            t: v,
            minus: !minus,
            h,
        },
    );
}

/// Adds the changes of a part with fixed moments.
fn add_part(changes: &mut Vec<Change>, part: Part)
    requires room { vec_len changes.old + 2 ≤ vec_capacity changes.old }
    ensures added { changes.new.items ≡ changes.old.items ++ part_changes part }
    ensures room { vec_capacity changes.new ≡ vec_capacity changes.old }
{
    let minus = part.minus;
    match part.shape {
        Shape::Pulse { u, v, h } => add_pulse(changes, minus, u, v, h),
        Shape::Step { u, h } => add(changes, Change { t: u, minus, h }),
        _ => {}
    }
}

/// The changes of all parts.
fn gather(changes: &mut Vec<Change>, look: &Look<'_>, below: bool, parts: &[Part])
    requires room { 2 * length parts.now ≤ vec_capacity changes.old }
    ensures all { changes.new.items ≡ load_changes look.now.region below parts.now }
    ensures few { vec_len changes.new ≤ 2 * length parts.now }
    ensures room { vec_capacity changes.new ≡ vec_capacity changes.old }
{
    changes.clear();
    for part in parts {
        add_part(changes, bounded(look, below, *part));
    }
}

/// Sorts them by their moments.
fn sort_all(changes: &mut Vec<Change>)
    ensures moved { IsPermutation changes.old.items changes.new.items }
    ensures in_order { IsInOrder changes.new.items }
    ensures room { vec_capacity changes.new ≡ vec_capacity changes.old }
{
    sort_changes(changes.as_mut_slice());
}

/// The changes of all parts by their moments.
pub fn gather_sorted(changes: &mut Vec<Change>, look: &Look<'_>, below: bool, parts: &[Part])
    requires room { 2 * length parts.now ≤ vec_capacity changes.old }
    ensures load { (t : ℤ) → sum_until t changes.new.items ≡ load look.now.region below parts.now t }
    ensures in_order { IsInOrder changes.new.items }
    ensures few { length changes.new.items ≤ 2 * length parts.now }
    ensures room { vec_capacity changes.new ≡ vec_capacity changes.old }
{
    gather(changes, look, below, parts);
    sort_all(changes);
}
