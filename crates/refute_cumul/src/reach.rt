//! How far a search may step over the places of a profile.
ghost use Rattle.std.specs.Prelude.{◌≡◌, ◌+◌, ◌≤◌, ◌<◌, length, vec_len, vec_capacity, slice_index_or};
ghost use Rattle.refute_cumul.specs.code.Profiles.{IsBelow, Reaches, AreReaches};

use crate::profile::Level;

/// No level from a place until before the place `next` is above `top`.
#[derive(Clone, Copy, Debug, PartialEq, Eq)]
pub struct Reach {
    pub top: i128,
    pub next: usize,
}

fn reach_one(levels: &[Level], i: usize) -> Reach
    requires { i < length levels.now }
    ensures { Reaches levels.now i result }
{
    Reach {
        top: levels[i].level,
        next: i + 1,
    }
}

/// Lets each place reach over itself.
fn reach_each(levels: &[Level], reaches: &mut Vec<Reach>)
    requires { length levels.now ≤ vec_capacity reaches.old }
    ensures each { AreReaches levels.now reaches.new.items }
    ensures room { vec_capacity reaches.new ≡ vec_capacity reaches.old }
{
    reaches.clear();
    for i in 0..levels.len() {
        reaches.push_reserved(reach_one(levels, i));
    }
}

/// How far a place reaches over those behind it: over a following run of places that is no longer than
/// what it reaches over already, so that runs double.
fn reach_from(levels: &[Level], reaches: &[Reach], i: usize) -> Reach
    requires each { AreReaches levels.now reaches.now }
    requires within { i < length levels.now }
    ensures { Reaches levels.now i result }
{
    let mut reach = reach_one(levels, i);
    while reach.next < levels.len() {
        let behind = reaches[reach.next];
        if behind.next - reach.next > reach.next - i {
            return reach;
        }
        reach = Reach {
            top: reach.top.max(behind.top),
            next: behind.next,
        };
    }
    reach
}

/// How far each place reaches, from the last to the first.
pub fn reach_all(levels: &[Level], reaches: &mut Vec<Reach>)
    requires { length levels.now ≤ vec_capacity reaches.old }
    ensures each { AreReaches levels.now reaches.new.items }
    ensures room { vec_capacity reaches.new ≡ vec_capacity reaches.old }
{
    reach_each(levels, reaches);
    let mut i = levels.len();
    while i > 0 {
        i -= 1;
        reaches[i] = reach_from(levels, reaches.as_slice(), i);
    }
}
