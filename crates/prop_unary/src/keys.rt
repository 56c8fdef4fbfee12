//! The numbers of the members of a sequence.
ghost use Rattle.std.specs.Prelude.{◌≡◌, ◌≤◌, length};
ghost use Rattle.region.specs.Cells.{bounds_of};
ghost use Rattle.findings.specs.code.Numbers.{ends_of};
ghost use Rattle.prop_unary.specs.code.Silence.{IsFront, IsBack, IsKeyed, AreKeyed};

use findings::{Ends, ends_at};
use region::{Look, Presence};
use sched_base::Itv;

/// What is compared of the first of two members with what of the second, in moments. Where one who is
/// absent, or isn't known to be present, isn't asked for a number, it is the least of all, and of the
/// second the greatest: so two are compared without a look at who is present.
#[derive(Clone, Copy, Debug, PartialEq, Eq)]
pub struct Front {
    /// The earliest completion.
    pub ect: i64,
    /// The same where the member is present.
    pub present_ect: i64,
    /// The greatest earliest completion that a guess at the end of a cell makes.
    pub highest_end: i64,
}

/// What is compared of the second.
#[derive(Clone, Copy, Debug, PartialEq, Eq)]
pub struct Back {
    /// The latest start.
    pub lst: i64,
    /// The same where the member is present.
    pub present_lst: i64,
    /// The least latest start that a guess at the end of a cell makes.
    pub lowest_start: i64,
}

/// What is compared of a member.
#[derive(Clone, Copy, Debug, PartialEq, Eq)]
pub struct Keys {
    pub front: Front,
    pub back: Back,
}

impl Keys {
    /// Those of a member that is absent.
    pub const ABSENT: Keys = Keys {
        front: Front {
            ect: i64::MIN,
            present_ect: i64::MIN,
            highest_end: i64::MIN,
        },
        back: Back {
            lst: i64::MAX,
            present_lst: i64::MAX,
            lowest_start: i64::MAX,
        },
    };
}

fn front_of(ends: Ends) -> Front
    ensures { IsFront ends result }
{
    match ends.presence {
        Presence::Absent => Keys::ABSENT.front,
        Presence::Present => Front {
            ect: ends.ect,
            present_ect: ends.ect,
            highest_end: ends.highest_end,
        },
        Presence::Maybe => Front {
            ect: ends.ect,
            present_ect: i64::MIN,
            highest_end: ends.highest_end,
        },
    }
}

fn back_of(ends: Ends) -> Back
    ensures { IsBack ends result }
{
    match ends.presence {
        Presence::Absent => Keys::ABSENT.back,
        Presence::Present => Back {
            lst: ends.lst,
            present_lst: ends.lst,
            lowest_start: ends.lowest_start,
        },
        Presence::Maybe => Back {
            lst: ends.lst,
            present_lst: i64::MAX,
            lowest_start: ends.lowest_start,
        },
    }
}

fn keys_at(look: &Look<'_>, x: Itv) -> Keys
    ensures { IsKeyed (ends_of (bounds_of look.now.region x)) result }
{
    let ends = ends_at(look, x);
    Keys {
        front: front_of(ends),
        back: back_of(ends),
    }
}

/// Puts the numbers of the members at their places.
pub fn note_keys(look: &Look<'_>, members: &[Itv], keys: &mut [Keys])
    requires { length members.now ≤ length keys.old }
    ensures same { length keys.new ≡ length keys.old }
    ensures noted { AreKeyed look.now.region members.now keys.new }
{
    for k in 0..members.len() {
        keys[k] = keys_at(look, members[k]);
    }
}
