//! The numbers of an interval as a task of one machine, in time as it runs and in time turned round.
ghost use Rattle.std.specs.Prelude.{◌≡◌, IsTrue};
ghost use Rattle.region.specs.Looks.{IsRegionOf, is_shifted};
ghost use Rattle.task_sets.specs.Times.{turned};
ghost use Rattle.refute_seq.specs.Sets.{times_of, is_task};

use refute_basic::is_there;
use region::Look;
use sched_base::{Itv, Seq};
use sched_model::Model;

/// Whether an interval is a present member of a sequence.
#[tactic(auto, using(crate::proofs::Sides::member_is))]
pub fn is_task(model: &Model, look: &Look<'_>, p: Seq, n: u32) -> bool
    requires { IsRegionOf model.now look.now.region }
    ensures { result ≡ is_task model.now look.now.region p n }
{
    look.place(p, Itv(n)).is_some() && is_there(look, Itv(n))
}

/// The earliest start.
#[tactic(auto, using(crate::proofs::Sides::no_est, crate::proofs::Sides::est_ahead, crate::proofs::Sides::est_back))]
pub fn est(look: &Look<'_>, side: u32, n: u32) -> i64
    ensures value { result ≡ (turned side (times_of look.now.region) n).est }
    ensures small { IsTrue (is_shifted result) }
{
    if n as usize >= look.len() {
        return 0;
    }
    match side {
        0 => look.est(Itv(n)),
        _ => -look.lct(Itv(n)),
    }
}

/// The latest completion.
#[tactic(auto, using(crate::proofs::Sides::no_lct, crate::proofs::Sides::lct_ahead, crate::proofs::Sides::lct_back))]
pub fn lct(look: &Look<'_>, side: u32, n: u32) -> i64
    ensures value { result ≡ (turned side (times_of look.now.region) n).lct }
    ensures small { IsTrue (is_shifted result) }
{
    if n as usize >= look.len() {
        return 0;
    }
    match side {
        0 => look.lct(Itv(n)),
        _ => -look.est(Itv(n)),
    }
}

/// The latest start.
#[tactic(auto, using(crate::proofs::Sides::no_lst, crate::proofs::Sides::lst_ahead, crate::proofs::Sides::lst_back))]
pub fn lst(look: &Look<'_>, side: u32, n: u32) -> i64
    ensures value { result ≡ (turned side (times_of look.now.region) n).lst }
    ensures small { IsTrue (is_shifted result) }
{
    if n as usize >= look.len() {
        return 0;
    }
    match side {
        0 => look.lst(Itv(n)),
        _ => -look.ect(Itv(n)),
    }
}

/// The earliest completion.
#[tactic(auto, using(crate::proofs::Sides::no_ect, crate::proofs::Sides::ect_ahead, crate::proofs::Sides::ect_back))]
pub fn ect(look: &Look<'_>, side: u32, n: u32) -> i64
    ensures value { result ≡ (turned side (times_of look.now.region) n).ect }
    ensures small { IsTrue (is_shifted result) }
{
    if n as usize >= look.len() {
        return 0;
    }
    match side {
        0 => look.ect(Itv(n)),
        _ => -look.lst(Itv(n)),
    }
}

/// The least size, which is the same on both sides.
#[tactic(auto, using(crate::proofs::Sides::no_size, crate::proofs::Sides::size_either))]
pub fn size(look: &Look<'_>, side: u32, n: u32) -> i64
    ensures value { result ≡ (turned side (times_of look.now.region) n).p }
    ensures small { IsTrue (is_shifted result) }
{
    if n as usize >= look.len() {
        return 0;
    }
    look.pmin(Itv(n))
}
