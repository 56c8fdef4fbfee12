ghost use Rattle.std.specs.Prelude.{◌≡◌, None, is_none, IfOk, option_map};
ghost use Rattle.cpo_elab.specs.Named.{mat_of};
ghost use Rattle.cpo_elab.specs.Held.{logic_held};
ghost use Rattle.cpo_elab.specs.Elaborated.{points_of, temporal_of, hierarchy_of, extreme_of, order_of, bound_of, window_of, sequence_id, named_itself, cumul_id, is_direct, aligned_of, constraint_of, sense_of};

use crate::copies::itvs_of;
use crate::draft::Draft;
use crate::literals::{count_or_one, int_of, int_or_zero};
use cpo_text::{
    Bound, Constrained, Cpart, Cumul, Extreme, Hierarchy, Moments, Order, Over, Sense, Spaced,
    Temporal,
};
use sched_base::{Cum, Itv, List, Mat, NUMBER_LIMIT, NoMemory, Seq};
use sched_model::{Constraint, End, Sense as Aimed, Window};
use std::alloc::Global;

fn points_of(word: Temporal) -> (End, End, bool)
    ensures { result ≡ points_of word }
{
    match word {
        Temporal::StartBeforeStart => (End::Start, End::Start, false),
        Temporal::StartBeforeEnd => (End::Start, End::Finish, false),
        Temporal::EndBeforeStart => (End::Finish, End::Start, false),
        Temporal::EndBeforeEnd => (End::Finish, End::Finish, false),
        Temporal::StartAtStart => (End::Start, End::Start, true),
        Temporal::StartAtEnd => (End::Start, End::Finish, true),
        Temporal::EndAtStart => (End::Finish, End::Start, true),
        Temporal::EndAtEnd => (End::Finish, End::Finish, true),
    }
}

fn temporal_of(word: Temporal, a: Itv, b: Itv, z: i64) -> Constraint
    ensures { result ≡ temporal_of word a b z }
{
    let (from, to, equal) = points_of(word);
    Constraint::Temporal {
        from,
        to,
        equal,
        a,
        b,
        z,
    }
}

fn hierarchy_of(word: Hierarchy, a: Itv, parts: List<Itv>) -> Constraint
    ensures { result ≡ hierarchy_of word a parts }
{
    match word {
        Hierarchy::Span => Constraint::Span { a, parts },
        Hierarchy::Synchronize => Constraint::Synchronize { a, parts },
    }
}

fn extreme_of(word: Extreme, p: Seq, a: Itv) -> Constraint
    ensures { result ≡ extreme_of word p a }
{
    match word {
        Extreme::First => Constraint::First { p, a },
        Extreme::Last => Constraint::Last { p, a },
    }
}

fn order_of(word: Order, p: Seq, a: Itv, b: Itv) -> Constraint
    ensures { result ≡ order_of word p a b }
{
    match word {
        Order::Before => Constraint::Before { p, a, b },
        Order::Prev => Constraint::Prev { p, a, b },
    }
}

fn bound_of(bound: Bound, f: Cum, c: i64) -> Constraint
    ensures { result ≡ bound_of bound f c }
{
    match bound {
        Bound::AtMost => Constraint::CumulIn {
            f,
            window: Window::Always,
            lo: -NUMBER_LIMIT,
            hi: c,
        },
        Bound::AtLeast => Constraint::CumulIn {
            f,
            window: Window::Always,
            lo: c,
            hi: NUMBER_LIMIT,
        },
    }
}

fn window_of(draft: &Draft, moments: &Moments) -> Window
    ensures { result ≡ window_of draft.now moments.now }
{
    match moments {
        Moments::From(u, v) => Window::Moments {
            u: int_of(*u),
            v: int_of(*v),
        },
        Moments::During(a) => Window::During(draft.itv_of(a.as_slice())),
    }
}

/// The sequence that may not overlap: a named one, or the next one.
fn sequence_id(draft: &Draft, over: &Over) -> Seq
    ensures { result ≡ sequence_id draft.now over.now }
{
    match over {
        Over::Named(p) => draft.seq_of(p.as_slice()),
        Over::Listed(_) => draft.next_seq(),
    }
}

/// Whether a cumulative expression is more than one name without a sign.
pub fn is_unnamed(c: &Cumul) -> bool
    ensures { result ≡ is_none (named_itself c.now) }
{
    match c.more.as_slice() {
        [] => {
            if c.first.minus {
                return true;
            }
            match &c.first.part {
                Cpart::Named(_) => false,
                _ => true,
            }
        }
        _ => true,
    }
}

/// The function that a cumulative expression is: a named one, or the next one.
fn cumul_id(draft: &Draft, c: &Cumul) -> Cum
    ensures { result ≡ cumul_id draft.now (named_itself c.now) }
{
    match c.more.as_slice() {
        [] => {
            if c.first.minus {
                return draft.next_cum();
            }
            match &c.first.part {
                Cpart::Named(f) => draft.cum_of(f.as_slice()),
                _ => draft.next_cum(),
            }
        }
        _ => draft.next_cum(),
    }
}

fn matrix_of(draft: &Draft, spaced: &Option<Spaced>) -> Option<Mat>
    ensures { result ≡ option_map (λ s. mat_of draft.now s.matrix) spaced.now }
{
    match spaced {
        None => None,
        Some(s) => Some(draft.mat_of(s.matrix.as_slice())),
    }
}

fn is_direct(spaced: &Option<Spaced>) -> bool
    ensures { result ≡ is_direct spaced.now }
{
    match spaced {
        None => false,
        Some(s) => s.direct.unwrap_or(false),
    }
}

fn aligned_of(aligned: Option<(bool, bool)>) -> (bool, bool)
    ensures { result ≡ aligned_of aligned }
{
    aligned.unwrap_or((false, false))
}

/// The constraint of a model that is written, where it is no expression. What it writes without a
/// name has the next number.
pub fn constraint_of(alloc: Global, draft: &Draft, c: &Constrained) -> Result<Constraint, NoMemory>
    requires { logic_held c.now ≡ None }
    ensures { IfOk result (λ x. x ≡ constraint_of draft.now c.now) }
{
    match c {
        Constrained::Between(word, a, b, z) => {
            let (a, b) = (draft.itv_of(a.as_slice()), draft.itv_of(b.as_slice()));
            Ok(temporal_of(*word, a, b, int_or_zero(*z)))
        }
        Constrained::Parts(word, a, names) => {
            let parts = itvs_of(alloc, draft, names.as_slice())?;
            Ok(hierarchy_of(*word, draft.itv_of(a.as_slice()), parts))
        }
        Constrained::Alternative(a, names, count) => {
            let parts = itvs_of(alloc, draft, names.as_slice())?;
            Ok(Constraint::Alternative {
                a: draft.itv_of(a.as_slice()),
                parts,
                count: count_or_one(*count),
            })
        }
        Constrained::NoOverlap(over, spaced) => Ok(Constraint::NoOverlap {
            p: sequence_id(draft, over),
            matrix: matrix_of(draft, spaced),
            direct: is_direct(spaced),
        }),
        Constrained::Extreme(word, p, a) => {
            Ok(extreme_of(
                *word,
                draft.seq_of(p.as_slice()),
                draft.itv_of(a.as_slice()),
            ))
        }
        Constrained::Ordered(word, p, a, b) => {
            let (a, b) = (draft.itv_of(a.as_slice()), draft.itv_of(b.as_slice()));
            Ok(order_of(*word, draft.seq_of(p.as_slice()), a, b))
        }
        Constrained::Bounded(f, bound, c) => Ok(bound_of(*bound, cumul_id(draft, f), int_of(*c))),
        Constrained::AlwaysIn(f, moments, lo, hi) => Ok(Constraint::CumulIn {
            f: cumul_id(draft, f),
            window: window_of(draft, moments),
            lo: int_of(*lo),
            hi: int_of(*hi),
        }),
        Constrained::AlwaysEqual(g, a, v, aligned) => {
            let (start_aligned, end_aligned) = aligned_of(*aligned);
            Ok(Constraint::AlwaysEqual {
                g: draft.stf_of(g.as_slice()),
                a: draft.itv_of(a.as_slice()),
                v: int_of(*v),
                start_aligned,
                end_aligned,
            })
        }
        Constrained::AlwaysNoState(g, a) => Ok(Constraint::AlwaysNoState {
            g: draft.stf_of(g.as_slice()),
            a: draft.itv_of(a.as_slice()),
        }),
        Constrained::Holds(_) => unreachable!(),
    }
}

pub fn sense_of(sense: Sense) -> Aimed
    ensures { result ≡ sense_of sense }
{
    match sense {
        Sense::Minimize => Aimed::Minimize,
        Sense::Maximize => Aimed::Maximize,
    }
}
