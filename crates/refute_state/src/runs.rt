ghost use Rattle.std.specs.Prelude.{◌≡◌, IfOk, OnOk, ◌∷◌, ◌++◌, [], List, ℤ, ◌+ℤ◌, Bool};
ghost use Rattle.refute_state.specs.code.Groups.{meets, are_joined, segment_of, extended, runs_from, runs, canonical_of};
ghost use Rattle.refute_state.specs.laws.Lists.{Each};
ghost use Rattle.refute_state.specs.laws.Facts.{Proper, Serves};
ghost use Rattle.refute_state.specs.laws.Running.{IsDistance};
ghost use Rattle.refute_state.specs.laws.Serving.{canonical_serves};
ghost use Rattle.refute_state.specs.laws.Making.{are_groups};
ghost use Rattle.refute_state.specs.laws.Settled.{settled_serves};
ghost use Rattle.std.specs.List.{list_any};

use crate::groups::{groups_of, meets};
use crate::stretch::Stretch;
use sched_base::NoMemory;
use sched_model::Segment;
use std::alloc::Global;

fn meets_any(s: i64, e: i64, gaps: &[(i64, i64)]) -> bool
    ensures { result ≡ list_any (λ n. meets s e n.0 n.1) gaps.now }
{
    gaps.iter().any(|n| meets(s, e, n.0, n.1))
}

fn are_joined(gaps: &[(i64, i64)], i: Stretch, j: Stretch) -> bool
    ensures { result ≡ are_joined gaps.now i j }
{
    i.state == j.state && !i.ends && !j.starts && !meets_any(i.end, j.start, gaps)
}

fn segment_of(i: Stretch) -> Segment
    ensures { result ≡ segment_of i }
{
    Segment {
        p: i.start,
        q: i.end,
        v: i.state,
    }
}

fn extended(now: Segment, j: Stretch) -> Segment
    ensures { result ≡ extended now j }
{
    Segment {
        p: now.p,
        q: now.q.max(j.end),
        v: now.v,
    }
}

fn next(
    made: &mut Vec<Segment>,
    gaps: &[(i64, i64)],
    now: Segment,
    last: Stretch,
    j: Stretch,
) -> Result<Segment, NoMemory>
    ensures { IfOk result (λ r. (js : List Stretch) → made.new.items ++ runs_from gaps.now r j js ≡ made.old.items ++ runs_from gaps.now now last (j ∷ js)) }
{
    if are_joined(gaps, last, j) {
        return Ok(extended(now, j));
    }
    made.push(now)?;
    Ok(segment_of(j))
}

#[tactic(auto, using(crate::proofs::Steps::run_step))]
pub fn runs(
    alloc: Global,
    gaps: &[(i64, i64)],
    groups: &[Stretch],
) -> Result<Vec<Segment>, NoMemory>
    ensures { IfOk result (λ ss. ss.items ≡ runs gaps.now groups.now) }
{
    let mut made = Vec::new(alloc);
    let Some((first, rest)) = groups.split_first() else {
        return Ok(made);
    };
    let mut now = segment_of(*first);
    let mut last = *first;
    for j in rest {
        now = next(&mut made, gaps, now, last, *j)?;
        last = *j;
    }
    made.push(now)?;
    Ok(made)
}

pub fn segments_of(
    alloc: Global,
    demands: &[Stretch],
    gaps: &[(i64, i64)],
) -> Result<Vec<Segment>, NoMemory>
    ensures { IfOk result (λ ss. ss.items ≡ canonical_of demands.now gaps.now) }
{
    let groups = groups_of(alloc, demands)?;
    runs(alloc, gaps, &groups)
}
