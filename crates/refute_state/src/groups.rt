ghost use Rattle.std.specs.Prelude.{◌≡◌, IfOk, OnOk, ◌∷◌, [], ◌||◌, ◌≤◌, length, if◌then◌else◌};
ghost use Rattle.std.specs.List.{insert};
ghost use Rattle.refute_state.specs.code.Groups.{meets, is_linked, both, is_first_of, absorbed, others, placed, with_demand, groups_of};

use crate::stretch::Stretch;
use sched_base::NoMemory;
use std::alloc::Global;

pub fn meets(s: i64, e: i64, t: i64, f: i64) -> bool
    ensures { result ≡ meets s e t f }
{
    s.max(t) < e.min(f)
}

fn is_linked(i: Stretch, j: Stretch) -> bool
    ensures { result ≡ is_linked i j }
{
    i.state == j.state && meets(i.start, i.end, j.start, j.end)
}

fn either(a: bool, b: bool) -> bool
    ensures { result ≡ (a || b) }
{
    a || b
}

fn both(i: Stretch, j: Stretch) -> Stretch
    ensures { result ≡ both i j }
{
    Stretch {
        start: i.start.min(j.start),
        end: i.end.max(j.end),
        state: i.state,
        starts: either(i.starts, j.starts),
        ends: either(i.ends, j.ends),
    }
}

fn is_first_of(i: Stretch, j: Stretch) -> bool
    ensures { result ≡ is_first_of i j }
{
    i.start < j.start || (i.start == j.start && i.state <= j.state)
}

fn taken(d: Stretch, whole: Stretch, g: Stretch) -> Stretch
    ensures { result ≡ (if is_linked d g then both whole g else whole) }
{
    if is_linked(d, g) {
        return both(whole, g);
    }
    whole
}

#[tactic(auto, using(crate::proofs::Steps::taken_step))]
fn absorbed(d: Stretch, groups: &[Stretch]) -> Stretch
    ensures { result ≡ absorbed d groups.now }
{
    let mut whole = d;
    for g in groups {
        whole = taken(d, whole, *g);
    }
    whole
}

fn keep_others(d: Stretch, groups: &mut Vec<Stretch>)
    ensures { groups.new.items ≡ others d groups.old.items }
{
    groups.retain(|g| !is_linked(d, *g));
}

#[tactic(auto, using(crate::proofs::Steps::place_here, crate::proofs::Steps::place_step, crate::proofs::Steps::place_end))]
fn place_of(i: Stretch, groups: &[Stretch]) -> usize
    ensures within { result ≤ length groups.now }
    ensures place { insert groups.now result i ≡ placed i groups.now }
{
    for k in 0..groups.len() {
        if is_first_of(i, groups[k]) {
            return k;
        }
    }
    groups.len()
}

fn place(i: Stretch, groups: &mut Vec<Stretch>) -> Result<(), NoMemory>
    ensures { OnOk result (groups.new.items ≡ placed i groups.old.items) }
{
    let at = place_of(i, groups);
    groups.insert(at, i)?;
    Ok(())
}

fn add_demand(groups: &mut Vec<Stretch>, d: Stretch) -> Result<(), NoMemory>
    ensures { OnOk result (groups.new.items ≡ with_demand groups.old.items d) }
{
    let whole = absorbed(d, groups);
    keep_others(d, groups);
    place(whole, groups)
}

#[tactic(auto, using(crate::proofs::Steps::demand_step))]
pub fn groups_of(alloc: Global, demands: &[Stretch]) -> Result<Vec<Stretch>, NoMemory>
    ensures { IfOk result (λ gs. gs.items ≡ groups_of demands.now) }
{
    let mut groups = Vec::new(alloc);
    for d in demands {
        add_demand(&mut groups, *d)?;
    }
    Ok(groups)
}
