ghost use Rattle.std.specs.Prelude.{◌≡◌, ◌≤◌, length};
ghost use Rattle.calendar.specs.code.Counts.{number_nodes, rule_nodes, made_nodes};

use crate::rules::Demand;
use crate::step::Pair;

fn number_nodes(z: i64) -> u64
    ensures is { result ≡ number_nodes z }
    ensures few { result ≤ 2 }
{
    if z < 0 { 2 } else { 1 }
}

fn rule_nodes(demand: Demand, r: Pair) -> u64
    ensures is { result ≡ rule_nodes demand r }
    ensures few { result ≤ 14 }
{
    let ends = number_nodes(r.t) + number_nodes(r.v);
    match demand {
        Demand::Start => 7 + ends,
        Demand::Extent => 10 + ends,
    }
}

/// How many nodes the constraints of a calendar have that are made for these closed ranges.
#[tactic(auto, using(crate::proofs::Counting::count_turn, crate::proofs::Counting::count_end))]
pub fn made_nodes(demand: Demand, ranges: &[Pair]) -> u64
    requires few { length ranges.now ≤ 1001 }
    ensures { result ≡ made_nodes demand ranges.now }
{
    let mut total = 0;
    for r in ranges {
        total += rule_nodes(demand, *r);
    }
    total
}
