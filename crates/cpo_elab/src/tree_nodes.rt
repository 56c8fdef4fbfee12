ghost use Rattle.std.specs.Prelude.{◌≡◌, map, fold, sum_by};
ghost use Rattle.sched_model.specs.Data.{Data};
ghost use Rattle.sched_model.specs.Valid.{node_count};
ghost use Rattle.cpo_elab.specs.Elaborated.{expr_of};
ghost use Rattle.cpo_elab.specs.code.Drafts.{capped, plus};
ghost use Rattle.cpo_elab.specs.code.Counted.{counted};

use crate::counts::plus;
use cpo_text::Logic;

/// The number of the nodes that the expression of a tree has, as far as it can be counted. The
/// expression isn't built for it.
pub fn tree_nodes(e: &Logic) -> u64
    ensures { (m : Data) → result ≡ capped (node_count (expr_of m e.now)) }
{
    counted(e)
}

/// The number of the nodes that the expressions of some trees have together, as far as it can be
/// counted.
pub fn all_nodes(es: &[Logic]) -> u64
    ensures { (m : Data) → result ≡ capped (sum_by (λ e. node_count (expr_of m e)) es.now) }
{
    counted_all(es)
}

fn counted_all(es: &[Logic]) -> u64
    ensures { result ≡ fold plus 0 (map counted es.now) }
{
    let mut total = 0;
    for e in es {
        total = plus(total, counted(e));
    }
    total
}

#[cycle(counted)]
fn counted(e: &Logic) -> u64
    ensures { result ≡ counted e.now }
{
    match e {
        Logic::Lit(_) => 1,
        Logic::Group(part) => counted(part.get()),
        Logic::PresenceOf(_) => 1,
        Logic::Measured(_, _, _) => 1,
        Logic::Gathered(_, parts) => counted_list(parts.as_slice()),
        Logic::Linked(_, parts) => counted_list(parts.as_slice()),
        Logic::Neg(part) => counted_over(part.get()),
        Logic::Sum(parts) => counted_list(parts.as_slice()),
        Logic::Compare(_, a, b) => {
            let a = counted_over(a.get());
            let b = counted(b.get());
            plus(a, b)
        }
        Logic::Not(part) => counted_over(part.get()),
        Logic::Implies(a, b) => {
            let a = counted_over(a.get());
            let b = counted(b.get());
            plus(a, b)
        }
    }
}

/// A node over one part.
#[cycle(counted)]
fn counted_over(part: &Logic) -> u64
    ensures { result ≡ plus 1 (counted part.now) }
{
    plus(1, counted(part))
}

/// A node over a list of parts.
#[cycle(counted)]
fn counted_list(parts: &[Logic]) -> u64
    ensures { result ≡ fold plus 1 (map counted parts.now) }
{
    let mut total = 1;
    for part in parts {
        total = plus(total, counted(part));
    }
    total
}
