ghost use Rattle.std.specs.Prelude.{◌≡◌, ℕ, pos, [], ◌∷◌, IsTrue, IfOk, IfSome, IfNone};
ghost use Rattle.sched_model.specs.Bounds.{is_number};
ghost use Rattle.refute_basic.specs.Witness.{numbers_of, is_valid};
ghost use Rattle.refute_basic.specs.declared.witness.BasicWitness.{BasicWitness};

use crate::names::{
    are_few, are_names, count_of, is_number, length_of, number_at, read_names, small,
};
use crate::witness::BasicWitness;
use region::Numbers;
use sched_base::NoMemory;
use std::alloc::Global;

// The places of the kinds of this crate, which are SIZE, ARC, CYCLE, EXPR, OBJ and LEAF.
const SIZE: i64 = 0;

const ARC: i64 = 1;

const CYCLE: i64 = 2;

const EXPR: i64 = 3;

const OBJ: i64 = 4;

const LEAF: i64 = 5;

impl Numbers for BasicWitness {
    ghost use Rattle.refute_basic.specs.Witness.{numbers_of, is_valid};
    ghost use Rattle.refute_basic.specs.laws.Spelling.{few_numbers, small_numbers, told_apart};

    ghost numbers = { numbers_of };

    ghost is_valid = { is_valid };

    fn valid(&self) -> bool {
        match self {
            BasicWitness::Size { x } => is_number(*x),
            BasicWitness::Arc { c, d } => is_number(*c) && is_number(*d),
            BasicWitness::Cycle { arcs } => {
                are_few(arcs.as_slice()) && are_names(arcs.as_slice())
            }
            BasicWitness::Expr { c } => is_number(*c),
            BasicWitness::Obj => true,
            BasicWitness::Leaf { k, u } => is_number(*k) && is_number(*u),
        }
    }

    fn count(&self) -> usize {
        match self {
            BasicWitness::Size { x: _ } => 2,
            BasicWitness::Arc { c: _, d: _ } => 3,
            BasicWitness::Cycle { arcs } => count_of(arcs.as_slice()),
            BasicWitness::Expr { c: _ } => 2,
            BasicWitness::Obj => 1,
            BasicWitness::Leaf { k: _, u: _ } => 3,
        }
    }

    fn number(&self, i: usize) -> i64 {
        match self {
            BasicWitness::Size { x } => match i {
                0 => SIZE,
                _ => i64::from(*x),
            },
            BasicWitness::Arc { c, d } => match i {
                0 => ARC,
                1 => i64::from(*c),
                _ => i64::from(*d),
            },
            BasicWitness::Cycle { arcs } => match i {
                0 => CYCLE,
                1 => length_of(arcs.as_slice()),
                _ => number_at(arcs.as_slice(), i - 2),
            },
            BasicWitness::Expr { c } => match i {
                0 => EXPR,
                _ => i64::from(*c),
            },
            BasicWitness::Obj => OBJ,
            BasicWitness::Leaf { k, u } => match i {
                0 => LEAF,
                1 => i64::from(*k),
                _ => i64::from(*u),
            },
        }
    }

    fn from_numbers(alloc: Global, list: &[i64]) -> Result<Option<BasicWitness>, NoMemory> {
        read(alloc, list)
    }

    ghost few = { few_numbers };

    ghost small = { small_numbers };

    ghost told_apart = { told_apart };
}

fn size(x: i64) -> Option<BasicWitness>
    ensures some { IfSome result (λ w. (numbers_of w ≡ pos 0 ∷ x ∷ []) × IsTrue (is_valid w)) }
    ensures none { IfNone result ((w : BasicWitness) → IsTrue (is_valid w) → numbers_of w ≡ pos 0 ∷ x ∷ [] → ⊥) }
{
    Some(BasicWitness::Size { x: small(x)? })
}

fn arc(c: i64, d: i64) -> Option<BasicWitness>
    ensures some { IfSome result (λ w. (numbers_of w ≡ pos 1 ∷ c ∷ d ∷ []) × IsTrue (is_valid w)) }
    ensures none { IfNone result ((w : BasicWitness) → IsTrue (is_valid w) → numbers_of w ≡ pos 1 ∷ c ∷ d ∷ [] → ⊥) }
{
    Some(BasicWitness::Arc {
        c: small(c)?,
        d: small(d)?,
    })
}

fn cycle(alloc: Global, count: i64, numbers: &[i64]) -> Result<Option<BasicWitness>, NoMemory>
    ensures some { IfOk result (λ o. IfSome o (λ w. (numbers_of w ≡ pos 2 ∷ count ∷ numbers.now) × IsTrue (is_valid w))) }
    ensures none { IfOk result (λ o. IfNone o ((w : BasicWitness) → IsTrue (is_valid w) → numbers_of w ≡ pos 2 ∷ count ∷ numbers.now → ⊥)) }
{
    let Some(arcs) = read_names(alloc, numbers)? else {
        return Ok(None);
    };
    if count != length_of(arcs.as_slice()) {
        return Ok(None);
    }
    if !are_few(arcs.as_slice()) {
        return Ok(None);
    }
    Ok(Some(BasicWitness::Cycle { arcs }))
}

fn expr(c: i64) -> Option<BasicWitness>
    ensures some { IfSome result (λ w. (numbers_of w ≡ pos 3 ∷ c ∷ []) × IsTrue (is_valid w)) }
    ensures none { IfNone result ((w : BasicWitness) → IsTrue (is_valid w) → numbers_of w ≡ pos 3 ∷ c ∷ [] → ⊥) }
{
    Some(BasicWitness::Expr { c: small(c)? })
}

fn leaf(k: i64, u: i64) -> Option<BasicWitness>
    ensures some { IfSome result (λ w. (numbers_of w ≡ pos 5 ∷ k ∷ u ∷ []) × IsTrue (is_valid w)) }
    ensures none { IfNone result ((w : BasicWitness) → IsTrue (is_valid w) → numbers_of w ≡ pos 5 ∷ k ∷ u ∷ [] → ⊥) }
{
    Some(BasicWitness::Leaf {
        k: small(k)?,
        u: small(u)?,
    })
}

/// The valid witness with these numbers.
fn read(alloc: Global, list: &[i64]) -> Result<Option<BasicWitness>, NoMemory>
    ensures some { IfOk result (λ o. IfSome o (λ w. (numbers_of w ≡ list.now) × IsTrue (is_valid w))) }
    ensures none { IfOk result (λ o. IfNone o ((w : BasicWitness) → IsTrue (is_valid w) → numbers_of w ≡ list.now → ⊥)) }
{
    match list {
        [SIZE, x] => Ok(size(*x)),
        [ARC, c, d] => Ok(arc(*c, *d)),
        [CYCLE, count, numbers @ ..] => cycle(alloc, *count, numbers),
        [EXPR, c] => Ok(expr(*c)),
        [OBJ] => Ok(Some(BasicWitness::Obj)),
        [LEAF, k, u] => Ok(leaf(*k, *u)),
        _ => Ok(None),
    }
}
