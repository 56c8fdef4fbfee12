ghost use Rattle.std.specs.Prelude.{◌≡◌, ℕ, pos, [], ◌∷◌, IsTrue, IfSome, IfNone};
ghost use Rattle.sched_model.specs.Bounds.{is_number};
ghost use Rattle.refute_hier.specs.Witness.{numbers_of, is_valid};
ghost use Rattle.refute_hier.specs.declared.witness.HierWitness.{HierWitness};

use crate::witness::HierWitness;
use region::Numbers;
use sched_base::NoMemory;
use std::alloc::Global;

// The places of the kinds of this crate, which are SPAN, ALT, SYNC and SEQREL.
const SPAN: i64 = 0;

const ALT: i64 = 1;

const SYNC: i64 = 2;

const SEQREL: i64 = 3;

impl Numbers for HierWitness {
    ghost use Rattle.refute_hier.specs.Witness.{numbers_of, is_valid};
    ghost use Rattle.refute_hier.specs.laws.Spelling.{few_numbers, small_numbers, told_apart};

    ghost numbers = { numbers_of };

    ghost is_valid = { is_valid };

    fn valid(&self) -> bool {
        match *self {
            HierWitness::Span { c, r, i } => is_number(c) && is_number(r) && is_number(i),
            HierWitness::Alt { c, r, i, j } => {
                is_number(c) && is_number(r) && is_number(i) && is_number(j)
            }
            HierWitness::Sync { c, i } => is_number(c) && is_number(i),
            HierWitness::SeqRel { c, x } => is_number(c) && is_number(x),
        }
    }

    fn count(&self) -> usize {
        match *self {
            HierWitness::Span { c: _, r: _, i: _ } => 4,
            HierWitness::Alt {
                c: _,
                r: _,
                i: _,
                j: _,
            } => 5,
            HierWitness::Sync { c: _, i: _ } => 3,
            HierWitness::SeqRel { c: _, x: _ } => 3,
        }
    }

    fn number(&self, n: usize) -> i64 {
        match *self {
            HierWitness::Span { c, r, i } => match n {
                0 => SPAN,
                1 => i64::from(c),
                2 => i64::from(r),
                _ => i64::from(i),
            },
            HierWitness::Alt { c, r, i, j } => match n {
                0 => ALT,
                1 => i64::from(c),
                2 => i64::from(r),
                3 => i64::from(i),
                _ => i64::from(j),
            },
            HierWitness::Sync { c, i } => match n {
                0 => SYNC,
                1 => i64::from(c),
                _ => i64::from(i),
            },
            HierWitness::SeqRel { c, x } => match n {
                0 => SEQREL,
                1 => i64::from(c),
                _ => i64::from(x),
            },
        }
    }

    fn from_numbers(_: Global, list: &[i64]) -> Result<Option<HierWitness>, NoMemory> {
        Ok(read(list))
    }

    ghost few = { few_numbers };

    ghost small = { small_numbers };

    ghost told_apart = { told_apart };
}

/// Whether a log may hold the number: it may hold each.
fn is_number(n: u32) -> bool
    ensures { result ≡ is_number n }
{
    u64::from(n) < 1 << 32
}

/// The number as one that isn't a moment, if it is small enough.
fn small(number: i64) -> Option<u32>
    ensures some { IfSome result (λ n. number ≡ pos n) }
    ensures none { IfNone result ((n : ℕ) → IsTrue (is_number n) → number ≡ pos n → ⊥) }
{
    u32::try_from(number).ok()
}

fn span(c: i64, r: i64, i: i64) -> Option<HierWitness>
    ensures some { IfSome result (λ w. (numbers_of w ≡ pos 0 ∷ c ∷ r ∷ i ∷ []) × IsTrue (is_valid w)) }
    ensures none { IfNone result ((w : HierWitness) → IsTrue (is_valid w) → numbers_of w ≡ pos 0 ∷ c ∷ r ∷ i ∷ [] → ⊥) }
{
    Some(HierWitness::Span {
        c: small(c)?,
        r: small(r)?,
        i: small(i)?,
    })
}

fn alt(c: i64, r: i64, i: i64, j: i64) -> Option<HierWitness>
    ensures some { IfSome result (λ w. (numbers_of w ≡ pos 1 ∷ c ∷ r ∷ i ∷ j ∷ []) × IsTrue (is_valid w)) }
    ensures none { IfNone result ((w : HierWitness) → IsTrue (is_valid w) → numbers_of w ≡ pos 1 ∷ c ∷ r ∷ i ∷ j ∷ [] → ⊥) }
{
    Some(HierWitness::Alt {
        c: small(c)?,
        r: small(r)?,
        i: small(i)?,
        j: small(j)?,
    })
}

fn sync(c: i64, i: i64) -> Option<HierWitness>
    ensures some { IfSome result (λ w. (numbers_of w ≡ pos 2 ∷ c ∷ i ∷ []) × IsTrue (is_valid w)) }
    ensures none { IfNone result ((w : HierWitness) → IsTrue (is_valid w) → numbers_of w ≡ pos 2 ∷ c ∷ i ∷ [] → ⊥) }
{
    Some(HierWitness::Sync {
        c: small(c)?,
        i: small(i)?,
    })
}

fn seqrel(c: i64, x: i64) -> Option<HierWitness>
    ensures some { IfSome result (λ w. (numbers_of w ≡ pos 3 ∷ c ∷ x ∷ []) × IsTrue (is_valid w)) }
    ensures none { IfNone result ((w : HierWitness) → IsTrue (is_valid w) → numbers_of w ≡ pos 3 ∷ c ∷ x ∷ [] → ⊥) }
{
    Some(HierWitness::SeqRel {
        c: small(c)?,
        x: small(x)?,
    })
}

/// The valid witness with these numbers.
fn read(list: &[i64]) -> Option<HierWitness>
    ensures some { IfSome result (λ w. (numbers_of w ≡ list.now) × IsTrue (is_valid w)) }
    ensures none { IfNone result ((w : HierWitness) → IsTrue (is_valid w) → numbers_of w ≡ list.now → ⊥) }
{
    match list {
        [SPAN, c, r, i] => span(*c, *r, *i),
        [ALT, c, r, i, j] => alt(*c, *r, *i, *j),
        [SYNC, c, i] => sync(*c, *i),
        [SEQREL, c, x] => seqrel(*c, *x),
        _ => None,
    }
}
