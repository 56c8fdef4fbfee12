ghost use Rattle.std.specs.Prelude.{◌≡◌, ◌+◌, ◌&&◌, pos, [], ◌∷◌, length, IsTrue, IfOk, IfSome, IfNone};
ghost use Rattle.sched_model.specs.Bounds.{is_number};
ghost use Rattle.refute_seq.specs.Witness.{numbers_of, is_valid};
ghost use Rattle.refute_seq.specs.declared.spelling.Head.{Head};
ghost use Rattle.refute_seq.specs.declared.witness.SeqWitness.{SeqWitness};

use crate::set_numbers::{
    behind, count_of, is_count, is_number, is_number_set, number_in_three, only_set, set_in_front,
    set_number, small,
};
use crate::witness::SeqWitness;
use region::Numbers;
use sched_base::NoMemory;
use std::alloc::Global;

// The places of the kinds of this crate, which are PAIR, TRIPLE, OVERLOAD, EDGE, NOTEND and DETECT.
const PAIR: i64 = 0;

const TRIPLE: i64 = 1;

const OVERLOAD: i64 = 2;

const EDGE: i64 = 3;

const NOT_END: i64 = 4;

const DETECT: i64 = 5;

impl Numbers for SeqWitness {
    ghost use Rattle.sched_model.specs.Bounds.{is_number};
    ghost use Rattle.refute_seq.specs.Witness.{numbers_of, is_valid};
    ghost use Rattle.refute_seq.specs.laws.Spelling.{few_numbers, small_numbers, told_apart};

    ghost numbers = { numbers_of };

    ghost is_valid = { is_valid };

    fn valid(&self) -> bool {
        match self {
            SeqWitness::Pair { c, a, b, k } => {
                is_number(*c) && is_number(*a) && is_number(*b) && is_number(*k)
            }
            SeqWitness::Triple { p, x, y, z } => {
                is_number(*p) && is_number(*x) && is_number(*y) && is_number(*z)
            }
            SeqWitness::Overload { c, s } => {
                is_number(*c) && is_number_set(s.as_slice()) && is_count(3 + s.as_slice().len())
            }
            SeqWitness::Edge {
                c,
                side,
                i,
                s,
                u,
                v,
            } => {
                are_numbers(*c, *side, *i)
                    && is_number_set(s.as_slice())
                    && is_number_set(u.get().as_slice())
                    && is_number_set(v.get().as_slice())
                    && is_count(edge_count(s.as_slice(), u.get().as_slice(), v.get().as_slice()))
            }
            SeqWitness::NotEnd { c, side, i, s } => {
                are_numbers(*c, *side, *i)
                    && is_number_set(s.as_slice())
                    && is_count(5 + s.as_slice().len())
            }
            SeqWitness::Detect { c, side, i, s } => {
                are_numbers(*c, *side, *i)
                    && is_number_set(s.as_slice())
                    && is_count(5 + s.as_slice().len())
            }
        }
    }

    fn count(&self) -> usize {
        match self {
            SeqWitness::Pair {
                c: _,
                a: _,
                b: _,
                k: _,
            } => 5,
            SeqWitness::Triple {
                p: _,
                x: _,
                y: _,
                z: _,
            } => 5,
            SeqWitness::Overload { c: _, s } => 2 + count_of(s.as_slice()),
            SeqWitness::Edge {
                c: _,
                side: _,
                i: _,
                s,
                u,
                v,
            } => edge_count(s.as_slice(), u.get().as_slice(), v.get().as_slice()),
            SeqWitness::NotEnd {
                c: _,
                side: _,
                i: _,
                s,
            } => 4 + count_of(s.as_slice()),
            SeqWitness::Detect {
                c: _,
                side: _,
                i: _,
                s,
            } => 4 + count_of(s.as_slice()),
        }
    }

    fn number(&self, n: usize) -> i64 {
        match self {
            SeqWitness::Pair { c, a, b, k } => match n {
                0 => PAIR,
                1 => i64::from(*c),
                2 => i64::from(*a),
                3 => i64::from(*b),
                _ => i64::from(*k),
            },
            SeqWitness::Triple { p, x, y, z } => match n {
                0 => TRIPLE,
                1 => i64::from(*p),
                2 => i64::from(*x),
                3 => i64::from(*y),
                _ => i64::from(*z),
            },
            SeqWitness::Overload { c, s } => match n {
                0 => OVERLOAD,
                1 => i64::from(*c),
                _ => set_number(s.as_slice(), n - 2),
            },
            SeqWitness::Edge {
                c,
                side,
                i,
                s,
                u,
                v,
            } => match n {
                0 => EDGE,
                1 => i64::from(*c),
                2 => i64::from(*side),
                3 => i64::from(*i),
                _ => number_in_three(s.as_slice(), u.get().as_slice(), v.get().as_slice(), n - 4),
            },
            SeqWitness::NotEnd { c, side, i, s } => match n {
                0 => NOT_END,
                1 => i64::from(*c),
                2 => i64::from(*side),
                3 => i64::from(*i),
                _ => set_number(s.as_slice(), n - 4),
            },
            SeqWitness::Detect { c, side, i, s } => match n {
                0 => DETECT,
                1 => i64::from(*c),
                2 => i64::from(*side),
                3 => i64::from(*i),
                _ => set_number(s.as_slice(), n - 4),
            },
        }
    }

    fn from_numbers(alloc: Global, list: &[i64]) -> Result<Option<SeqWitness>, NoMemory> {
        read(alloc, list)
    }

    ghost few = { few_numbers };

    ghost small = { small_numbers };

    ghost told_apart = { told_apart };
}

fn are_numbers(c: u32, side: u32, i: u32) -> bool
    ensures { result ≡ (is_number c && is_number side && is_number i) }
{
    is_number(c) && is_number(side) && is_number(i)
}

/// How many numbers a witness of EDGE has.
fn edge_count(s: &[u32], u: &[u32], v: &[u32]) -> usize
    ensures { result ≡ 7 + length s.now + length u.now + length v.now }
{
    7 + s.len() + u.len() + v.len()
}

fn pair(c: i64, a: i64, b: i64, k: i64) -> Option<SeqWitness>
    ensures some { IfSome result (λ w. (numbers_of w ≡ pos 0 ∷ c ∷ a ∷ b ∷ k ∷ []) × IsTrue (is_valid w)) }
    ensures none { IfNone result ((w : SeqWitness) → IsTrue (is_valid w) → numbers_of w ≡ pos 0 ∷ c ∷ a ∷ b ∷ k ∷ [] → ⊥) }
{
    Some(SeqWitness::Pair {
        c: small(c)?,
        a: small(a)?,
        b: small(b)?,
        k: small(k)?,
    })
}

fn triple(p: i64, x: i64, y: i64, z: i64) -> Option<SeqWitness>
    ensures some { IfSome result (λ w. (numbers_of w ≡ pos 1 ∷ p ∷ x ∷ y ∷ z ∷ []) × IsTrue (is_valid w)) }
    ensures none { IfNone result ((w : SeqWitness) → IsTrue (is_valid w) → numbers_of w ≡ pos 1 ∷ p ∷ x ∷ y ∷ z ∷ [] → ⊥) }
{
    Some(SeqWitness::Triple {
        p: small(p)?,
        x: small(x)?,
        y: small(y)?,
        z: small(z)?,
    })
}

fn overload(alloc: Global, c: i64, numbers: &[i64]) -> Result<Option<SeqWitness>, NoMemory>
    ensures some { IfOk result (λ o. IfSome o (λ w. (numbers_of w ≡ pos 2 ∷ c ∷ numbers.now) × IsTrue (is_valid w))) }
    ensures none { IfOk result (λ o. IfNone o ((w : SeqWitness) → IsTrue (is_valid w) → numbers_of w ≡ pos 2 ∷ c ∷ numbers.now → ⊥)) }
{
    let Some(c) = small(c) else {
        return Ok(None);
    };
    let Some(s) = only_set(alloc, numbers)? else {
        return Ok(None);
    };
    if !is_count(2 + numbers.len()) {
        return Ok(None);
    }
    Ok(Some(SeqWitness::Overload { c, s }))
}

/// The three numbers in front of the set of NOTEND and of DETECT, and of the sets of EDGE.
#[derive(Clone, Copy)]
struct Head {
    c: u32,
    side: u32,
    i: u32,
}

fn read_head(c: i64, side: i64, i: i64) -> Option<Head>
    ensures some { IfSome result (λ f. (c ≡ pos f.c) × (side ≡ pos f.side) × (i ≡ pos f.i)) }
    ensures none { IfNone result ((f : Head) → IsTrue (is_number f.c && is_number f.side && is_number f.i) → c ≡ pos f.c → side ≡ pos f.side → i ≡ pos f.i → ⊥) }
{
    Some(Head {
        c: small(c)?,
        side: small(side)?,
        i: small(i)?,
    })
}

fn edge(
    alloc: Global,
    c: i64,
    side: i64,
    i: i64,
    numbers: &[i64],
) -> Result<Option<SeqWitness>, NoMemory>
    ensures some { IfOk result (λ o. IfSome o (λ w. (numbers_of w ≡ pos 3 ∷ c ∷ side ∷ i ∷ numbers.now) × IsTrue (is_valid w))) }
    ensures none { IfOk result (λ o. IfNone o ((w : SeqWitness) → IsTrue (is_valid w) → numbers_of w ≡ pos 3 ∷ c ∷ side ∷ i ∷ numbers.now → ⊥)) }
{
    let Some(f) = read_head(c, side, i) else {
        return Ok(None);
    };
    let Some(s) = set_in_front(alloc, numbers)? else {
        return Ok(None);
    };
    let parts = behind(s.as_slice(), numbers);
    let Some(u) = set_in_front(alloc, parts)? else {
        return Ok(None);
    };
    let Some(v) = only_set(alloc, behind(u.as_slice(), parts))? else {
        return Ok(None);
    };
    if !is_count(4 + numbers.len()) {
        return Ok(None);
    }
    let witness = SeqWitness::edge(alloc, f.c, f.side, f.i, s, u, v)?;
    Ok(Some(witness))
}

fn not_end(
    alloc: Global,
    c: i64,
    side: i64,
    i: i64,
    numbers: &[i64],
) -> Result<Option<SeqWitness>, NoMemory>
    ensures some { IfOk result (λ o. IfSome o (λ w. (numbers_of w ≡ pos 4 ∷ c ∷ side ∷ i ∷ numbers.now) × IsTrue (is_valid w))) }
    ensures none { IfOk result (λ o. IfNone o ((w : SeqWitness) → IsTrue (is_valid w) → numbers_of w ≡ pos 4 ∷ c ∷ side ∷ i ∷ numbers.now → ⊥)) }
{
    let Some(f) = read_head(c, side, i) else {
        return Ok(None);
    };
    let Some(s) = only_set(alloc, numbers)? else {
        return Ok(None);
    };
    if !is_count(4 + numbers.len()) {
        return Ok(None);
    }
    Ok(Some(SeqWitness::NotEnd {
        c: f.c,
        side: f.side,
        i: f.i,
        s,
    }))
}

fn detect(
    alloc: Global,
    c: i64,
    side: i64,
    i: i64,
    numbers: &[i64],
) -> Result<Option<SeqWitness>, NoMemory>
    ensures some { IfOk result (λ o. IfSome o (λ w. (numbers_of w ≡ pos 5 ∷ c ∷ side ∷ i ∷ numbers.now) × IsTrue (is_valid w))) }
    ensures none { IfOk result (λ o. IfNone o ((w : SeqWitness) → IsTrue (is_valid w) → numbers_of w ≡ pos 5 ∷ c ∷ side ∷ i ∷ numbers.now → ⊥)) }
{
    let Some(f) = read_head(c, side, i) else {
        return Ok(None);
    };
    let Some(s) = only_set(alloc, numbers)? else {
        return Ok(None);
    };
    if !is_count(4 + numbers.len()) {
        return Ok(None);
    }
    Ok(Some(SeqWitness::Detect {
        c: f.c,
        side: f.side,
        i: f.i,
        s,
    }))
}

/// The same of the numbers behind the place of the kind.
fn edge_in(alloc: Global, rest: &[i64]) -> Result<Option<SeqWitness>, NoMemory>
    ensures some { IfOk result (λ o. IfSome o (λ w. (numbers_of w ≡ pos 3 ∷ rest.now) × IsTrue (is_valid w))) }
    ensures none { IfOk result (λ o. IfNone o ((w : SeqWitness) → IsTrue (is_valid w) → numbers_of w ≡ pos 3 ∷ rest.now → ⊥)) }
{
    if rest.len() < 3 {
        return Ok(None);
    }
    edge(alloc, rest[0], rest[1], rest[2], &rest[3..])
}

/// The same of the numbers behind the place of the kind.
fn not_end_in(alloc: Global, rest: &[i64]) -> Result<Option<SeqWitness>, NoMemory>
    ensures some { IfOk result (λ o. IfSome o (λ w. (numbers_of w ≡ pos 4 ∷ rest.now) × IsTrue (is_valid w))) }
    ensures none { IfOk result (λ o. IfNone o ((w : SeqWitness) → IsTrue (is_valid w) → numbers_of w ≡ pos 4 ∷ rest.now → ⊥)) }
{
    if rest.len() < 3 {
        return Ok(None);
    }
    not_end(alloc, rest[0], rest[1], rest[2], &rest[3..])
}

/// The same of the numbers behind the place of the kind.
fn detect_in(alloc: Global, rest: &[i64]) -> Result<Option<SeqWitness>, NoMemory>
    ensures some { IfOk result (λ o. IfSome o (λ w. (numbers_of w ≡ pos 5 ∷ rest.now) × IsTrue (is_valid w))) }
    ensures none { IfOk result (λ o. IfNone o ((w : SeqWitness) → IsTrue (is_valid w) → numbers_of w ≡ pos 5 ∷ rest.now → ⊥)) }
{
    if rest.len() < 3 {
        return Ok(None);
    }
    detect(alloc, rest[0], rest[1], rest[2], &rest[3..])
}

/// The valid witness with these numbers.
fn read(alloc: Global, list: &[i64]) -> Result<Option<SeqWitness>, NoMemory>
    ensures some { IfOk result (λ o. IfSome o (λ w. (numbers_of w ≡ list.now) × IsTrue (is_valid w))) }
    ensures none { IfOk result (λ o. IfNone o ((w : SeqWitness) → IsTrue (is_valid w) → numbers_of w ≡ list.now → ⊥)) }
{
    match list {
        [PAIR, c, a, b, k] => Ok(pair(*c, *a, *b, *k)),
        [TRIPLE, p, x, y, z] => Ok(triple(*p, *x, *y, *z)),
        [OVERLOAD, c, numbers @ ..] => overload(alloc, *c, numbers),
        [EDGE, rest @ ..] => edge_in(alloc, rest),
        [NOT_END, rest @ ..] => not_end_in(alloc, rest),
        [DETECT, rest @ ..] => detect_in(alloc, rest),
        _ => Ok(None),
    }
}
