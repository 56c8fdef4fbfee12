ghost use Rattle.std.specs.Prelude.{◌≡◌, ℕ, ◌+◌, ◌*◌, ◌<◌, pos, [], ◌∷◌, List, Some, length, flat_map, slice_get, slice_index_or, IsTrue, IfOk, IfSome, IfNone};
ghost use Rattle.std.specs.List.{list_all};
ghost use Rattle.sched_model.specs.Bounds.{is_number};
ghost use Rattle.refute_basic.specs.Witness.{name_numbers, is_name};
ghost use Rattle.refute_basic.specs.declared.arc_name.ArcName.{ArcName};

use crate::arc_name::ArcName;
use sched_base::{List, NoMemory};
use std::alloc::Global;

/// Whether a log may hold the number: it may hold each.
pub fn is_number(n: u32) -> bool
    ensures { result ≡ is_number n }
{
    u64::from(n) < 1 << 32
}

/// The number as one that isn't a moment, if it is small enough.
pub fn small(number: i64) -> Option<u32>
    ensures some { IfSome result (λ n. number ≡ pos n) }
    ensures none { IfNone result ((n : ℕ) → IsTrue (is_number n) → number ≡ pos n → ⊥) }
{
    u32::try_from(number).ok()
}

fn is_name(name: ArcName) -> bool
    ensures { result ≡ is_name name }
{
    is_number(name.kind) && is_number(name.x) && is_number(name.y) && is_number(name.z)
}

/// Whether a log may hold the names: it may hold each.
pub fn are_names(arcs: &[ArcName]) -> bool
    ensures { result ≡ list_all is_name arcs.now }
{
    arcs.iter().all(|name| is_name(*name))
}

/// How many arcs there are.
pub fn length_of(arcs: &[ArcName]) -> i64
    ensures { result ≡ pos (length arcs.now) }
{
    arcs.len() as i64
}

/// How many numbers a walk has: the place of its kind, the count of its arcs, and four for each.
pub fn count_of(arcs: &[ArcName]) -> usize
    ensures { result ≡ 2 + 4 * length arcs.now }
{
    2 + 4 * arcs.len()
}

/// Whether a log may hold so many numbers.
pub fn are_few(arcs: &[ArcName]) -> bool
    ensures { result ≡ is_number (2 + 4 * length arcs.now) }
{
    count_of(arcs) < 1 << 32
}

fn number_in(name: ArcName, i: usize) -> i64
    requires { i < 4 }
    ensures { slice_get (name_numbers name) i ≡ Some result }
{
    match i {
        0 => i64::from(name.kind),
        1 => i64::from(name.x),
        2 => i64::from(name.y),
        _ => i64::from(name.z),
    }
}

fn name_at(arcs: &[ArcName], k: usize) -> ArcName
    requires { k < length arcs.now }
    ensures { result ≡ slice_index_or arcs.now k result }
{
    arcs[k]
}

/// One of the numbers of the names.
pub fn number_at(arcs: &[ArcName], i: usize) -> i64
    requires { i < length (flat_map name_numbers arcs.now) }
    ensures { slice_get (flat_map name_numbers arcs.now) i ≡ Some result }
{
    number_in(name_at(arcs, i / 4), i % 4)
}

fn make_name(kind: i64, x: i64, y: i64, z: i64) -> Option<ArcName>
    ensures some { IfSome result (λ i. (name_numbers i ≡ kind ∷ x ∷ y ∷ z ∷ []) × IsTrue (is_name i)) }
    ensures none { IfNone result ((i : ArcName) → IsTrue (is_name i) → name_numbers i ≡ kind ∷ x ∷ y ∷ z ∷ [] → ⊥) }
{
    Some(ArcName {
        kind: small(kind)?,
        x: small(x)?,
        y: small(y)?,
        z: small(z)?,
    })
}

/// The name with these numbers.
fn read_name(numbers: &[i64]) -> Option<ArcName>
    ensures some { IfSome result (λ i. (name_numbers i ≡ numbers.now) × IsTrue (is_name i)) }
    ensures none { IfNone result ((i : ArcName) → IsTrue (is_name i) → name_numbers i ≡ numbers.now → ⊥) }
{
    match numbers {
        [kind, x, y, z] => make_name(*kind, *x, *y, *z),
        _ => None,
    }
}

/// The names with these numbers. They take room as they are read.
pub fn read_names(alloc: Global, numbers: &[i64]) -> Result<Option<List<ArcName>>, NoMemory>
    ensures some { IfOk result (λ o. IfSome o (λ is. (flat_map name_numbers is ≡ numbers.now) × IsTrue (list_all is_name is))) }
    ensures none { IfOk result (λ o. IfNone o ((is : List ArcName) → IsTrue (list_all is_name is) → flat_map name_numbers is ≡ numbers.now → ⊥)) }
{
    let mut arcs = List::new(alloc);
    let mut left = numbers;
    while left.len() >= 4 {
        let Some(name) = read_name(&left[..4]) else {
            return Ok(None);
        };
        arcs.push(name)?;
        left = &left[4..];
    }
    if left.len() > 0 {
        return Ok(None);
    }
    Ok(Some(arcs))
}
