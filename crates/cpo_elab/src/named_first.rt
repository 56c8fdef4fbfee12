ghost use Rattle.std.specs.Prelude.{◌≡◌, ℕ, ◌<◌, ◌^◌, map, length, slice_index, IfOk, OnOk};
ghost use Rattle.std.specs.List.{count_by};
ghost use Rattle.sched_model.specs.Valid.{IsValid};
ghost use Rattle.sched_model.specs.code.Model.{data_of};
ghost use Rattle.cpo_elab.specs.NamedFirst.{parted, new_place, new_seq, new_cum, renumbered, named_first};

use sched_base::{Cum, List, NoMemory, Seq};
use sched_model::{Constraint, CumulDef, Model, Parts, SequenceDef};
use std::alloc::Global;

/// What a text defines under a name or writes inside a constraint.
trait MayHaveName: Drop {
    ghost use Rattle.std.specs.Prelude.{◌≡◌, Bool};

    ghost is_named: { Self → Bool };

    fn is_named(&self) -> bool
        ensures { result ≡ is_named self.now };
}

impl MayHaveName for SequenceDef {
    ghost use Rattle.cpo_elab.specs.NamedFirst.{is_named_sequence};

    ghost is_named = { is_named_sequence };

    fn is_named(&self) -> bool {
        self.name.is_some()
    }
}

impl MayHaveName for CumulDef {
    ghost use Rattle.cpo_elab.specs.NamedFirst.{is_named_cumul};

    ghost is_named = { is_named_cumul };

    fn is_named(&self) -> bool {
        self.name.is_some()
    }
}

/// The named items, then the others.
fn parted<T: MayHaveName>(alloc: Global, items: List<T>) -> Result<List<T>, NoMemory>
    ensures { IfOk result (λ r. r ≡ parted T.is_named items) }
{
    let mut named = List::new(alloc);
    let mut others = List::new(alloc);
    for item in items.into_vec() {
        if item.is_named() {
            named.push(item)?;
        } else {
            others.push(item)?;
        }
    }
    for item in others.into_vec() {
        named.push(item)?;
    }
    Ok(named)
}

fn count_named<T: MayHaveName>(items: &[T]) -> u32
    requires { length items.now < 2 ^ 32 }
    ensures { result ≡ count_by T.is_named items.now }
{
    let mut count = 0;
    for item in items {
        if item.is_named() {
            count += 1;
        }
    }
    count
}

/// The place that each item gets among the named ones and those behind them.
fn new_places<T: MayHaveName>(alloc: Global, items: &[T]) -> Result<List<u32>, NoMemory>
    requires { length items.now < 2 ^ 32 }
    ensures { IfOk result (λ places. (i : ℕ) → i < length items.now → slice_index places i ≡ new_place T.is_named items.now i) }
{
    let mut places = List::new(alloc);
    let mut named = 0;
    let mut others = count_named(items);
    for item in items {
        if item.is_named() {
            places.push(named)?;
            named += 1;
            continue;
        }
        places.push(others)?;
        others += 1;
    }
    Ok(places)
}

fn new_seq(places: &[u32], p: Seq) -> Seq
    ensures { result ≡ new_seq (slice_index places.now) p }
{
    Seq(places.get(p.0 as usize).copied().unwrap_or(0))
}

fn new_cum(places: &[u32], f: Cum) -> Cum
    ensures { result ≡ new_cum (slice_index places.now) f }
{
    Cum(places.get(f.0 as usize).copied().unwrap_or(0))
}

fn renumbered(sequences: &[u32], cumuls: &[u32], c: Constraint) -> Constraint
    ensures { result ≡ renumbered (slice_index sequences.now) (slice_index cumuls.now) c }
{
    match c {
        Constraint::NoOverlap { p, matrix, direct } => Constraint::NoOverlap {
            p: new_seq(sequences, p),
            matrix,
            direct,
        },
        Constraint::First { p, a } => Constraint::First {
            p: new_seq(sequences, p),
            a,
        },
        Constraint::Last { p, a } => Constraint::Last {
            p: new_seq(sequences, p),
            a,
        },
        Constraint::Before { p, a, b } => Constraint::Before {
            p: new_seq(sequences, p),
            a,
            b,
        },
        Constraint::Prev { p, a, b } => Constraint::Prev {
            p: new_seq(sequences, p),
            a,
            b,
        },
        Constraint::CumulIn { f, window, lo, hi } => Constraint::CumulIn {
            f: new_cum(cumuls, f),
            window,
            lo,
            hi,
        },
        other => other,
    }
}

/// Puts the named items before the others. After an error they are lost.
fn part<T: MayHaveName>(alloc: Global, items: &mut List<T>) -> Result<(), NoMemory>
    ensures { OnOk result (items.new ≡ parted T.is_named items.old) }
{
    let all = std::mem::replace(items, List::new(alloc));
    *items = parted(alloc, all)?;
    Ok(())
}

fn all_renumbered(
    alloc: Global,
    sequences: &[u32],
    cumuls: &[u32],
    constraints: List<Constraint>,
) -> Result<List<Constraint>, NoMemory>
    ensures { IfOk result (λ cs. cs ≡ map (renumbered (slice_index sequences.now) (slice_index cumuls.now)) constraints) }
{
    let mut changed = List::new(alloc);
    for c in constraints.into_vec() {
        changed.push(renumbered(sequences, cumuls, c))?;
    }
    Ok(changed)
}

/// Has constraints speak of the new places. After an error they are lost.
fn renumber_all(
    alloc: Global,
    sequences: &[u32],
    cumuls: &[u32],
    constraints: &mut List<Constraint>,
) -> Result<(), NoMemory>
    ensures { OnOk result (constraints.new ≡ map (renumbered (slice_index sequences.now) (slice_index cumuls.now)) constraints.old) }
{
    let all = std::mem::replace(constraints, List::new(alloc));
    *constraints = all_renumbered(alloc, sequences, cumuls, all)?;
    Ok(())
}

/// Renumbers the things of a model. After an error they may not fit each other.
///
/// In a function that borrows them, since each way out of one that owns them lets them go.
fn renumber(alloc: Global, parts: &mut Parts) -> Result<(), NoMemory>
    requires { IsValid (data_of parts.old) }
    ensures { OnOk result (data_of parts.new ≡ named_first (data_of parts.old)) }
{
    let sequences = new_places(alloc, parts.sequences.as_slice())?;
    let cumuls = new_places(alloc, parts.cumuls.as_slice())?;
    part(alloc, &mut parts.sequences)?;
    part(alloc, &mut parts.cumuls)?;
    renumber_all(
        alloc,
        sequences.as_slice(),
        cumuls.as_slice(),
        &mut parts.constraints,
    )?;
    Ok(())
}

/// The same model with its named sequences and cumulative functions numbered first, each kind in
/// the order of the text.
pub fn named_first(alloc: Global, model: Model) -> Result<Model, NoMemory>
    ensures { IfOk result (λ m. m ≡ named_first model) }
{
    let mut parts = model.into_parts();
    renumber(alloc, &mut parts)?;
    Ok(Model::of(parts))
}
