ghost use Rattle.std.specs.Prelude.{◌≡◌, [], ◌<◌, true, IfOk, length, get_or, set, replicate, map, slice_get, Some};
ghost use Rattle.sched_model.specs.Domain.{are_segments, fits_def, is_in_domain, lists_present};
ghost use Rattle.sched_model.specs.Value.{is_present, present_of};
ghost use Rattle.sched_model.specs.Valid.{IsValid};
ghost use Rattle.sched_model.specs.Words.{placewise};
ghost use Rattle.read_schedule.specs.code.Reads.{Exchanged, HasSlots, Tested, sequence_at, state_at};

use sched_base::{Itv, List, NoMemory};
use sched_model::{Assignment, Model, Segment, SequenceDef, Slot, Slots, in_domain};
use std::alloc::Global;
use std::mem::replace;

fn is_present(a: &Assignment, x: Itv) -> bool
    ensures { result ≡ is_present a.now x }
{
    match a.slot(x) {
        Slot::Absent => false,
        Slot::Present { s: _, e: _ } => true,
    }
}

/// The members of a sequence that are present.
fn present_of(alloc: Global, a: &Assignment, members: &[Itv]) -> Result<List<Itv>, NoMemory>
    ensures { IfOk result (λ xs. xs ≡ present_of a.now members.now) }
{
    let mut order = List::new(alloc);
    for x in members {
        if !is_present(a, *x) {
            continue;
        }
        order.push(*x)?;
    }
    Ok(order)
}

/// An order for each sequence: its present members as they are listed.
fn some_orders(
    alloc: Global,
    a: &Assignment,
    defs: &[SequenceDef],
) -> Result<List<List<Itv>>, NoMemory>
    ensures { IfOk result (λ os. os ≡ map (λ d. present_of a.now d.members) defs.now) }
{
    let mut orders = List::new(alloc);
    for d in defs {
        let order = present_of(alloc, a, d.members.as_slice())?;
        orders.push(order)?;
    }
    Ok(orders)
}

/// So many lists of no segment.
fn no_segments(alloc: Global, n: usize) -> Result<List<List<Segment>>, NoMemory>
    ensures { IfOk result (λ ss. ss ≡ replicate n []) }
{
    let mut segs = List::new(alloc);
    for _i in 0..n {
        segs.push(List::new(alloc))?;
    }
    Ok(segs)
}

/// An assignment in the domain with these slots.
pub fn some_assignment(
    alloc: Global,
    model: &Model,
    slots: List<Slot>,
) -> Result<Assignment, NoMemory>
    requires { placewise fits_def model.now.intervals slots ≡ true }
    ensures { IfOk result (λ a. HasSlots model.now slots a) }
{
    let bare = Assignment {
        slots,
        orders: List::new(alloc),
        segs: List::new(alloc),
    };
    let orders = some_orders(alloc, &bare, model.sequences())?;
    let segs = no_segments(alloc, model.states().len())?;
    Ok(Assignment {
        slots: bare.slots,
        orders,
        segs,
    })
}

/// Puts a list in the place of another, and answers both.
fn exchange<T: Drop>(lists: List<List<T>>, i: usize, list: List<T>) -> (List<List<T>>, List<T>)
    requires { i < length lists }
    ensures { Exchanged lists i list result.0 result.1 }
{
    let mut lists = lists.into_vec();
    let before = replace(&mut lists[i], list);
    (List::from_vec(lists), before)
}

/// Whether the order of a sequence lists exactly its present members, each once: whether the
/// assignment stays in the domain with it. An order that is longer than the members is refused by
/// its length, before its members are compared.
pub fn try_order(
    model: &Model,
    a: Assignment,
    i: usize,
    order: List<Itv>,
) -> (Assignment, List<Itv>, bool)
    requires domain { is_in_domain model.now a ≡ true }
    requires within { i < length model.now.sequences }
    ensures { Tested (lists_present a) (sequence_at model.now i) a order result.0 result.1 result.2 }
{
    let Assignment {
        slots,
        orders,
        segs,
    } = a;
    let (orders, before) = exchange(orders, i, order);
    let tried = Assignment {
        slots,
        orders,
        segs,
    };
    let fits = in_domain(model, &tried);
    let Assignment {
        slots,
        orders,
        segs,
    } = tried;
    let (orders, order) = exchange(orders, i, before);
    let a = Assignment {
        slots,
        orders,
        segs,
    };
    (a, order, fits)
}

/// Whether the segments of a state function are segments of it, in order, each with its distance
/// from those before it: whether the assignment stays in the domain with them.
pub fn try_segments(
    model: &Model,
    a: Assignment,
    i: usize,
    segments: List<Segment>,
) -> (Assignment, List<Segment>, bool)
    requires domain { is_in_domain model.now a ≡ true }
    requires within { i < length model.now.states }
    ensures { Tested (are_segments model.now) (state_at model.now i) a segments result.0 result.1 result.2 }
{
    let Assignment {
        slots,
        orders,
        segs,
    } = a;
    let (segs, before) = exchange(segs, i, segments);
    let tried = Assignment {
        slots,
        orders,
        segs,
    };
    let fits = in_domain(model, &tried);
    let Assignment {
        slots,
        orders,
        segs,
    } = tried;
    let (segs, segments) = exchange(segs, i, before);
    let a = Assignment {
        slots,
        orders,
        segs,
    };
    (a, segments, fits)
}
