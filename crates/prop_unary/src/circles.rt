//! What TRIPLE of a sequence finds.
ghost use Rattle.std.specs.Prelude.{◌≡◌, ℕ, ◌+◌, ◌<◌, ◌≤◌, ◌&&◌, true, length, Some, IfNone, IfSome};
ghost use Rattle.sched_model.specs.Data.{members_of};
ghost use Rattle.region.specs.declared.types.OrderCell.TheVariants as order;
ghost use Rattle.region.specs.Orders.{order_in};
ghost use Rattle.region.specs.Cells.{cells_of, is_there};
ghost use Rattle.region.specs.Guesses.{admits};
ghost use Rattle.region.specs.Looks.{IsRegionOf, seen_at};
ghost use Rattle.findings.specs.Found.{IsFinding};
ghost use Rattle.refute_seq.specs.declared.witness.SeqWitness.TheVariants as witness;
ghost use Rattle.refute_seq.specs.Standing.{precedes};
ghost use Rattle.refute_seq.specs.OnSequence.{refutes};
ghost use Rattle.prop_unary.specs.code.Tasks.{IsSilent, quiet};
ghost use Rattle.prop_unary.specs.code.Rows.{has_place, member_at, AreRows, AreEmpty, AreRead, IsOrderNoted};
ghost use Rattle.prop_unary.specs.code.Circles.{EachOf, IsMet, SilentBehind, SilentAround, SilentAt};

use crate::places::Places;
use findings::Finding;
use refute_seq::{OnSequence, SeqWitness, is_away, is_there, precedes};
use region::{Guess, Look, OrderCell, Refuter, Region};
use sched_base::{Itv, Seq};
use sched_model::Model;

/// Whether the guess is open, and the witness refutes the region under it.
fn refutes_open(model: &Model, region: &Region, best: Option<i64>, w: &SeqWitness, g: Guess) -> bool
    requires { IsRegionOf model.now region.now.region }
    ensures { result ≡ (admits region.now.region g && refutes model.now (seen_at region.now.region best (Some g)) w.now) }
{
    region.admits(g) && OnSequence::refutes(model, &region.look(Some(g), best), w)
}

/// The same where the third may stand before the first: only under the guess that it does can the
/// three stand in a circle.
fn ask_open(
    model: &Model,
    region: &Region,
    best: Option<i64>,
    p: Seq,
    x: Itv,
    y: Itv,
    z: Itv,
) -> Option<Finding<SeqWitness>>
    requires of { IsRegionOf model.now region.now.region }
    requires order { order_in (cells_of region.now.region p) z x ≡ order.Unknown }
    ensures none { IfNone result (IsSilent model.now region.now.region best (witness.Triple p.0 x.0 y.0 z.0)) }
    ensures some { IfSome result (IsFinding refutes model.now region.now.region best) }
    ensures busy { IfSome result (λ f. IsSilent model.now region.now.region best (witness.Triple p.0 x.0 y.0 z.0) → ⊥) }
{
    let witness = SeqWitness::Triple {
        p: p.0,
        x: x.0,
        y: y.0,
        z: z.0,
    };
    let guess = Guess::Before(p, z, x);
    if refutes_open(model, region, best, &witness, guess) {
        return Some(Finding {
            guess: Some(guess),
            witness,
        });
    }
    None
}

/// The same where the third is told to stand before the first: at most the presence of one of the two
/// is open.
fn ask_told(
    model: &Model,
    region: &Region,
    best: Option<i64>,
    p: Seq,
    x: Itv,
    y: Itv,
    z: Itv,
) -> Option<Finding<SeqWitness>>
    requires of { IsRegionOf model.now region.now.region }
    requires met { IsMet region.now.region p x y z }
    requires order { order_in (cells_of region.now.region p) z x ≡ order.Forward }
    ensures none { IfNone result (IsSilent model.now region.now.region best (witness.Triple p.0 x.0 y.0 z.0)) }
    ensures some { IfSome result (IsFinding refutes model.now region.now.region best) }
    ensures busy { IfSome result (λ f. IsSilent model.now region.now.region best (witness.Triple p.0 x.0 y.0 z.0) → ⊥) }
{
    let witness = SeqWitness::Triple {
        p: p.0,
        x: x.0,
        y: y.0,
        z: z.0,
    };
    if OnSequence::refutes(model, &region.look(None, best), &witness) {
        return Some(Finding {
            guess: None,
            witness,
        });
    }
    if refutes_open(model, region, best, &witness, Guess::Present(x)) {
        return Some(Finding {
            guess: Some(Guess::Present(x)),
            witness,
        });
    }
    if refutes_open(model, region, best, &witness, Guess::Present(z)) {
        return Some(Finding {
            guess: Some(Guess::Present(z)),
            witness,
        });
    }
    None
}

/// What TRIPLE of three members finds, where the first is told to stand before the second, who is
/// present, and the second before the third. In constant time.
fn ask_circle(
    model: &Model,
    region: &Region,
    best: Option<i64>,
    p: Seq,
    x: Itv,
    y: Itv,
    z: Itv,
) -> Option<Finding<SeqWitness>>
    requires of { IsRegionOf model.now region.now.region }
    requires met { IsMet region.now.region p x y z }
    ensures none { IfNone result (IsSilent model.now region.now.region best (witness.Triple p.0 x.0 y.0 z.0)) }
    ensures some { IfSome result (IsFinding refutes model.now region.now.region best) }
    ensures busy { IfSome result (λ f. IsSilent model.now region.now.region best (witness.Triple p.0 x.0 y.0 z.0) → ⊥) }
{
    match region.look(None, None).order(p, z, x) {
        OrderCell::Backward => None,
        OrderCell::Unknown => ask_open(model, region, best, p, x, y, z),
        OrderCell::Forward => ask_told(model, region, best, p, x, y, z),
    }
}

/// What is found of two, of which the first is told to stand before the second, and those that the
/// second stands before.
fn ask_behind(
    model: &Model,
    region: &Region,
    best: Option<i64>,
    p: Seq,
    x: Itv,
    y: Itv,
    members: &[Itv],
) -> Option<Finding<SeqWitness>>
    requires of { IsRegionOf model.now region.now.region }
    requires within { p.0 < length model.now.sequences }
    requires middle { is_there region.now.region y ≡ true }
    requires first { precedes region.now.region p x y ≡ true }
    ensures none { IfNone result (EachOf (SilentBehind model.now region.now.region best p x y) members.now) }
    ensures some { IfSome result (IsFinding refutes model.now region.now.region best) }
    ensures busy { IfSome result (λ f. quiet model.now (length model.now.constraints + p.0) region.now.region best → ⊥) }
{
    let look = region.look(None, None);
    for z in members {
        if !precedes(&look, p, y, *z) {
            continue;
        }
        if let Some(found) = ask_circle(model, region, best, p, x, y, *z) {
            return Some(found);
        }
    }
    None
}

/// Puts an empty row at each place below one.
fn clear_rows(n: usize, rows: &mut [Places])
    requires { n ≤ length rows.old }
    ensures same { length rows.new ≡ length rows.old }
    ensures cleared { AreEmpty rows.new n }
{
    for i in 0..n {
        rows[i] = Places::none();
    }
}

/// Puts the order of the members at two places into their rows. Which it is follows no pattern, so it
/// takes no branch.
fn note_order(order: OrderCell, i: usize, k: usize, rows: &mut [Places])
    requires first { i < length rows.old }
    requires second { k < length rows.old }
    requires first_few { i < 512 }
    requires second_few { k < 512 }
    ensures same { length rows.new ≡ length rows.old }
    ensures noted { IsOrderNoted order i k rows.old rows.new }
{
    rows[i].put(k, order == OrderCell::Forward);
    rows[k].put(i, order == OrderCell::Backward);
}

/// Puts the orders of a member and those at later places into their rows. One who is absent stands in
/// none.
fn note_row(look: &Look<'_>, p: Seq, members: &[Itv], i: usize, rows: &mut [Places])
    requires few { length members.now ≤ 500 }
    requires room { length members.now ≤ length rows.old }
    requires here { i < length members.now }
    requires before { AreRead look.now.region p members.now rows.old i 0 }
    ensures same { length rows.new ≡ length rows.old }
    ensures noted { AreRead look.now.region p members.now rows.new (i + 1) 0 }
{
    if is_away(look, members[i]) {
        return;
    }
    for k in i + 1..members.len() {
        if is_away(look, members[k]) {
            continue;
        }
        note_order(look.order(p, members[i], members[k]), i, k, rows);
    }
}

/// Puts the row of each member at its place: the places of the members that it may stand before. The
/// order of two is read once for both.
fn note_rows(look: &Look<'_>, p: Seq, members: &[Itv], rows: &mut [Places])
    requires few { length members.now ≤ 500 }
    requires room { length members.now ≤ length rows.old }
    ensures same { length rows.new ≡ length rows.old }
    ensures noted { AreRows look.now.region p members.now members.now rows.new }
{
    clear_rows(members.len(), rows);
    for i in 0..members.len() {
        note_row(look, p, members, i, rows);
    }
}

/// Whether each that the second may stand before is one that the first may, where it may stand before
/// the second.
fn is_clear(first: &Places, at: usize, second: &Places) -> bool
    requires { at < 512 }
    ensures { result ≡ true → has_place first.now at ≡ true → (k : ℕ) → has_place second.now k ≡ true → has_place first.now k ≡ true }
{
    !first.contains(at) || second.is_within(first)
}

/// What is found of a member that is present, between those that it stands behind and those that it
/// stands before. Mostly the rows of two show at once that nothing is.
fn ask_around(
    model: &Model,
    region: &Region,
    best: Option<i64>,
    p: Seq,
    at: usize,
    members: &[Itv],
    rows: &[Places],
) -> Option<Finding<SeqWitness>>
    requires of { IsRegionOf model.now region.now.region }
    requires within { p.0 < length model.now.sequences }
    requires here { at < length members.now }
    requires middle { is_there region.now.region (member_at members.now at) ≡ true }
    requires few { length members.now ≤ 500 }
    requires room { length members.now ≤ length rows.now }
    requires rows { AreRows region.now.region p members.now members.now rows.now }
    ensures none { IfNone result (EachOf (SilentAround model.now region.now.region best p members.now (member_at members.now at)) members.now) }
    ensures some { IfSome result (IsFinding refutes model.now region.now.region best) }
    ensures busy { IfSome result (λ f. quiet model.now (length model.now.constraints + p.0) region.now.region best → ⊥) }
{
    let look = region.look(None, None);
    for k in 0..members.len() {
        if is_clear(&rows[k], at, &rows[at]) {
            continue;
        }
        if !precedes(&look, p, members[k], members[at]) {
            continue;
        }
        if let Some(found) = ask_behind(model, region, best, p, members[k], members[at], members) {
            return Some(found);
        }
    }
    None
}

/// What TRIPLE finds of a sequence, whose members these are. It reads the order of each two members
/// once, and compares the rows of two of which one is told to stand before the other; members are
/// looked at three at a time where their rows leave something to find.
#[inline(never)]
pub fn ask_circles(
    model: &Model,
    region: &Region,
    best: Option<i64>,
    p: Seq,
    members: &[Itv],
    rows: &mut [Places],
) -> Option<Finding<SeqWitness>>
    requires of { IsRegionOf model.now region.now.region }
    requires within { p.0 < length model.now.sequences }
    requires members { members.now ≡ members_of model.now p }
    requires few { length members.now ≤ 500 }
    requires room { length members.now ≤ length rows.old }
    ensures same { length rows.new ≡ length rows.old }
    ensures none { IfNone result (quiet model.now (length model.now.constraints + p.0) region.now.region best) }
    ensures some { IfSome result (IsFinding refutes model.now region.now.region best) }
    ensures busy { IfSome result (λ f. quiet model.now (length model.now.constraints + p.0) region.now.region best → ⊥) }
{
    let look = region.look(None, None);
    note_rows(&look, p, members, rows);
    ask_noted(model, region, best, p, members, rows)
}

/// The same where the rows are noted.
fn ask_noted(
    model: &Model,
    region: &Region,
    best: Option<i64>,
    p: Seq,
    members: &[Itv],
    rows: &[Places],
) -> Option<Finding<SeqWitness>>
    requires of { IsRegionOf model.now region.now.region }
    requires within { p.0 < length model.now.sequences }
    requires members { members.now ≡ members_of model.now p }
    requires few { length members.now ≤ 500 }
    requires room { length members.now ≤ length rows.now }
    requires rows { AreRows region.now.region p members.now members.now rows.now }
    ensures none { IfNone result (quiet model.now (length model.now.constraints + p.0) region.now.region best) }
    ensures some { IfSome result (IsFinding refutes model.now region.now.region best) }
    ensures busy { IfSome result (λ f. quiet model.now (length model.now.constraints + p.0) region.now.region best → ⊥) }
{
    let look = region.look(None, None);
    for at in 0..members.len() {
        if !is_there(&look, members[at]) {
            continue;
        }
        if let Some(found) = ask_around(model, region, best, p, at, members, rows) {
            return Some(found);
        }
    }
    None
}
