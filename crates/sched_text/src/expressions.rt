//! Expressions: as a whole, as an operand, and as a later operand of a sum.
ghost use Rattle.std.specs.Prelude.{◌≡◌, ◌++◌, ◌∷◌, [], codes, map, if◌then◌else◌};
ghost use Rattle.std.specs.Fmt.{signed_decimal};
ghost use Rattle.sched_text.specs.Pieces.{between, call, commas, interval_name, listed};
ghost use Rattle.sched_text.specs.Shown.{as_operand, comparison_sign, operands, shown, summed, terms, wholes};
ghost use Rattle.sched_model.specs.Data.{Data};
ghost use Rattle.sched_text.specs.code.Printing.{Prints};

use crate::page::{Page, put_text};
use crate::pieces::{put_comma, put_interval, put_next_number, put_number, put_open};
use sched_base::{Desk, Itv};
use sched_model::{CompareOp, Expr, Model};

fn sign_of(op: CompareOp) -> &'static [u8]
    ensures { result.now ≡ comparison_sign op }
{
    match op {
        CompareOp::Eq => b"==",
        CompareOp::Ne => b"!=",
        CompareOp::Le => b"<=",
        CompareOp::Ge => b">=",
        CompareOp::Lt => b"<",
        CompareOp::Gt => b">",
    }
}

/// The sign before an operand, where one stands before it.
fn separator<'a>(is_first: bool, sign: &'a [u8]) -> &'a [u8]
    ensures { result.now ≡ (if is_first then [] else sign.now) }
{
    if is_first { b"" } else { sign }
}

/// What is asked of an interval, with the number that stands in for one that is absent.
fn put_measured<D: Desk>(page: &mut Page, desk: &mut D, model: &Model, word: &[u8], x: Itv, d: i64)
    ensures { Prints (call word.now (interval_name model.now x ∷ signed_decimal d ∷ [])) page.old page.new (D.state desk.old) (D.state desk.new) }
{
    put_open(page, desk, word);
    put_interval(page, desk, model, x);
    put_next_number(page, desk, d);
    put_text(page, desk, b")");
}

fn put_presence<D: Desk>(page: &mut Page, desk: &mut D, model: &Model, x: Itv)
    ensures { Prints (call (codes "presenceOf") (interval_name model.now x ∷ [])) page.old page.new (D.state desk.old) (D.state desk.new) }
{
    put_text(page, desk, b"presenceOf(");
    put_interval(page, desk, model, x);
    put_text(page, desk, b")");
}

/// Whether an expression stands in brackets where it is an operand.
fn is_composed(e: &Expr) -> bool
    ensures { (m : Data) → (shown m e.now).operand ≡ as_operand result (shown m e.now).whole }
{
    match e {
        Expr::Lit(_) => false,
        Expr::StartOf(_, _) => false,
        Expr::EndOf(_, _) => false,
        Expr::SizeOf(_, _) => false,
        Expr::LengthOf(_, _) => false,
        Expr::PresenceOf(_) => false,
        Expr::Max(_) => false,
        Expr::Min(_) => false,
        Expr::Neg(_) => true,
        Expr::Sum(_) => true,
        Expr::Product(_) => true,
        Expr::Compare(_, _, _) => true,
        Expr::Not(_) => true,
        Expr::And(_) => true,
        Expr::Or(_) => true,
        Expr::Implies(_, _) => true,
    }
}

/// An expression as a whole statement, an argument or an item of a list.
#[cycle(put_whole)]
pub fn put_whole<D: Desk>(page: &mut Page, desk: &mut D, model: &Model, e: &Expr)
    ensures { Prints ((shown model.now e.now).whole) page.old page.new (D.state desk.old) (D.state desk.new) }
{
    match e {
        Expr::Lit(n) => put_number(page, desk, *n),
        Expr::StartOf(x, d) => put_measured(page, desk, model, b"startOf", *x, *d),
        Expr::EndOf(x, d) => put_measured(page, desk, model, b"endOf", *x, *d),
        Expr::SizeOf(x, d) => put_measured(page, desk, model, b"sizeOf", *x, *d),
        Expr::LengthOf(x, d) => put_measured(page, desk, model, b"lengthOf", *x, *d),
        Expr::PresenceOf(x) => put_presence(page, desk, model, *x),
        Expr::Neg(x) => put_signed(page, desk, model, b"-", x.get()),
        Expr::Sum(xs) => put_sum(page, desk, model, xs.as_slice()),
        Expr::Product(xs) => put_operands(page, desk, model, b"*", xs.as_slice()),
        Expr::Max(xs) => put_gathered(page, desk, model, b"max", xs.as_slice()),
        Expr::Min(xs) => put_gathered(page, desk, model, b"min", xs.as_slice()),
        Expr::Compare(op, x, y) => {
            put_operand(page, desk, model, x.get());
            put_text(page, desk, sign_of(*op));
            put_operand(page, desk, model, y.get());
        }
        Expr::Not(x) => put_signed(page, desk, model, b"!", x.get()),
        Expr::And(xs) => put_operands(page, desk, model, b"&&", xs.as_slice()),
        Expr::Or(xs) => put_operands(page, desk, model, b"||", xs.as_slice()),
        Expr::Implies(x, y) => {
            put_operand(page, desk, model, x.get());
            put_text(page, desk, b"=>");
            put_operand(page, desk, model, y.get());
        }
    }
}

/// An expression as an operand.
#[cycle(put_whole)]
fn put_operand<D: Desk>(page: &mut Page, desk: &mut D, model: &Model, e: &Expr)
    ensures { Prints ((shown model.now e.now).operand) page.old page.new (D.state desk.old) (D.state desk.new) }
{
    if is_composed(e) {
        put_text(page, desk, b"(");
        put_whole(page, desk, model, e);
        put_text(page, desk, b")");
        return;
    }
    put_whole(page, desk, model, e);
}

/// An operand behind a sign of its own.
#[cycle(put_whole)]
fn put_signed<D: Desk>(page: &mut Page, desk: &mut D, model: &Model, sign: &[u8], e: &Expr)
    ensures { Prints (sign.now ++ (shown model.now e.now).operand) page.old page.new (D.state desk.old) (D.state desk.new) }
{
    put_text(page, desk, sign);
    put_operand(page, desk, model, e);
}

/// An operand of a sum behind the first, with its sign.
#[cycle(put_whole)]
fn put_later<D: Desk>(page: &mut Page, desk: &mut D, model: &Model, e: &Expr)
    ensures { Prints ((shown model.now e.now).later) page.old page.new (D.state desk.old) (D.state desk.new) }
{
    match e {
        Expr::Neg(y) => put_signed(page, desk, model, b"-", y.get()),
        _ => put_signed(page, desk, model, b"+", e),
    }
}

/// Operands with a sign between each two.
#[cycle(put_whole)]
fn put_operands<D: Desk>(page: &mut Page, desk: &mut D, model: &Model, sign: &[u8], xs: &[Expr])
    ensures { Prints (between sign.now (operands (map (shown model.now) xs.now))) page.old page.new (D.state desk.old) (D.state desk.new) }
{
    let mut is_first = true;
    for x in xs {
        put_text(page, desk, separator(is_first, sign));
        put_operand(page, desk, model, x);
        is_first = false;
    }
}

/// Items with a comma between each two.
#[cycle(put_whole)]
fn put_items<D: Desk>(page: &mut Page, desk: &mut D, model: &Model, xs: &[Expr])
    ensures { Prints (commas (wholes (map (shown model.now) xs.now))) page.old page.new (D.state desk.old) (D.state desk.new) }
{
    let mut is_first = true;
    for x in xs {
        put_comma(page, desk, is_first);
        put_whole(page, desk, model, x);
        is_first = false;
    }
}

/// What a word makes of a list.
#[cycle(put_whole)]
pub fn put_gathered<D: Desk>(page: &mut Page, desk: &mut D, model: &Model, word: &[u8], xs: &[Expr])
    ensures { Prints (call word.now (listed (wholes (map (shown model.now) xs.now)) ∷ [])) page.old page.new (D.state desk.old) (D.state desk.new) }
{
    put_text(page, desk, word);
    put_text(page, desk, b"([");
    put_items(page, desk, model, xs);
    put_text(page, desk, b"])");
}

/// An operand of a sum: the first as it is, a later one with its sign.
#[cycle(put_whole)]
fn put_term<D: Desk>(page: &mut Page, desk: &mut D, model: &Model, is_first: bool, e: &Expr)
    ensures { Prints (if is_first then (shown model.now e.now).operand else (shown model.now e.now).later) page.old page.new (D.state desk.old) (D.state desk.new) }
{
    if is_first {
        return put_operand(page, desk, model, e);
    }
    put_later(page, desk, model, e);
}

/// The operands of a sum.
#[cycle(put_whole)]
fn put_terms<D: Desk>(page: &mut Page, desk: &mut D, model: &Model, xs: &[Expr])
    ensures { Prints (terms (map (shown model.now) xs.now)) page.old page.new (D.state desk.old) (D.state desk.new) }
{
    let mut is_first = true;
    for x in xs {
        put_term(page, desk, model, is_first, x);
        is_first = false;
    }
}

/// A sum of two or more by its signs, one of fewer by its word.
#[cycle(put_whole)]
fn put_sum<D: Desk>(page: &mut Page, desk: &mut D, model: &Model, xs: &[Expr])
    ensures { Prints ((summed (map (shown model.now) xs.now)).whole) page.old page.new (D.state desk.old) (D.state desk.new) }
{
    if xs.len() < 2 {
        put_gathered(page, desk, model, b"sum", xs);
        return;
    }
    put_terms(page, desk, model, xs);
}
