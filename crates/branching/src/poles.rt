//! Which way the objective wants each interval to move.
use sched_base::{Itv, NoMemory};
use sched_model::{CompareOp, Expr, Model, Sense};
use std::alloc::Global;

/// Where an objective wants an interval.
#[derive(Clone, Copy, Debug, PartialEq, Eq)]
pub enum Pole {
    /// As early as it may be, or it doesn't matter.
    Sooner,
    /// As late as it may be.
    Later,
    /// Neither: somewhere between.
    Between,
}

/// Whether less of a number is wished, and whether more is.
#[derive(Clone, Copy, Debug, PartialEq, Eq)]
struct Wish {
    less: bool,
    more: bool,
}

const NO_WISH: Wish = Wish {
    less: false,
    more: false,
};

const BOTH: Wish = Wish {
    less: true,
    more: true,
};

fn turned(wish: Wish) -> Wish {
    Wish {
        less: wish.more,
        more: wish.less,
    }
}

fn turned_if(turns: bool, wish: Wish) -> Wish {
    if turns { turned(wish) } else { wish }
}

fn is_negative(e: &Expr) -> bool {
    match e {
        Expr::Lit(n) => *n < 0,
        Expr::Neg(part) => matches!(part.get(), Expr::Lit(n) if *n > 0),
        _ => false,
    }
}

/// Whether a product turns what its factors are wished to be.
fn turns(factors: &[Expr]) -> bool {
    let mut turns = false;
    for factor in factors {
        if is_negative(factor) {
            turns = !turns;
        }
    }
    turns
}

/// What is wished of the two sides of a comparison that is wished so.
fn of_sides(op: CompareOp, wish: Wish) -> (Wish, Wish) {
    match op {
        CompareOp::Le | CompareOp::Lt => (turned(wish), wish),
        CompareOp::Ge | CompareOp::Gt => (wish, turned(wish)),
        CompareOp::Eq | CompareOp::Ne => (BOTH, BOTH),
    }
}

/// Counts what is wished of the points of an interval.
fn add(wishes: &mut [Wish], x: Itv, wish: Wish) {
    let i = x.0 as usize;
    if i < wishes.len() {
        let old = wishes[i];
        wishes[i] = Wish {
            less: old.less || wish.less,
            more: old.more || wish.more,
        };
    }
}

#[cycle(collect)]
fn collect(e: &Expr, wish: Wish, wishes: &mut [Wish]) {
    match e {
        Expr::Lit(_) | Expr::SizeOf(..) | Expr::LengthOf(..) | Expr::PresenceOf(_) => {}
        Expr::StartOf(x, _) | Expr::EndOf(x, _) => add(wishes, *x, wish),
        Expr::Neg(part) | Expr::Not(part) => collect(part.get(), turned(wish), wishes),
        Expr::Sum(parts) => collect_each(parts.as_slice(), wish, wishes),
        Expr::Max(parts) => collect_each(parts.as_slice(), wish, wishes),
        Expr::Min(parts) => collect_each(parts.as_slice(), wish, wishes),
        Expr::And(parts) => collect_each(parts.as_slice(), wish, wishes),
        Expr::Or(parts) => collect_each(parts.as_slice(), wish, wishes),
        Expr::Product(parts) => {
            let factors = parts.as_slice();
            collect_each(factors, turned_if(turns(factors), wish), wishes);
        }
        Expr::Compare(op, a, b) => {
            let (first, second) = of_sides(*op, wish);
            collect(a.get(), first, wishes);
            collect(b.get(), second, wishes);
        }
        Expr::Implies(a, b) => {
            collect(a.get(), turned(wish), wishes);
            collect(b.get(), wish, wishes);
        }
    }
}

#[cycle(collect)]
fn collect_each(parts: &[Expr], wish: Wish, wishes: &mut [Wish]) {
    for part in parts {
        collect(part, wish, wishes);
    }
}

/// What the objective wishes of the points of each interval.
fn wishes_of(alloc: Global, model: &Model) -> Result<Vec<Wish>, NoMemory> {
    let mut wishes = Vec::new(alloc);
    wishes.resize(model.intervals().len(), NO_WISH)?;
    if let Some(objective) = model.objective() {
        let wish = Wish {
            less: objective.sense == Sense::Minimize,
            more: objective.sense == Sense::Maximize,
        };
        collect(&objective.expr, wish, &mut wishes);
    }
    Ok(wishes)
}

fn pole_of(wish: Wish, others: Pole) -> Pole {
    match (wish.less, wish.more) {
        (true, true) => Pole::Between,
        (true, false) => Pole::Sooner,
        (false, true) => Pole::Later,
        (false, false) => others,
    }
}

/// An interval of which nothing is wished goes with the others, where all of them are to be late.
fn pole_of_others(wishes: &[Wish]) -> Pole {
    let mut later = false;
    for wish in wishes {
        if wish.less {
            return Pole::Sooner;
        }
        later = later || wish.more;
    }
    if later { Pole::Later } else { Pole::Sooner }
}

/// Where the objective wants each interval.
pub fn poles_of(alloc: Global, model: &Model) -> Result<Vec<Pole>, NoMemory> {
    let wishes = wishes_of(alloc, model)?;
    let others = pole_of_others(wishes.as_slice());
    let mut poles = Vec::with_capacity(alloc, wishes.len())?;
    for wish in wishes.iter() {
        poles.push(pole_of(*wish, others))?;
    }
    Ok(poles)
}
