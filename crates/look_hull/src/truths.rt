ghost use Rattle.std.specs.Prelude.{◌≡◌, ◌&&◌, ◌||◌, pos};
ghost use Rattle.look_hull.specs.LookHull.{truth_range, surely_true, surely_false, all_below, all_at_most, compare_range, not_range, implies_range};

use sched_model::CompareOp;

/// The range of a truth value that is surely true, surely false, or open.
pub fn truth_range(always: bool, never: bool) -> (i64, i64)
    ensures { result ≡ truth_range always never }
{
    if always {
        return (1, 1);
    }
    if never {
        return (0, 0);
    }
    (0, 1)
}

/// Whether no number of the range is 0.
pub fn surely_true(r: (i64, i64)) -> bool
    ensures { result ≡ surely_true r }
{
    0 < r.0 || r.1 < 0
}

/// Whether 0 is the one number of the range.
pub fn surely_false(r: (i64, i64)) -> bool
    ensures { result ≡ surely_false r }
{
    r.0 == 0 && r.1 == 0
}

/// Whether each number of the one range is below each of the other.
fn below(r: (i64, i64), s: (i64, i64)) -> bool
    ensures { result ≡ all_below r s }
{
    r.1 < s.0
}

/// Whether each number of the one range is at most each of the other.
fn at_most(r: (i64, i64), s: (i64, i64)) -> bool
    ensures { result ≡ all_at_most r s }
{
    r.1 <= s.0
}

/// Whether both ranges are one and the same number.
fn one_number(r: (i64, i64), s: (i64, i64)) -> bool
    ensures { result ≡ (all_at_most r s && all_at_most s r) }
{
    at_most(r, s) && at_most(s, r)
}

/// Whether the ranges have no number in common.
fn apart(r: (i64, i64), s: (i64, i64)) -> bool
    ensures { result ≡ (all_below r s || all_below s r) }
{
    below(r, s) || below(s, r)
}

/// The range of the truth value of a comparison.
pub fn compare_range(op: CompareOp, r: (i64, i64), s: (i64, i64)) -> (i64, i64)
    ensures { result ≡ compare_range op r s }
{
    match op {
        CompareOp::Eq => truth_range(one_number(r, s), apart(r, s)),
        CompareOp::Ne => truth_range(apart(r, s), one_number(r, s)),
        CompareOp::Le => truth_range(at_most(r, s), below(s, r)),
        CompareOp::Ge => truth_range(at_most(s, r), below(r, s)),
        CompareOp::Lt => truth_range(below(r, s), at_most(s, r)),
        CompareOp::Gt => truth_range(below(s, r), at_most(r, s)),
    }
}

/// The range of the truth value of a negation.
pub fn not_range(r: (i64, i64)) -> (i64, i64)
    ensures { result ≡ not_range r }
{
    truth_range(surely_false(r), surely_true(r))
}

fn denied_or(r: (i64, i64), s: (i64, i64)) -> bool
    ensures { result ≡ (surely_false r || surely_true s) }
{
    surely_false(r) || surely_true(s)
}

fn granted_but(r: (i64, i64), s: (i64, i64)) -> bool
    ensures { result ≡ (surely_true r && surely_false s) }
{
    surely_true(r) && surely_false(s)
}

/// The range of the truth value of an implication.
pub fn implies_range(r: (i64, i64), s: (i64, i64)) -> (i64, i64)
    ensures { result ≡ implies_range r s }
{
    truth_range(denied_or(r, s), granted_but(r, s))
}
