ghost use Rattle.std.specs.Prelude.{◌≡◌, ◌+ℤ◌, int_le, ◌+◌, ◌-◌, ◌*◌, ◌^◌, min, pos, slice_index_or};
ghost use Rattle.std.specs.List.{position_or_len};
ghost use Rattle.std.specs.Option.{option_copied};
ghost use Rattle.sched_model.specs.Data.{distance, matrix_of, members_of, same, type_of, types_of};

use crate::model::Model;
use crate::slots::same;
use crate::types::MatrixDef;
use sched_base::{Itv, Mat, Seq, at};

pub fn matrix_of(model: &Model, matrix: Option<Mat>) -> Option<&MatrixDef>
    ensures { option_copied result ≡ matrix_of model.now matrix }
{
    match matrix {
        None => None,
        Some(k) => at(model.matrices(), k.0 as usize),
    }
}

/// The place of a cell, row after row, or a place behind all cells.
fn place(size: u32, i: u64, j: u64) -> u64
    ensures { result ≡ min (min (size * i) (2 ^ 64 - 1) + j) (2 ^ 64 - 1) }
{
    u64::from(size).saturating_mul(i).saturating_add(j)
}

#[tactic(auto, using(crate::proofs::walks::Cells::cell_by_place))]
fn cell(matrix: &MatrixDef, i: u64, j: u64) -> i64
    ensures { result ≡ slice_index_or matrix.now.cells (matrix.now.size * i + j) (pos 0) }
{
    let cells = matrix.cells.as_slice();
    cells
        .get(place(matrix.size, i, j) as usize)
        .copied()
        .unwrap_or(0)
}

/// The distance from row `i` to column `j`, and 0 without a matrix.
pub fn distance(model: &Model, matrix: Option<Mat>, i: u64, j: u64) -> i64
    ensures { result ≡ distance model.now matrix i j }
{
    match matrix_of(model, matrix) {
        None => 0,
        Some(d) => cell(d, i, j),
    }
}

/// Whether a distance fits between two moments.
pub fn fits_between(first: i64, d: i64, second: i64) -> bool
    ensures { result ≡ int_le (first +ℤ d) second }
{
    i128::from(first) + i128::from(d) <= i128::from(second)
}

fn members_of(model: &Model, p: Seq) -> &[Itv]
    ensures { result.now ≡ members_of model.now p }
{
    match model.sequences().get(p.0 as usize) {
        None => &[],
        Some(d) => d.members.as_slice(),
    }
}

fn types_of(model: &Model, p: Seq) -> &[u32]
    ensures { result.now ≡ types_of model.now p }
{
    match model.sequences().get(p.0 as usize) {
        None => &[],
        Some(d) => match &d.types {
            None => &[],
            Some(types) => types.as_slice(),
        },
    }
}

fn place_of(members: &[Itv], x: Itv) -> usize
    ensures { result ≡ position_or_len (same x) members.now }
{
    for i in 0..members.len() {
        if same(x, members[i]) {
            return i;
        }
    }
    members.len()
}

/// The type of a member of a sequence, by a scan of its members.
pub fn type_of(model: &Model, p: Seq, x: Itv) -> u32
    ensures { result ≡ type_of model.now p x }
{
    let place = place_of(members_of(model, p), x);
    types_of(model, p).get(place).copied().unwrap_or(0)
}
