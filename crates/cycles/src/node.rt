//! The walks that a search has found.
ghost use Rattle.std.specs.Prelude.{◌≡◌, ◌^◌, ◌+ℤ◌, ◌≤ℤ◌, pos, neg_ℤ};

/// A walk from a point: by an arc, and on by the walk of an earlier node. The first nodes are those
/// of the points themselves, whose walks have no arc. The value is the weight of the walk and the
/// first height of the point at which it ends.
#[derive(Clone, Copy, Debug, PartialEq, Eq)]
pub struct Node {
    pub point: usize,
    pub value: i128,
    pub via: usize,
    pub next: usize,
    pub len: usize,
}

/// The weight with what follows, whose magnitude is at most 2^126.
pub fn weigh(weight: i64, value: i128) -> i128
    requires lower { neg_ℤ (pos (2 ^ 126)) ≤ℤ value }
    requires upper { value ≤ℤ pos (2 ^ 126) }
    ensures { result ≡ weight +ℤ value }
{
    i128::from(weight) + value
}

/// The node of a point with no arc.
pub fn root(point: usize, value: i64) -> Node
    ensures point { result.point ≡ point }
    ensures len { result.len ≡ 0 }
    ensures lower { neg_ℤ (pos (2 ^ 63)) ≤ℤ result.value }
    ensures upper { result.value ≤ℤ pos (2 ^ 63) }
{
    Node {
        point,
        value: i128::from(value),
        via: 0,
        next: 0,
        len: 0,
    }
}
