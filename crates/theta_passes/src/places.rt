//! Sets of places below 64, a bit for each.
ghost use Rattle.std.specs.Prelude.{◌≡◌, ℕ, ◌<◌, true, false, not, ◌||◌, ◌&&◌, nat_eq};
ghost use Rattle.theta_passes.specs.code.Places.{has_place};

/// How many places a set has room for.
pub const ROOM: usize = 64;

/// The set with one more place, if it is to be in it: who is follows no pattern, so it takes no branch.
pub fn with(set: u64, k: usize, is_in: bool) -> u64
    requires { k < 64 }
    ensures { (j : ℕ) → has_place result j ≡ ((is_in && nat_eq j k) || has_place set j) }
{
    set | (u64::from(is_in) << k)
}

/// The first place of a set.
pub fn first_of(set: u64) -> u32
    requires { 0 < set }
    ensures room { result < 64 }
    ensures there { has_place set result ≡ true }
{
    set.trailing_zeros()
}

/// The set without one of its places.
pub fn without(set: u64, k: u32) -> u64
    requires room { k < 64 }
    requires there { has_place set k ≡ true }
    ensures less { result < set }
    ensures rest { (j : ℕ) → has_place result j ≡ (not (nat_eq j k) && has_place set j) }
{
    set & !(1 << k)
}
