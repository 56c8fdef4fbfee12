//! The two sides of a bound.
ghost use Rattle.std.specs.Prelude.{◌≡◌};
ghost use Rattle.refute_cumul.specs.laws.Loads.{side};

/// The case of POINT on a side.
pub fn side(below: bool) -> u32
    ensures { result ≡ side below }
{
    if below { 1 } else { 0 }
}
