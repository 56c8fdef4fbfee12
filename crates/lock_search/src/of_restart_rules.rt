//! When a search begins anew.
ghost use Rattle.std.specs.Prelude.{◌≡◌, ◌+◌, ◌<◌, ◌^◌};
ghost use Rattle.restart_rules.specs.Restarts.{first_stretch, is_over};

use restart_rules::Stretches;

pub fn new() -> Stretches
    ensures { result ≡ first_stretch }
{
    Stretches::new()
}

pub fn is_over(stretches: &Stretches, most: u32) -> bool
    requires { stretches.now.closed < 2 ^ 63 }
    ensures { result ≡ is_over most stretches.now }
{
    stretches.is_over(most)
}

pub fn close(stretches: &mut Stretches)
    requires { stretches.old.closed < 2 ^ 63 }
    ensures { stretches.new ≡ record stretches.old { closed = stretches.old.closed + 1 } }
{
    stretches.close();
}

pub fn begin(stretches: &mut Stretches)
    requires { stretches.old.restarts + 1 < 2 ^ 32 }
    ensures { stretches.new ≡ record { restarts = stretches.old.restarts + 1; closed = 0 } }
{
    stretches.begin();
}
