ghost use Rattle.std.specs.Prelude.{◌≡◌, ◌+◌, ◌<◌, ◌^◌};
ghost use Rattle.restart_rules.specs.Restarts.{first_stretch, is_over};

/// How often a search has begun anew, and how far it is since then. A stretch is over after a hundred
/// nodes, and each further one after twice as many as the one before it. That stretches grow by a
/// factor is Walsh's rule (1999).
#[derive(Debug, Drop)]
pub struct Stretches {
    restarts: u32,
    closed: u64,
    /// How long this stretch is; 2^64 - 1 where that is longer.
    length: u64,
}

impl std::marker::Model for Stretches {
    ghost use Rattle.std.specs.Prelude.{◌≡◌, ◌*◌, ◌^◌, ◌-◌, min};
    ghost use Rattle.restart_rules.specs.Restarts.{Stretch};

    ghost Value = { Stretch };

    ghost view = { λ s. record { restarts = s.restarts; closed = s.closed } };

    ghost invariant = { λ s. s.length ≡ min (100 * 2 ^ s.restarts) (2 ^ 64 - 1) };
}

/// The nodes of the first stretch.
const FIRST: u64 = 100;

impl Stretches {
    /// Before the first node.
    pub fn new() -> Stretches
        ensures { result ≡ first_stretch }
    {
        Stretches {
            restarts: 0,
            closed: 0,
            length: FIRST,
        }
    }

    /// Whether this stretch has its whole length, and another may begin, of so many restarts.
    pub fn is_over(&self, most: u32) -> bool
        requires { self.now.closed < 2 ^ 63 }
        ensures { result ≡ is_over most self.now }
    {
        self.restarts < most && self.closed == self.length
    }

    /// A node was closed.
    pub fn close(&mut self)
        requires { self.old.closed < 2 ^ 63 }
        ensures { self.new ≡ record self.old { closed = self.old.closed + 1 } }
    {
        self.closed += 1;
    }

    /// The search begins anew.
    pub fn begin(&mut self)
        requires { self.old.restarts + 1 < 2 ^ 32 }
        ensures { self.new ≡ record { restarts = self.old.restarts + 1; closed = 0 } }
    {
        self.restarts += 1;
        self.closed = 0;
        self.length = self.length.saturating_mul(2);
    }
}
