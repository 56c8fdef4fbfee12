use kernel::Line;
use region::Refuter;
use sched_base::NoMemory;

/// Who is shown the lines of a log, each before it steps.
pub trait Watcher<X: Refuter> {
    ghost use Rattle.std.specs.Prelude.{◌≡◌, OnOk};
    ghost use Rattle.kernel.specs.declared.types.Line.{Line};

    /// What it is after a line.
    ghost noted: { Self → Line X.Witness → Self };

    /// Is shown a line.
    fn note(&mut self, line: &Line<X::Witness>) -> Result<(), NoMemory>
        ensures { OnOk result (self.new ≡ noted self.old line.now) };
}

/// Nobody watches.
#[derive(Clone, Copy, Debug)]
pub struct Unwatched;

impl<X: Refuter> Watcher<X> for Unwatched {
    ghost noted = { λ s l. s };

    fn note(&mut self, _: &Line<X::Witness>) -> Result<(), NoMemory> {
        Ok(())
    }
}
