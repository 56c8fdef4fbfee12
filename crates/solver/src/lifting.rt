ghost use Rattle.std.specs.Prelude.{◌≡◌};
ghost use Rattle.logtext.specs.Lifted.{lifted_witness, no_witness};

use kernel::{NoWitness, Witness};
use logtext::LogWitness;
use prop_energy::EnergyWitness;
use sched_base::{Con, List};
use std::alloc::Global;

/// A witness that is never valid, in the place of none.
fn no_witness(alloc: Global) -> LogWitness
    ensures { result ≡ no_witness }
{
    EnergyWitness {
        c: Con(0),
        parts: List::new(alloc),
    }
}

/// A witness of the engine as one of the log.
pub fn lifted(alloc: Global, w: Witness<NoWitness>) -> Witness<LogWitness>
    ensures { result ≡ lifted_witness w }
{
    match w {
        Witness::Basic(w) => Witness::Basic(w),
        Witness::Hier(w) => Witness::Hier(w),
        Witness::Seq(w) => Witness::Seq(w),
        Witness::Cumul(w) => Witness::Cumul(w),
        Witness::State(w) => Witness::State(w),
        Witness::Extra(_) => Witness::Extra(no_witness(alloc)),
    }
}
