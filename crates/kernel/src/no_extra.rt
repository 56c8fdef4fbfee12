use region::{Look, Numbers, Refuter};
use sched_base::NoMemory;
use sched_model::Model;
use std::alloc::Global;

/// A witness that is never valid. It has one number, so that each of its calls can be made.
#[derive(Clone, Copy, Debug, PartialEq, Eq)]
pub struct NoWitness;

impl Numbers for NoWitness {
    ghost use Rattle.kernel.specs.NoExtra.{numbers_of, is_valid};
    ghost use Rattle.kernel.specs.laws.NoExtra.{few_lem, small_lem, told_apart_lem};

    ghost numbers = { numbers_of };

    ghost is_valid = { is_valid };

    fn valid(&self) -> bool {
        false
    }

    fn count(&self) -> usize {
        1
    }

    fn number(&self, _: usize) -> i64 {
        0
    }

    fn from_numbers(_: Global, _: &[i64]) -> Result<Option<NoWitness>, NoMemory> {
        Ok(None)
    }

    ghost few = { few_lem };

    ghost small = { small_lem };

    ghost told_apart = { told_apart_lem };
}

/// The refuter that refutes nothing, for logs without extra witnesses.
#[derive(Clone, Copy, Debug)]
pub struct NoExtra;

impl Refuter for NoExtra {
    ghost use Rattle.kernel.specs.NoExtra.{refutes_none, names_none};
    ghost use Rattle.kernel.specs.laws.NoExtra.{valid_lem, sound_lem};

    type Witness = NoWitness;

    ghost refuting = { refutes_none };

    ghost named = { names_none };

    fn refutes(_: &Model, _: &Look<'_>, _: &NoWitness) -> bool {
        false
    }

    ghost valid = { valid_lem };

    ghost sound = { sound_lem };
}
