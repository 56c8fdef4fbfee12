ghost use Rattle.std.specs.Prelude.{◌≡◌, ◌↔◌, ◌∷◌, pos, length, IsTrue, IfOk, IfSome, IfNone};
ghost use Rattle.refute_energy.specs.Witness.{numbers_of, is_valid};
ghost use Rattle.refute_energy.specs.declared.witness.EnergyWitness.{EnergyWitness};

use crate::numbers::{is_count, is_number, is_number_set, read_members, set_number, small};
use crate::witness::EnergyWitness;
use region::Numbers;
use sched_base::{Con, NoMemory};
use std::alloc::Global;

impl Numbers for EnergyWitness {
    ghost use Rattle.refute_energy.specs.Witness.{numbers_of, is_valid};
    ghost use Rattle.refute_energy.specs.laws.Spelling.{few_numbers, small_numbers, told_apart};

    ghost numbers = { numbers_of };

    ghost is_valid = { is_valid };

    fn valid(&self) -> bool {
        is_number(self.c.0)
            && is_number_set(self.parts.as_slice())
            && !self.parts.is_empty()
            && is_count(2 + self.parts.as_slice().len())
    }

    fn count(&self) -> usize {
        2 + self.parts.as_slice().len()
    }

    fn number(&self, n: usize) -> i64 {
        match n {
            0 => i64::from(self.c.0),
            _ => set_number(self.parts.as_slice(), n - 1),
        }
    }

    fn from_numbers(alloc: Global, list: &[i64]) -> Result<Option<EnergyWitness>, NoMemory> {
        read(alloc, list)
    }

    ghost few = { few_numbers };

    ghost small = { small_numbers };

    ghost told_apart = { told_apart };
}

fn is_size(size: i64, members: &[i64]) -> bool
    ensures { IsTrue result ↔ (size ≡ pos (length members.now)) }
{
    size == members.len() as i64
}

/// The valid witness of a constraint, the size of its set and the members.
#[tactic(auto, using(crate::proofs::Reading::other_size, crate::proofs::Reading::made, crate::proofs::Reading::none_valid))]
fn with_members(
    alloc: Global,
    c: i64,
    size: i64,
    members: &[i64],
) -> Result<Option<EnergyWitness>, NoMemory>
    ensures some { IfOk result (λ o. IfSome o (λ w. (numbers_of w ≡ c ∷ size ∷ members.now) × IsTrue (is_valid w))) }
    ensures none { IfOk result (λ o. IfNone o ((w : EnergyWitness) → IsTrue (is_valid w) → numbers_of w ≡ c ∷ size ∷ members.now → ⊥)) }
{
    if !is_size(size, members) {
        return Ok(None);
    }
    let Some(c) = small(c) else {
        return Ok(None);
    };
    let Some(parts) = read_members(alloc, members)? else {
        return Ok(None);
    };
    let w = EnergyWitness { c: Con(c), parts };
    if !w.valid() {
        return Ok(None);
    }
    Ok(Some(w))
}

/// The valid witness with these numbers.
fn read(alloc: Global, list: &[i64]) -> Result<Option<EnergyWitness>, NoMemory>
    ensures some { IfOk result (λ o. IfSome o (λ w. (numbers_of w ≡ list.now) × IsTrue (is_valid w))) }
    ensures none { IfOk result (λ o. IfNone o ((w : EnergyWitness) → IsTrue (is_valid w) → numbers_of w ≡ list.now → ⊥)) }
{
    match list {
        [c, size, members @ ..] => with_members(alloc, *c, *size, members),
        _ => Ok(None),
    }
}
