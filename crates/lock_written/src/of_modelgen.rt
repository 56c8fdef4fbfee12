//! Generated texts.
ghost use Rattle.std.specs.Prelude.{◌≡◌, ◌↔◌, false, IfOk, Err};
ghost use Rattle.modelgen.specs.Generated.{are_within, generated_text};

use modelgen::GenFault;
use std::alloc::Global;

pub fn is_within(jobs: u32, machines: u32) -> bool
    ensures { result ≡ are_within jobs machines }
{
    modelgen::is_within(jobs, machines)
}

pub fn generate(alloc: Global, seed: u64, jobs: u32, machines: u32) -> Result<Vec<u8>, GenFault>
    ensures text { IfOk result (λ v. v.items ≡ generated_text seed jobs machines) }
    ensures limit { (result ≡ Err GenFault.Limit) ↔ (are_within jobs machines ≡ false) }
{
    modelgen::generate(alloc, seed, jobs, machines)
}
