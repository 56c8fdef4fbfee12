//! A run of a few calls with what it answers.
ghost use Rattle.std.specs.Prelude.{◌≡◌, IsTrue, OnOk};
ghost use Rattle.region.specs.Guesses.{splits};

use region::{Guess, Region};
use sched_base::NoMemory;

/// A guess that was assumed is forgotten with the save before it.
pub fn a_guess_is_taken_back(region: &mut Region, g: Guess) -> Result<(), NoMemory>
    requires { IsTrue (splits region.old.region g) }
    ensures { OnOk result (region.new.region ≡ region.old.region) }
{
    region.save()?;
    let assumed = region.assume(g);
    region.undo();
    let _ = assumed?;
    Ok(())
}
