//! The page that shows a schedule.
ghost use Rattle.std.specs.Prelude.{IfOk};
ghost use Rattle.svg_page.specs.Page.{IsPage};

use sched_base::NoMemory;
use sched_model::{Assignment, Model};
use std::alloc::Global;

pub fn svg_page(alloc: Global, model: &Model, a: &Assignment) -> Result<Vec<u8>, NoMemory>
    ensures { IfOk result (λ v. IsPage model.now a.now v.items) }
{
    svg_page::svg_page(alloc, model, a)
}
