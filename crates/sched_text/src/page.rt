ghost use Rattle.std.specs.Prelude.{◌≡◌, ◌++◌, [], false};
ghost use Rattle.sched_base.specs.State.{State};
ghost use Rattle.sched_base.specs.Calls.{Writes};
ghost use Rattle.textline.specs.Lines.{Bytes};
ghost use Rattle.sched_text.specs.code.Printing.{IsPrinted, Prints};

use gatherer::Gatherer;
use sched_base::{Desk, Failed, Port};

/// Gathers a text for standard output. It takes no memory. A failure of a write stays, and nothing is
/// written after it.
#[derive(Drop)]
pub struct Page {
    pub waiting: Gatherer,
    pub failed: bool,
}

/// A page on which nothing stands.
pub fn new_page() -> Page
    ensures waiting { result.waiting ≡ [] }
    ensures failed { result.failed ≡ false }
{
    Page {
        waiting: Gatherer::new(),
        failed: false,
    }
}

/// Puts some text behind what waits.
pub fn put_text<D: Desk>(page: &mut Page, desk: &mut D, text: &[u8])
    ensures { Prints text.now page.old page.new (D.state desk.old) (D.state desk.new) }
{
    if page.failed {
        return;
    }
    match page.waiting.put(Port::Out, text, desk) {
        Ok(()) => {}
        Err(_) => page.failed = true,
    }
}

/// Writes what still waits, and answers whether all was written.
pub fn finish<D: Desk>(mut page: Page, desk: &mut D) -> Result<(), Failed>
    ensures { (start : State) (whole : Bytes) → IsPrinted start whole [] page (D.state desk.old) → Writes Port.Out whole result start (D.state desk.new) }
{
    if page.failed {
        return Err(Failed);
    }
    page.waiting.flush(Port::Out, desk)
}
