ghost use Rattle.std.specs.Prelude.{◌≡◌, IfOk};
ghost use Rattle.cpo_elab.specs.Elaborated.{plain_interval, with_ivarg, interval_of};

use crate::literals::range_of;
use cpo_text::Ivarg;
use sched_base::{H, List, NoMemory};
use sched_model::IntervalDef;
use std::alloc::Global;

fn plain_interval(alloc: Global, name: &[u8]) -> Result<IntervalDef, NoMemory>
    ensures { IfOk result (λ d. d ≡ plain_interval name.now) }
{
    Ok(IntervalDef {
        name: List::from_vec(Vec::from_slice(alloc, name)?),
        optional: false,
        start_lo: 0,
        start_hi: H,
        end_lo: 0,
        end_hi: H,
        size_lo: 0,
        size_hi: H,
    })
}

fn with_ivarg(d: IntervalDef, a: Ivarg) -> IntervalDef
    ensures { result ≡ with_ivarg d a }
{
    match a {
        Ivarg::Optional => IntervalDef {
            optional: true,
            ..d
        },
        Ivarg::Start(r) => {
            let (start_lo, start_hi) = range_of(r);
            IntervalDef {
                start_lo,
                start_hi,
                ..d
            }
        }
        Ivarg::End(r) => {
            let (end_lo, end_hi) = range_of(r);
            IntervalDef {
                end_lo,
                end_hi,
                ..d
            }
        }
        Ivarg::Size(r) => {
            let (size_lo, size_hi) = range_of(r);
            IntervalDef {
                size_lo,
                size_hi,
                ..d
            }
        }
    }
}

/// The interval of a definition.
pub fn interval_of(alloc: Global, name: &[u8], args: &[Ivarg]) -> Result<IntervalDef, NoMemory>
    ensures { IfOk result (λ d. d ≡ interval_of name.now args.now) }
{
    let mut def = plain_interval(alloc, name)?;
    for a in args {
        def = with_ivarg(def, *a);
    }
    Ok(def)
}
