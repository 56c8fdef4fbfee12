//! The distances between members of a sequence, by their places.
ghost use Rattle.std.specs.Prelude.{◌≡◌};
ghost use Rattle.sched_model.specs.Data.{gap, members_of, type_of, types_of};
ghost use Rattle.region.specs.Looks.{IsRegionOf};

use region::Look;
use sched_base::{Itv, Mat, Seq};
use sched_model::{Model, distance};

/// The members of a sequence, and none where there is no such sequence.
pub fn members_of(model: &Model, p: Seq) -> &[Itv]
    ensures { result.now ≡ members_of model.now p }
{
    match model.sequences().get(p.0 as usize) {
        None => &[],
        Some(d) => d.members.as_slice(),
    }
}

fn types_of(model: &Model, p: Seq) -> &[u32]
    ensures { result.now ≡ types_of model.now p }
{
    match model.sequences().get(p.0 as usize) {
        None => &[],
        Some(d) => match &d.types {
            None => &[],
            Some(types) => types.as_slice(),
        },
    }
}

/// The type of a member, read at the place of the member.
#[tactic(auto, using(crate::proofs::Placing::place_is))]
fn type_of(model: &Model, look: &Look<'_>, p: Seq, x: Itv) -> u32
    requires { IsRegionOf model.now look.now.region }
    ensures { result ≡ type_of model.now p x }
{
    let place = look.place(p, x).unwrap_or(members_of(model, p).len());
    types_of(model, p).get(place).copied().unwrap_or(0)
}

/// The distance that the sequence keeps from one member to another.
pub fn gap(model: &Model, look: &Look<'_>, p: Seq, matrix: Option<Mat>, x: Itv, y: Itv) -> i64
    requires { IsRegionOf model.now look.now.region }
    ensures { result ≡ gap model.now p matrix x y }
{
    let from = type_of(model, look, p, x);
    let to = type_of(model, look, p, y);
    distance(model, matrix, u64::from(from), u64::from(to))
}
