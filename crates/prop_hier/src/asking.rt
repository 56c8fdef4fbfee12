//! What is found of a constraint.
ghost use Rattle.std.specs.Prelude.{◌≡◌, ◌<◌, ◌≤◌, ◌∷◌, [], length, IfNone, IfSome, slice_get};
ghost use Rattle.region.specs.Looks.{IsRegionOf};
ghost use Rattle.findings.specs.Found.{IsFound, IsFinding};
ghost use Rattle.findings.specs.code.Reads.{AreUnrefuted};
ghost use Rattle.refute_hier.specs.Hier.{refutes};
ghost use Rattle.prop_hier.specs.code.Asked.{AskedFirst, AreMembers};
ghost use Rattle.prop_hier.specs.code.Counts.{counts_of};
ghost use Rattle.prop_hier.specs.code.Rows.{refutes_under};
ghost use Rattle.prop_hier.specs.code.Ready.{AreParts};
ghost use Rattle.prop_hier.specs.code.Tables.{intervals_of};
ghost use Rattle.prop_hier.specs.code.Tasks.{quiet};

use crate::counts::{Counts, count_parts};
use crate::member_test::MemberTest;
use crate::relations::ask_relation;
use findings::{Finding, ask_by};
use refute_hier::{Family, HierWitness, as_family, find_witness};
use region::{Guess, Region};
use sched_base::{Itv, at};
use sched_model::Model;

/// A guess under which one of some intervals is refuted, or none where the region is as it stands, and the place of
/// that interval.
#[derive(Clone, Copy, Debug)]
pub struct Hit {
    pub guess: Option<Guess>,
    pub place: usize,
}

/// What is found of some of the intervals of a constraint, for which it is counted already.
#[tactic(auto, using(crate::proofs::Members::none_yet, crate::proofs::Members::one_more))]
fn ask_some<'a>(
    region: &'a Region,
    family: &'a Family<'a>,
    counts: Counts,
    xs: &[Itv],
) -> Option<Hit>
    requires parts { AreParts family.now.parts.now }
    requires counts { counts ≡ counts_of family.now.kind region.now.region family.now.a family.now.parts.now }
    requires members { AreMembers xs.now family.now.a family.now.parts.now }
    ensures none { IfNone result (AskedFirst (refutes_under family.now.kind region.now.region family.now.a family.now.parts.now) region.now.region xs.now (length xs.now)) }
    ensures some { IfSome result (λ h. IsFound (refutes_under family.now.kind region.now.region family.now.a family.now.parts.now) region.now.region h.guess) }
    ensures busy { IfSome result (λ h. AreUnrefuted (refutes_under family.now.kind region.now.region family.now.a family.now.parts.now) region.now.region (family.now.a ∷ family.now.parts.now) [] → ⊥) }
{
    for k in 0..xs.len() {
        let x = xs[k];
        let test = MemberTest {
            region,
            family,
            counts,
            x,
        };
        if test.is_silent() {
            continue;
        }
        if let Some(guess) = ask_by(&test, region, &[x], &[]) {
            return Some(Hit { guess, place: k });
        }
    }
    None
}

/// Up to so many intervals are asked in their own order, whatever was found last.
const FEW: usize = 64;

/// The place itself, if it is one of so many and these are many, else the first.
fn place_in(from: usize, n: usize) -> usize
    ensures within { 0 < n → result < n }
    ensures few { result ≤ n }
{
    if FEW < n && from < n { from } else { 0 }
}

/// What is found of a constraint on an interval and its parts, which are listed together: nothing, or
/// that one of its witnesses refutes the region, or the tight guess on one of these intervals under
/// which one does. Where they are many they are asked from a place on, and then those before it. The
/// parts are counted once; each guess on a part then costs a few comparisons, and none is tested of a part
/// of which its numbers show that nothing is found.
pub fn ask_family<'a>(
    region: &'a Region,
    family: &'a Family<'a>,
    members: &[Itv],
    from: usize,
) -> Option<Hit>
    requires parts { AreParts family.now.parts.now }
    requires members { members.now ≡ family.now.a ∷ family.now.parts.now }
    ensures none { IfNone result (AreUnrefuted (refutes_under family.now.kind region.now.region family.now.a family.now.parts.now) region.now.region (family.now.a ∷ family.now.parts.now) []) }
    ensures some { IfSome result (λ h. IsFound (refutes_under family.now.kind region.now.region family.now.a family.now.parts.now) region.now.region h.guess) }
    ensures busy { IfSome result (λ h. AreUnrefuted (refutes_under family.now.kind region.now.region family.now.a family.now.parts.now) region.now.region (family.now.a ∷ family.now.parts.now) [] → ⊥) }
{
    let counts = count_parts(&region.look(None, None), family);
    let from = place_in(from, members.len());
    if let Some(hit) = ask_some(region, family, counts, &members[from..]) {
        return Some(Hit {
            guess: hit.guess,
            place: hit.place.saturating_add(from),
        });
    }
    ask_some(region, family, counts, &members[..from])
}

/// A finding, and the place of its interval among those of its constraint.
#[derive(Debug, Drop)]
pub struct Placed {
    pub found: Finding<HierWitness>,
    pub place: usize,
}

/// What the witnesses of a constraint find; nothing where it is neither one on an interval and its
/// parts, which are listed together, nor a relation of the members of a sequence, which are listed. Of many
/// parts those from a place on are asked first.
pub fn ask_constraint(
    model: &Model,
    region: &Region,
    best: Option<i64>,
    c: u32,
    members: &[Itv],
    from: usize,
) -> Option<Placed>
    requires of { IsRegionOf model.now region.now.region }
    requires members { members.now ≡ intervals_of model.now (slice_get model.now.constraints c) }
    ensures none { IfNone result (quiet model.now c region.now.region best) }
    ensures some { IfSome result (λ p. IsFinding refutes model.now region.now.region best p.found) }
    ensures busy { IfSome result (λ p. quiet model.now c region.now.region best → ⊥) }
{
    let constraint = at(model.constraints(), c as usize)?;
    let Some(family) = as_family(constraint) else {
        let found = ask_relation(model, region, best, constraint, c, members)?;
        return Some(Placed { found, place: 0 });
    };
    let Hit { guess, place } = ask_family(region, &family, members, from)?;
    let witness = find_witness(&region.look(guess, best), &family, c)?;
    Some(Placed {
        found: Finding { guess, witness },
        place,
    })
}
