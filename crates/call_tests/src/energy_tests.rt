//! Energies under a capacity: envelopes worked out by hand, and overloads of small models.
ghost use Rattle.std.specs.Prelude.{◌≡◌};
ghost use Rattle.region.specs.Looks.{IsRegionOf};
ghost use Rattle.envelope.specs.code.Bars.{AreBars};
ghost use Rattle.prop_energy.specs.code.Bounds.{IsFor};

use crate::models::{Rows, first_wrong, unless};
use prop_energy::{Bar, EnvelopeTree, PropEnergy};
use region::Region;
use sched_base::NoMemory;
use sched_model::Model;
use std::alloc::Global;
use std::test::Fail;

/// A tree of capacity 2, all of whose bars are on; it stands in the memory of one with other bars.
fn all_on(alloc: Global, bars: &[Bar]) -> Result<EnvelopeTree, NoMemory>
    requires { AreBars bars.now }
{
    let mut tree = EnvelopeTree::new(alloc, &[], 7)?.refill(bars, 2)?;
    for k in 0..bars.len() {
        tree.paint(k as u32, true);
    }
    Ok(tree)
}

/// None where these are no bars.
fn envelope_of(alloc: Global, bars: &[Bar]) -> Result<Option<Option<i128>>, NoMemory> {
    if !EnvelopeTree::takes(bars) {
        return Ok(None);
    }
    Ok(Some(all_on(alloc, bars)?.envelope()))
}

/// Bars, and what their tree answers.
type Row = (&'static [Bar], Option<Option<i128>>);

const ROWS: [Row; 4] = [
    (
        &[
            Bar { est: 0, energy: 6 },
            Bar { est: 0, energy: 6 },
            Bar { est: 4, energy: 2 },
        ],
        Some(Some(14)),
    ),
    (
        &[Bar { est: -3, energy: 1 }, Bar { est: 5, energy: 0 }],
        Some(Some(10)),
    ),
    (&[], Some(None)),
    (
        &[Bar { est: 5, energy: 0 }, Bar { est: 4, energy: 9 }],
        None,
    ),
];

fn wrong_row(alloc: Global) -> Result<Option<usize>, NoMemory> {
    for (n, row) in ROWS.iter().enumerate() {
        let (bars, want) = *row;
        if envelope_of(alloc, bars)? != want {
            return Ok(Some(n));
        }
    }
    Ok(None)
}

#[test]
fn worked_rows(rt: HostRuntime) -> Result<(), Fail> {
    assert_eq!(rt; wrong_row(rt.alloc())?, None);
    Ok(())
}

fn parts_found(search: &mut PropEnergy, model: &Model, region: &Region) -> Result<usize, NoMemory>
    requires of { IsFor search.old model.now }
    requires region { IsRegionOf model.now region.now.region }
    ensures { search.new ≡ search.old }
{
    match search.overload(model, region)? {
        None => Ok(0),
        Some(w) => Ok(w.parts.len()),
    }
}

/// How many parts the overload of a region has, asked twice.
fn asked_twice(alloc: Global, model: &Model, region: &Region) -> Result<(usize, usize), NoMemory>
    requires { IsRegionOf model.now region.now.region }
{
    let mut search = PropEnergy::new(alloc, model)?;
    let first = parts_found(&mut search, model, region)?;
    let second = parts_found(&mut search, model, region)?;
    Ok((first, second))
}

/// How many parts the overload of the first region has, 0 where it has none.
#[derive(Drop)]
struct Parts(usize);

impl Rows for Parts {
    fn wrong(&self, alloc: Global, model: &Model) -> Option<usize> {
        match Region::root(alloc, model) {
            Ok(region) => unless(asked_twice(alloc, model, &region) == Ok((self.0, self.0))),
            Err(_) => Some(usize::MAX),
        }
    }
}

/// Models, and how many parts their overload has.
const MODELS: [(&str, usize); 4] = [
    (
        "a = intervalVar(size=3,end=0..7); b = intervalVar(size=3,end=0..7); c = intervalVar(size=3,end=0..7); f = pulse(a,2)+pulse(b,2)+pulse(c,2); f <= 2;",
        3,
    ),
    (
        "a = intervalVar(size=3,end=0..7); b = intervalVar(size=3,end=0..7); f = pulse(a,2)+pulse(b,2); f <= 2;",
        0,
    ),
    (
        "a = intervalVar(size=3,end=0..9); b = intervalVar(size=3,end=0..5); c = intervalVar(size=3,end=0..5); f = pulse(a,2)+pulse(b,2)+pulse(c,2); f <= 8; f <= 2;",
        2,
    ),
    ("a = intervalVar(size=3); f = pulse(a,2); f >= 1;", 0),
];

fn wrong_model(alloc: Global) -> Option<usize> {
    for (n, row) in MODELS.iter().enumerate() {
        let (text, parts) = *row;
        if first_wrong(alloc, text, &Parts(parts)).is_some() {
            return Some(n);
        }
    }
    None
}

#[test]
fn finds_overloads(rt: HostRuntime) {
    assert_eq!(rt; wrong_model(rt.alloc()), None);
}
