// Works small networks whose answers are known by hand, and prints what is answered, a line a case. It ends with an
// error where an answer is another, or where a refused call has written anything.
#![tactic(auto)]

mod memory;
mod networks;
mod outcome;

use atlas::Atlas;
use atlas::answer::Answer;
use atlas::block::BLOCK;
use memory::{BYTES, LABELS, old_map};
use networks::{ring_of_six, triangle, two_grades};
use outcome::{Outcome, Surprise, Told};
use survey::both_ways::BothWays;
use survey::grade::Grade;
use survey::leg_list::LegList;
use survey::network::Network;
use survey::refusal::Refusal;
use survey::without::Without;

// No worked case takes a trial.
const ALLOWANCE: u32 = 0;

// What the first network of an atlas is answered.
const FIRST: Outcome = Ok(Answer::New { form: 1, trials: 0 });

// What a network of the first form is answered later.
const FIRST_AGAIN: Outcome = Ok(Answer::Known { form: 1, trials: 0 });

// Complains where what is found is not what is wanted.
fn expect<T: PartialEq>(found: &T, wanted: &T, otherwise: Surprise) -> Result<(), Surprise> {
    if found == wanted {
        Ok(())
    } else {
        Err(otherwise)
    }
}

// Complains where memory is not as it should be after a call that is refused.
fn expect_same<T: PartialEq>(after: &T, before: &T) -> Result<(), Surprise> {
    expect(after, before, Surprise::RefusedCallWrote)
}

// Complains where a call came to something else than it should.
fn expect_outcome(outcome: Outcome, wanted: Outcome) -> Result<(), Surprise> {
    expect(&outcome, &wanted, Surprise::OtherOutcome)
}

// Enters a network, which should be taken as the first, into an atlas of its own.
fn taken<N: Network<Label = Grade>>(rt: &HostRuntime, title: &str, net: &N) -> anyhow::Result<()> {
    let mut bytes = BYTES;
    let mut labels = LABELS;
    let mut map = old_map()?;
    let mut atlas = Atlas::open(&mut bytes, &mut labels);
    let outcome = atlas.enter(net, ALLOWANCE, &mut map);
    println!(rt; "{title}: {}", Told(outcome))?;
    expect_outcome(outcome, FIRST)?;
    Ok(())
}

// Enters a network, which should be refused, into an atlas of its own.
fn refused<N: Network<Label = Grade>>(
    rt: &HostRuntime,
    title: &str,
    net: &N,
    refusal: Refusal,
) -> anyhow::Result<()> {
    let mut bytes = BYTES;
    let mut labels = LABELS;
    let mut map = old_map()?;
    let mut atlas = Atlas::open(&mut bytes, &mut labels);
    let outcome = atlas.enter(net, ALLOWANCE, &mut map);
    print!(rt; "{title}: {}", Told(outcome))?;
    expect_outcome(outcome, Err(refusal))?;
    expect_same(&bytes, &BYTES)?;
    expect_same(&labels, &LABELS)?;
    expect_same(&map, &old_map()?)?;
    println!(rt; ", and nothing is written")?;
    Ok(())
}

fn few_and_many_stations(rt: &HostRuntime) -> anyhow::Result<()> {
    let one = LegList::new(&[0], &[]);
    taken(rt, "one station alone", &one)?;
    let none = LegList::new(&[], &[]);
    refused(rt, "no stations", &none, Refusal::NoStations)?;
    let most = LegList::new(&[0; 64], &[]);
    taken(rt, "64 stations with no legs", &most)?;
    let more = LegList::new(&[0; 65], &[]);
    refused(
        rt,
        "65 stations with no legs",
        &more,
        Refusal::TooManyStations,
    )
}

fn full_legend(rt: &HostRuntime) -> anyhow::Result<()> {
    let legs = two_grades();
    let net = LegList::new(&[0; 2], &legs);
    refused(
        rt,
        "two grades where one label has a place",
        &net,
        Refusal::LegendFull,
    )
}

// What the block and the label place hold once a network is entered, and nothing else is. Memory can be read only after
// the last call of its atlas, so a case with later calls compares its own with this.
fn memory_with<N: Network<Label = Grade>>(net: &N) -> anyhow::Result<([u8; BLOCK], [Grade; 1])> {
    let mut bytes = BYTES;
    let mut labels = LABELS;
    let mut map = old_map()?;
    let mut atlas = Atlas::open(&mut bytes, &mut labels);
    expect_outcome(atlas.enter(net, ALLOWANCE, &mut map), FIRST)?;
    Ok((bytes, labels))
}

// One block holds the triangle, so that the ring of six finds no block, and the triangle is still known.
fn full_atlas(rt: &HostRuntime) -> anyhow::Result<()> {
    let three = triangle();
    let triangle = BothWays::new(LegList::new(&[0; 3], &three));
    let six = ring_of_six();
    let ring = BothWays::new(LegList::new(&[0; 6], &six));
    let (bytes_before, labels_before) = memory_with(&triangle)?;
    let mut bytes = BYTES;
    let mut labels = LABELS;
    let mut map = old_map()?;
    let mut atlas = Atlas::open(&mut bytes, &mut labels);
    expect_outcome(atlas.enter(&triangle, ALLOWANCE, &mut map), FIRST)?;
    let outcome = atlas.enter(&ring, ALLOWANCE, &mut map);
    print!(rt;
        "the ring of six where the triangle has the only block: {}",
        Told(outcome)
    )?;
    expect_outcome(outcome, Err(Refusal::AtlasFull))?;
    expect_same(&map, &old_map()?)?;
    let again = atlas.enter(&triangle, ALLOWANCE, &mut map);
    expect_same(&bytes, &bytes_before)?;
    expect_same(&labels, &labels_before)?;
    println!(rt; ", and nothing is written")?;
    println!(rt; "the triangle again: {}", Told(again))?;
    expect_outcome(again, FIRST_AGAIN)?;
    Ok(())
}

// The ring of six without its first station: the others close up.
fn closed_up(rt: &HostRuntime) -> anyhow::Result<()> {
    let six = ring_of_six();
    let ring = BothWays::new(LegList::new(&[0; 6], &six));
    let rest = Without::new(ring, 1 << 0);
    let count = rest.stations();
    let old = rest.old_station(4);
    println!(rt;
        "the ring of six without its first station: {count} stations, and old station {old} is now 4"
    )?;
    if count != 5 || old != 5 {
        return Err(Surprise::OtherStations.into());
    }
    Ok(())
}

fn run(rt: &HostRuntime) -> anyhow::Result<()> {
    few_and_many_stations(rt)?;
    full_legend(rt)?;
    full_atlas(rt)?;
    closed_up(rt)
}

fn main(rt: HostRuntime) -> anyhow::Result<()> {
    run(&rt)
}
