// Two parties surveyed one series of a cave and numbered its stations differently. This program reads both notebooks,
// prints the networks, and shows how the stations pair.
#![tactic(auto)]

mod matching;
mod notebook;
mod report;

use anyhow::anyhow;
use notebook::{Mistake, Notebook};
use search::answer::Answer;
use search::searching::search;
use std::io;
use survey::both_ways::BothWays;
use survey::pairing::Pairing;
use survey::turned::Turned;
use survey::without::Without;

// The spring party went in by the old entrance.
const SPRING: &str = "station entrance
station junction
station pitch
station sump
station lead
leg 0 1 1234 905 -120
leg 1 2 860 1800 -450
leg 2 3 415 2250 -875
leg 1 4 2310 3150 35
leg 4 2 1990 1120 -210
";

// The autumn party came up from the sump, and read three of the legs from the other end.
const AUTUMN: &str = "station sump
station pitch
station junction
station lead
station entrance
leg 0 1 415 450 875
leg 1 2 860 0 450
leg 2 3 2310 3150 35
leg 3 1 1990 1120 -210
leg 2 4 1234 2705 120
";

// How the autumn party numbered the spring party's stations.
const SAME_STATIONS: [u8; 5] = [4, 2, 1, 0, 3];

// The sump, station 3 of the spring party, is closed after rain.
const SUMP: u64 = 1 << 3;

fn run(rt: &HostRuntime) -> anyhow::Result<()> {
    let heap = rt.alloc();
    let spring = Notebook::read(heap, SPRING)?;
    let autumn = Notebook::read(heap, AUTUMN)?;
    report::network(rt, "The spring party", &spring.network())?;
    report::network(
        rt,
        "The spring party, from the far end of every leg",
        &Turned::new(spring.network()),
    )?;
    report::network(rt, "The autumn party", &autumn.network())?;
    let whole = BothWays::new(spring.network());
    report::network(rt, "The spring party, both ways", &whole)?;
    report::network(rt, "Both ways without the sump", &Without::new(whole, SUMP))?;
    pairings(rt, &spring, &autumn)?;
    matched(rt, &spring, &autumn)
}

// Prints how the two numberings pair, and whether the pairing is a map: of the legs as each party read them it is
// none, since the parties read some from other ends, and of the legs both ways it is one.
fn pairings(rt: &HostRuntime, spring: &Notebook, autumn: &Notebook) -> anyhow::Result<()> {
    let there = Pairing::from_images(&SAME_STATIONS).ok_or_else(|| anyhow!(
        "the stations do not pair"
    ))?;
    let back = there.reversed();
    let both = there.then(&back)?;
    report::pairing(rt, "From spring to autumn", &there)?;
    report::pairing(rt, "From autumn to spring", &back)?;
    report::pairing(rt, "There and back", &both)?;
    let as_read = there.carries(&spring.network(), &autumn.network());
    let both_ways = there.carries(
        &BothWays::new(spring.network()),
        &BothWays::new(autumn.network()),
    );
    report::verdict(rt, "The legs as read", as_read)?;
    report::verdict(rt, "The legs both ways", both_ways)?;
    Ok(())
}

// More trials than any network of this size needs.
const ALLOWANCE: u32 = 1_000;

// Searches for a map between the two networks both ways, and prints it with the trials that it took.
fn matched(rt: &HostRuntime, spring: &Notebook, autumn: &Notebook) -> anyhow::Result<()> {
    let mut met = Vec::new(rt.alloc());
    let form = matching::coded(&mut met, &BothWays::new(spring.network()))?;
    let network = matching::coded(&mut met, &BothWays::new(autumn.network()))?;
    let mut place = Pairing::empty();
    match search(&form, &network, ALLOWANCE, &mut place) {
        Answer::Map { trials } => {
            println!(rt; "Searched for: found with {trials} trials")?;
            report::pairing(rt, "The map from spring to autumn", &place)?;
        }
        Answer::NoMap { trials } => println!(rt;
            "Searched for: there is none, as {trials} trials show"
        )?,
        Answer::Spent => println!(rt; "Searched for: not found with {ALLOWANCE} trials")?,
    }
    Ok(())
}

fn main(rt: HostRuntime) -> anyhow::Result<()> {
    run(&rt)
}
