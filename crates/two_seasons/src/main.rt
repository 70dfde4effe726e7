// Numbers two seasons of built-in networks, one of grades and one of readings, and prints what each call was answered.
#![tactic(auto)]

mod mistake;
mod networks;
mod notebook;
mod plan;
mod report;
mod texts;
mod written;

use atlas::block::BLOCK;
use atlas::request::Request;
use atlas::season::season;
use mistake::Mistake;
use networks::{graded, listed, table};
use plan::{Asked, Call, Plan};
use std::alloc::AllocError;
use std::io;
use survey::grade::Grade;
use survey::network::Network;
use survey::pairing::Pairing;
use survey::reading::Reading;
use written::Written;

// What is lent to an atlas: bytes for so many blocks, and so many label places.
#[derive(Clone, Copy)]
struct Lent {
    blocks: usize,
    places: usize,
}

// Few enough that a season of sketches fills both the blocks and the legend.
const FOR_GRADES: Lent = Lent {
    blocks: 6,
    places: 3,
};

// Enough for every reading of the built-in series.
const FOR_READINGS: Lent = Lent {
    blocks: 8,
    places: 60,
};

// Adds a planned call with its network to the requests.
fn add<N: Network + Drop>(
    requests: &mut Vec<Request<N>>,
    asked: Asked,
    network: N,
) -> Result<(), Mistake> {
    requests.push(Request {
        ask: asked.ask,
        network,
        allowance: asked.allowance,
        place: Pairing::empty(),
        answer: None,
    })?;
    Ok(())
}

// Puts the requests to a newly opened atlas, and prints what they were answered and what the atlas holds then.
fn run<L: Written + Clone + Drop, N: Network<Label = L>>(
    rt: &HostRuntime,
    lent: Lent,
    calls: &[Call],
    requests: &mut [Request<N>],
) -> anyhow::Result<()> {
    let heap = rt.alloc();
    let mut bytes: Vec<u8> = vec![in heap; 0; lent.blocks.saturating_mul(BLOCK)]?;
    let mut places = vec![in heap; L::default(); lent.places]?;
    let Lent {
        blocks,
        places: room,
    } = lent;
    println!(rt; "  {blocks} blocks, {room} label places")?;
    let atlas = season(&mut bytes, &mut places, requests);
    report::calls(rt, calls, requests)?;
    report::forms(rt, &atlas)?;
    Ok(())
}

fn grades(rt: &HostRuntime) -> anyhow::Result<()> {
    let heap = rt.alloc();
    let plan: Plan<Grade> = Plan::read(heap, texts::GRADES)?;
    // The tables lie beside the notebooks in their order, since only a season of grades has them.
    let mut tables = Vec::new(heap);
    for book in plan.books() {
        tables.push(table(heap, &book.notebook)?)?;
    }
    let mut requests = Vec::new(heap);
    for call in plan.calls() {
        let asked = call.asked;
        if let Some(book) = plan.books().get(asked.book) {
            if let Some(table) = tables.get(asked.book) {
                let network = graded(&book.notebook, table, asked.layer);
                add(&mut requests, asked, network)?;
            }
        }
    }
    println!(rt; "Grades")?;
    run(rt, FOR_GRADES, plan.calls(), &mut requests)
}

fn readings(rt: &HostRuntime) -> anyhow::Result<()> {
    let heap = rt.alloc();
    let plan: Plan<Reading> = Plan::read(heap, texts::READINGS)?;
    let mut requests = Vec::new(heap);
    for call in plan.calls() {
        let asked = call.asked;
        if let Some(book) = plan.books().get(asked.book) {
            add(&mut requests, asked, listed(&book.notebook, asked.layer))?;
        }
    }
    println!(rt; "Readings")?;
    run(rt, FOR_READINGS, plan.calls(), &mut requests)
}

fn both(rt: &HostRuntime) -> anyhow::Result<()> {
    grades(rt)?;
    readings(rt)
}

fn main(rt: HostRuntime) -> anyhow::Result<()> {
    both(&rt)
}
