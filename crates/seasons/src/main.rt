// Replays whole seasons of calls that an independent model answered too, and prints an answer a line: the file `stdout`
// beside this crate has the model's answers.
#![tactic(auto)]

mod fault;
mod grades;
mod readings;
mod season;
mod words;

use grades::GradeSheet;
use readings::ReadingSheet;
use season::replay;

// Seasons of grade tables: two with all the memory that an atlas uses, one with 6 blocks, one with 2 places for labels,
// and one with no memory at all.
const OF_GRADES: [&str; 5] = [
    "grades-spring.txt",
    "grades-autumn.txt",
    "grades-six-blocks.txt",
    "grades-two-places.txt",
    "grades-no-memory.txt",
];

// Seasons of readings through layers: one with all the memory that an atlas uses, and one with 7 blocks and 9 places.
const OF_READINGS: [&str; 2] = ["readings-spring.txt", "readings-little-memory.txt"];

fn run(rt: &HostRuntime) -> anyhow::Result<()> {
    for name in OF_GRADES {
        replay::<GradeSheet>(rt, name)?;
    }
    for name in OF_READINGS {
        replay::<ReadingSheet>(rt, name)?;
    }
    Ok(())
}

fn main(rt: HostRuntime) -> anyhow::Result<()> {
    run(&rt)
}
