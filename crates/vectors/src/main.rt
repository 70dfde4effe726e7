// Works searches and classes that an independent model worked too, and prints an answer a line: the file `stdout`
// beside this crate has the model's answers.
#![tactic(auto)]

mod line;

use line::Task;
use search::answer::Answer;
use search::coded::CodedNetwork;
use search::searching::search;
use std::{fs, io};
use survey::pairing::Pairing;

// Prints how a search ended, with the images of the form's stations where there is a map.
fn print_search(
    rt: &HostRuntime,
    form: &CodedNetwork,
    network: &CodedNetwork,
    allowance: u32,
) -> io::Result<()> {
    let mut place = Pairing::empty();
    match search(form, network, allowance, &mut place) {
        Answer::Map { trials } => {
            print!(rt; "map {trials}:")?;
            for image in place.images() {
                print!(rt; " {image}")?;
            }
            println!(rt; "")
        }
        Answer::NoMap { trials } => println!(rt; "no map {trials}"),
        Answer::Spent => println!(rt; "spent"),
    }
}

// Prints the class of each station as a number whose bits are its stations.
fn print_classes(rt: &HostRuntime, network: &CodedNetwork) -> io::Result<()> {
    let classes = network.classes();
    print!(rt; "classes")?;
    for mask in (0..network.count()).filter_map(|u| classes.class_of(u)) {
        print!(rt; " {mask}")?;
    }
    println!(rt; "")
}

fn run(rt: &HostRuntime) -> anyhow::Result<()> {
    let text = fs::read_to_string(rt, "tasks.txt")?;
    for line in text.as_str().lines() {
        match line.parse::<Task>()? {
            Task::Search {
                allowance,
                form,
                network,
            } => print_search(rt, &form, &network, allowance)?,
            Task::Classes { network } => print_classes(rt, &network)?,
        }
    }
    Ok(())
}

fn main(rt: HostRuntime) -> anyhow::Result<()> {
    run(&rt)
}
