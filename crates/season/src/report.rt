// What the program prints of networks and pairings.
use std::io;
use survey::network::Network;
use survey::pairing::Pairing;
use survey::reading::Reading;
use survey::word::word;

// Prints a network: its stations with their kinds, and its legs as they are read.
pub fn network<N: Network<Label = Reading>>(
    rt: &HostRuntime,
    title: &str,
    net: &N,
) -> io::Result<()> {
    let count = net.stations();
    println!(rt; "{title}: {count} stations")?;
    // A network holds no list of its stations to go through: it is asked by their numbers.
    for u in 0..count {
        let kind = word(net.kind(u));
        println!(rt; "  station {u}, {kind}")?;
        legs_from(rt, net, u)?;
    }
    Ok(())
}

fn legs_from<N: Network<Label = Reading>>(rt: &HostRuntime, net: &N, u: u16) -> io::Result<()> {
    // By number, as above: a chain that keeps each number with its leg is longer.
    for v in 0..net.stations() {
        if let Some(reading) = net.leg(u, v) {
            println!(rt; "    to {v}: {reading}")?;
        }
    }
    Ok(())
}

// Prints which station is paired with which.
pub fn pairing(rt: &HostRuntime, title: &str, pairing: &Pairing) -> io::Result<()> {
    print!(rt; "{title}:")?;
    for (u, image) in pairing.images().iter().enumerate() {
        print!(rt; " {u}-{image}")?;
    }
    println!(rt; "")
}

// Prints whether a pairing carries one party's network onto the other's.
pub fn verdict(rt: &HostRuntime, title: &str, carried: bool) -> io::Result<()> {
    if carried {
        println!(rt; "{title}: the pairing is a map")
    } else {
        println!(rt; "{title}: the pairing is no map")
    }
}
