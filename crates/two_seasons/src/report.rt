// What the program prints of calls and of the atlas that they left.
use crate::plan::Call;
use atlas::Atlas;
use atlas::answer::Answer;
use atlas::reader::MOST_STATIONS;
use atlas::request::Request;
use std::io;
use survey::label::Label;
use survey::network::Network;
use survey::pairing::Pairing;
use survey::refusal::Refusal;

// How many calls were answered in each way.
#[derive(Clone, Copy, Default)]
struct Tally {
    new: u32,
    known: u32,
    unknown: u32,
    spent: u32,
    refused: u32,
}

impl Tally {
    fn count(&mut self, answer: Result<Answer, Refusal>) {
        let counted = match answer {
            Ok(Answer::New { .. }) => &mut self.new,
            Ok(Answer::Known { .. }) => &mut self.known,
            Ok(Answer::Unknown { .. }) => &mut self.unknown,
            Ok(Answer::Spent { .. }) => &mut self.spent,
            Err(_) => &mut self.refused,
        };
        *counted = counted.saturating_add(1);
    }
}

// Prints which station is paired with which.
fn pairs(rt: &HostRuntime, place: &Pairing) -> io::Result<()> {
    for (u, image) in place.images().iter().enumerate() {
        print!(rt; " {u}-{image}")?;
    }
    println!(rt; "")
}

// Prints an answer, with the pairs of the map where there is one.
fn answer(rt: &HostRuntime, answer: Result<Answer, Refusal>, place: &Pairing) -> io::Result<()> {
    match answer {
        Ok(Answer::New { form, trials }) => println!(rt; "new, number {form}, trials {trials}"),
        Ok(Answer::Known { form, trials }) => {
            print!(rt; "known, number {form}, trials {trials}, pairs")?;
            pairs(rt, place)
        }
        Ok(Answer::Unknown { trials }) => println!(rt; "unknown, trials {trials}"),
        Ok(Answer::Spent { trials }) => println!(rt; "spent, trials {trials}"),
        Err(refusal) => {
            let number = refusal.number();
            println!(rt; "refused ({number}), {refusal}")
        }
    }
}

// Prints the calls of a season with their answers, a line each, and how many were answered in each way.
pub fn calls<N: Network>(
    rt: &HostRuntime,
    calls: &[Call],
    requests: &[Request<N>],
) -> io::Result<()> {
    let mut tally = Tally::default();
    // A request and its line lie side by side, since an atlas takes requests alone.
    for (call, request) in calls.iter().zip(requests) {
        let text = call.text.as_str();
        print!(rt; "  {text}: ")?;
        match request.answer {
            Some(said) => {
                answer(rt, said, &request.place)?;
                tally.count(said);
            }
            None => println!(rt; "not put")?,
        }
    }
    let count = requests.len();
    let Tally {
        new,
        known,
        unknown,
        spent,
        refused,
    } = tally;
    println!(rt;
        "  {count} calls: {new} new, {known} known, {unknown} unknown, {spent} spent, {refused} refused"
    )
}

// Prints the stations of a class, where it has more than one and this one is its lowest.
fn class(rt: &HostRuntime, bits: u64, station: u16) -> io::Result<()> {
    if bits.count_ones() < 2 || bits.trailing_zeros() != u32::from(station) {
        return Ok(());
    }
    print!(rt; " [")?;
    for u in (0..u64::BITS).filter(|u| bits.checked_shr(*u).unwrap_or(0) % 2 == 1) {
        print!(rt; " {u}")?;
    }
    print!(rt; " ]")
}

// Prints for each form the classes of stations that cannot be told apart.
pub fn forms<L: Label>(rt: &HostRuntime, atlas: &Atlas<'_, L>) -> io::Result<()> {
    // Forms and stations are asked for by their numbers, since an atlas lends no list of them: forms up to the first that is
    // refused, and of each all stations that it may have.
    for form in 1..=u8::MAX {
        if atlas.classes(form, 0).is_err() {
            return Ok(());
        }
        print!(rt; "  form {form}, like stations:")?;
        for station in 0..MOST_STATIONS {
            if let Ok(bits) = atlas.classes(form, station) {
                class(rt, bits, station)?;
            }
        }
        println!(rt; "")?;
    }
    Ok(())
}
