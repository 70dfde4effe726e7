// A season: a file whose first line says how much memory is lent to the atlas,
//
//     open BLOCKS PLACES
//
// in blocks of bytes and in places for labels, and each other line is a call:
//
//     enter ALLOWANCE SHEET
//     find ALLOWANCE SHEET
//     classes FORM STATION
//
// A sheet is a network as text; how it is written goes by the labels that its legs carry.
use crate::fault::Fault;
use crate::words::Words;
use atlas::Atlas;
use atlas::answer::Answer;
use atlas::block::BLOCK;
use atlas::request::Ask;
use std::alloc::Global;
use std::{fs, io};
use survey::label::Label;
use survey::network::Network;
use survey::pairing::Pairing;
use survey::refusal::Refusal;

// A network as the lines of a season write it.
pub trait Sheet: Drop {
    // Its default is what a label place holds before the atlas writes to it.
    type Label: Label + Clone + Default;

    // Reads the sheet from the rest of a line.
    fn read(heap: Global, words: Words<'_>) -> Result<Self, Fault>;

    // Puts the network to the atlas.
    fn put(&self, question: Question<'_, '_, Self::Label>) -> Result<Answer, Refusal>;
}

// What is asked of a network, with so many trials allowed: by an atlas, with a place for a map.
#[derive(Drop)]
pub struct Question<'a, 'b, L> {
    ask: Ask,
    allowance: u32,
    atlas: &'a mut Atlas<'b, L>,
    place: &'a mut Pairing,
}

impl<'a, 'b, L: Label> Question<'a, 'b, L> {
    // Puts a network to the atlas, as the atlas itself does for a list of requests, all with networks of one type.
    pub fn put<N: Network<Label = L>>(self, net: &N) -> Result<Answer, Refusal> {
        let Question {
            ask,
            allowance,
            atlas,
            place,
        } = self;
        match ask {
            Ask::Enter => atlas.enter(net, allowance, place),
            Ask::Find => atlas.find(net, allowance, place),
        }
    }
}

// A line of a season.
#[derive(Drop)]
enum Call<S: Sheet> {
    Put { ask: Ask, allowance: u32, sheet: S },
    Classes { form: u8, station: u16 },
}

impl<S: Sheet> Call<S> {
    fn read(heap: Global, mut words: Words<'_>) -> Result<Call<S>, Fault> {
        match words.word()? {
            "enter" => Self::read_put(heap, Ask::Enter, words),
            "find" => Self::read_put(heap, Ask::Find, words),
            "classes" => Ok(Call::Classes {
                form: words.parse()?,
                station: words.parse()?,
            }),
            _ => Err(words.fault()),
        }
    }

    fn read_put(heap: Global, ask: Ask, mut words: Words<'_>) -> Result<Call<S>, Fault> {
        Ok(Call::Put {
            ask,
            allowance: words.parse()?,
            sheet: S::read(heap, words)?,
        })
    }
}

// How much is lent to an atlas, as a file tells it: no more than a byte counts, where the program with built-in seasons
// says how much it likes.
#[derive(Clone, Copy)]
struct Lent {
    blocks: u8,
    places: u8,
}

impl Lent {
    fn read(line: &str) -> Result<Lent, Fault> {
        let mut words = Words::of(1, line);
        if words.word()? != "open" {
            return Err(words.fault());
        }
        Ok(Lent {
            blocks: words.parse()?,
            places: words.parse()?,
        })
    }
}

fn print_refusal(rt: &HostRuntime, refusal: Refusal) -> io::Result<()> {
    let number = refusal.number();
    match refusal {
        Refusal::LegToItself { station } => println!(rt; "refused {number} {station}"),
        _ => println!(rt; "refused {number}"),
    }
}

// Prints an answer; of a known network with the images of the form's stations, in its own way as each program does: how a
// pairing is printed is promised nowhere.
fn print_answer(rt: &HostRuntime, answer: Answer, place: &Pairing) -> io::Result<()> {
    match answer {
        Answer::New { form, trials } => println!(rt; "new {form} {trials}"),
        Answer::Known { form, trials } => {
            print!(rt; "known {form} {trials}")?;
            for image in place.images() {
                print!(rt; " {image}")?;
            }
            println!(rt; "")
        }
        Answer::Unknown { trials } => println!(rt; "unknown {trials}"),
        Answer::Spent { trials } => println!(rt; "spent {trials}"),
    }
}

// Makes a call and prints what is answered.
fn work<S: Sheet>(
    rt: &HostRuntime,
    atlas: &mut Atlas<'_, S::Label>,
    call: &Call<S>,
) -> io::Result<()> {
    match call {
        Call::Put {
            ask,
            allowance,
            sheet,
        } => {
            let mut place = Pairing::empty();
            let question = Question {
                ask: *ask,
                allowance: *allowance,
                atlas,
                place: &mut place,
            };
            match sheet.put(question) {
                Ok(answer) => print_answer(rt, answer, &place),
                Err(refusal) => print_refusal(rt, refusal),
            }
        }
        Call::Classes { form, station } => match atlas.classes(*form, *station) {
            Ok(class) => println!(rt; "{class}"),
            Err(refusal) => print_refusal(rt, refusal),
        },
    }
}

// Opens an atlas and makes the calls of a season, and prints the season's name and then an answer a line.
pub fn replay<S: Sheet>(rt: &HostRuntime, name: &str) -> anyhow::Result<()> {
    let heap = rt.alloc();
    println!(rt; "{name}")?;
    let text = fs::read_to_string(rt, name)?;
    let Some((opening, calls)) = text.as_str().split_once('\n') else {
        return Err(Fault::Unreadable { line: 1 }.into());
    };
    let lent = Lent::read(opening)?;
    let mut bytes: Vec<u8> = vec![in heap; 0; lent.blocks as usize * BLOCK]?;
    let mut places = vec![in heap; S::Label::default(); lent.places as usize]?;
    let mut atlas = Atlas::open(&mut bytes, &mut places);
    for (at, line) in calls.lines().enumerate() {
        let call = Call::<S>::read(heap, Words::of(at.saturating_add(2), line))?;
        work(rt, &mut atlas, &call)?;
    }
    Ok(())
}
