// A party's notebook: the stations with their kinds by word, and the legs as they were read.
use std::alloc::{AllocError, Global};
use std::str::FromStr;
use survey::leg_list::{Leg, LegList};
use survey::reading::Reading;
use survey::refusal::Refusal;
use survey::word::kind_of;
use thiserror::Error;

#[derive(Drop)]
pub struct Notebook {
    kinds: Vec<u8>,
    legs: Vec<Leg<Reading>>,
}

// What is wrong with a line of a notebook.
#[derive(Debug, Drop, Error)]
pub enum Wrong {
    #[error("neither a station nor a leg")]
    NotALine,
    // a kind that has no word
    #[error("no such kind of station")]
    NotAKind,
    #[error("a number is wanted")]
    NotANumber,
    // numbers that make no reading
    #[error("{0}")]
    NotAReading(#[from] Refusal),
    #[error("no memory")]
    NoMemory(#[from(alloc)] AllocError),
}

// The first mistake of a notebook, with the line that it stands on.
#[derive(Debug, Drop, Error)]
pub enum Mistake {
    #[error("line {line}: {wrong}")]
    Line { line: usize, wrong: Wrong },
    #[error("no memory")]
    NoMemory(#[from(alloc)] AllocError),
}

impl Wrong {
    // This line is where it goes wrong, but for memory, which may run out at any.
    fn at(self, line: usize) -> Mistake {
        match self {
            Wrong::NoMemory(error) => Mistake::NoMemory(error),
            wrong => Mistake::Line { line, wrong },
        }
    }
}

// The errors, this, the reading of a kind and `network` stand in the other program with a notebook too: shared, they would take a
// library, whose functions would have to promise a grammar of notebooks.
fn number<F: FromStr>(word: &str) -> Result<F, Wrong>
where
    <F as FromStr>::Err: Drop,
{
    word.parse::<F>().map_err(|_| Wrong::NotANumber)
}

impl Notebook {
    // Reads lines of `station KIND`, numbered from 0 in their order, and `leg FROM TO LENGTH BEARING GRADIENT`.
    pub fn read(heap: Global, text: &str) -> Result<Notebook, Mistake> {
        let mut book = Notebook {
            kinds: Vec::new(heap),
            legs: Vec::new(heap),
        };
        for (at, text) in text.lines().enumerate() {
            book.read_line(heap, text)
                .map_err(|wrong| wrong.at(at.saturating_add(1)))?;
        }
        Ok(book)
    }

    fn read_line(&mut self, heap: Global, text: &str) -> Result<(), Wrong> {
        let words: Vec<&str> = text.split_whitespace().collect(heap)?;
        match words.as_slice() {
            [] => Ok(()),
            ["station", kind] => self.read_station(kind),
            ["leg", from, to, length, bearing, gradient] => {
                let leg = Leg {
                    from: number(from)?,
                    to: number(to)?,
                    label: read_label(length, bearing, gradient)?,
                };
                self.legs.push(leg)?;
                Ok(())
            }
            _ => Err(Wrong::NotALine),
        }
    }

    fn read_station(&mut self, kind: &str) -> Result<(), Wrong> {
        self.kinds.push(kind_of(kind).ok_or(Wrong::NotAKind)?)?;
        Ok(())
    }

    // The network that the notebook tells of.
    pub fn network(&self) -> LegList<'_, Reading> {
        LegList::new(&self.kinds, &self.legs)
    }
}

fn read_label(length: &str, bearing: &str, gradient: &str) -> Result<Reading, Wrong> {
    Ok(Reading::new(number(length)?, number(bearing)?, number(gradient)?)?)
}
