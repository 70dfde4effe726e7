// What is wrong with the text of a season.
use std::alloc::AllocError;
use survey::refusal::Refusal;
use thiserror::Error;

// What is wrong with a line.
#[derive(Debug, Drop, Error)]
pub enum Wrong {
    #[error("not a line of a season")]
    NotALine,
    // a kind that has no word
    #[error("no such kind of station")]
    NotAKind,
    #[error("a number is wanted")]
    NotANumber,
    #[error("no such notebook")]
    NoSuchBook,
    // numbers that make no label
    #[error("{0}")]
    Refused(#[from] Refusal),
    #[error("no memory")]
    NoMemory(#[from(alloc)] AllocError),
}

// The first mistake, with the line that it stands on.
#[derive(Debug, Drop, Error)]
pub enum Mistake {
    #[error("line {line}: {wrong}")]
    Line { line: usize, wrong: Wrong },
    #[error("no memory")]
    NoMemory(#[from(alloc)] AllocError),
}

impl Wrong {
    // This line is where it goes wrong, but for memory, which may run out at any.
    pub fn at(self, line: usize) -> Mistake {
        match self {
            Wrong::NoMemory(error) => Mistake::NoMemory(error),
            wrong => Mistake::Line { line, wrong },
        }
    }
}
