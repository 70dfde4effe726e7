// What is wrong with a season's file.
use std::alloc::AllocError;
use thiserror::Error;

#[derive(Debug, Drop, Error)]
pub enum Fault {
    // a line, counted from 1, that is neither the opening at the first place nor a call at another
    #[error("line {line} of a season cannot be read")]
    Unreadable { line: usize },
    #[error("no memory")]
    NoMemory(#[from(alloc)] AllocError),
}
