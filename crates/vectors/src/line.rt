// A line of the task file: `search ALLOWANCE NETWORK NETWORK` or `classes NETWORK`, where a network is its count, its
// kinds and the codes of its legs row by row, two hex digits to a byte.
use hex::decode_to_slice;
use search::coded::{CodedNetwork, MOST_CODES, MOST_STATIONS};
use std::str::{FromStr, SplitWhitespace};
use thiserror::Error;

// What a line asks for.
#[derive(Drop)]
pub enum Task {
    Search {
        allowance: u32,
        form: CodedNetwork,
        network: CodedNetwork,
    },
    Classes {
        network: CodedNetwork,
    },
}

// A line that asks for nothing.
#[derive(Debug, Drop, Error)]
#[error("a line of the task file cannot be read")]
pub struct Fault;

// Reads bytes of two hex digits each. The digits are small ones: capitals, which the crate takes too, are refused.
fn read_bytes(digits: &[u8], bytes: &mut [u8]) -> Option<()> {
    if digits.iter().any(|digit| digit.is_ascii_uppercase()) {
        return None;
    }
    decode_to_slice(digits, bytes).ok()
}

fn read_kinds(count: usize, text: &[u8]) -> Option<[u16; MOST_STATIONS]> {
    let mut kinds = [0; MOST_STATIONS];
    let digits = text.get(..count.checked_mul(2)?)?;
    read_bytes(digits, kinds.get_mut(..count)?)?;
    Some(kinds.map(u16::from))
}

fn read_codes(count: usize, text: &[u8]) -> Option<[u8; MOST_CODES]> {
    let width = count.checked_mul(2)?;
    let digits = text.get(..width.checked_mul(count)?)?;
    let mut codes = [0; MOST_CODES];
    for (row, digits) in codes
        .chunks_mut(MOST_STATIONS)
        .zip(digits.chunks(width.max(1)))
    {
        read_bytes(digits, row.get_mut(..count)?)?;
    }
    Some(codes)
}

fn read_network(words: &mut SplitWhitespace<'_>) -> Option<CodedNetwork> {
    let count = words.next()?.parse::<usize>().ok()?;
    let kinds = read_kinds(count, words.next()?.as_bytes())?;
    let codes = read_codes(count, words.next()?.as_bytes())?;
    CodedNetwork::new(count, &kinds, &codes)
}

fn read_task(line: &str) -> Option<Task> {
    let mut words = line.split_whitespace();
    match words.next()? {
        "search" => Some(Task::Search {
            allowance: words.next()?.parse::<u32>().ok()?,
            form: read_network(&mut words)?,
            network: read_network(&mut words)?,
        }),
        "classes" => Some(Task::Classes {
            network: read_network(&mut words)?,
        }),
        _ => None,
    }
}

impl FromStr for Task {
    type Err = Fault;

    fn from_str(line: &str) -> Result<Task, Fault> {
        read_task(line).ok_or(Fault)
    }
}
