// The words of a line, read one after another.
use crate::fault::Fault;
use hex::decode_to_slice;
use std::alloc::Global;
use std::str::{FromStr, SplitWhitespace};

// What is left of a line, and its number for a complaint about it.
#[derive(Drop)]
pub struct Words<'a> {
    line: usize,
    words: SplitWhitespace<'a>,
}

fn is_digit(byte: u8) -> bool {
    matches!(byte, b'0'..=b'9' | b'a'..=b'f')
}

// The number that a text stands for.
pub fn parsed<F: FromStr>(text: Option<&str>) -> Option<F>
where
    <F as FromStr>::Err: Drop,
{
    text?.parse::<F>().ok()
}

impl<'a> Words<'a> {
    pub fn of(line: usize, text: &'a str) -> Words<'a> {
        Words {
            line,
            words: text.split_whitespace(),
        }
    }

    pub fn line(&self) -> usize {
        self.line
    }

    // The complaint about this line.
    pub fn fault(&self) -> Fault {
        Fault::Unreadable { line: self.line }
    }

    // The words that are left.
    pub fn rest(self) -> SplitWhitespace<'a> {
        self.words
    }

    pub fn word(&mut self) -> Result<&'a str, Fault> {
        self.words.next().ok_or_else(|| self.fault())
    }

    // What the next word stands for.
    pub fn parse<F: FromStr>(&mut self) -> Result<F, Fault>
    where
        <F as FromStr>::Err: Drop,
    {
        parsed(self.words.next()).ok_or_else(|| self.fault())
    }

    // Bytes written with two hex digits each, or `-` for none. The digits are small ones, and looked at before there is
    // memory for the bytes: the crate takes capitals too, and a word that cannot be read may be too long to hold.
    pub fn bytes(&mut self, heap: Global) -> Result<Vec<u8>, Fault> {
        let word = self.word()?;
        if word == "-" {
            return Ok(Vec::new(heap));
        }
        if !word.bytes().all(is_digit) {
            return Err(self.fault());
        }
        let mut bytes = vec![in heap; 0; word.len() / 2]?;
        decode_to_slice(word, &mut bytes).map_err(|_| self.fault())?;
        Ok(bytes)
    }
}
