// Labels as they are written in a notebook.
use crate::mistake::Wrong;
use std::str::FromStr;
use survey::grade::Grade;
use survey::label::Label;
use survey::reading::Reading;

// A number of some kind. This, the errors, the reading of a kind and a notebook's `network` stand in the other program
// too: shared, they would take a library, whose functions would have to promise a grammar of notebooks.
pub fn number<F: FromStr>(word: &str) -> Result<F, Wrong>
where
    <F as FromStr>::Err: Drop,
{
    word.parse::<F>().map_err(|_| Wrong::NotANumber)
}

// A kind of label that can be read from words.
// Its default fills label places that no label has joined yet.
pub trait Written: Label + Default {
    fn read(words: &[&str]) -> Result<Self, Wrong>;
}

impl Written for Grade {
    fn read(words: &[&str]) -> Result<Grade, Wrong> {
        let [value] = words else {
            return Err(Wrong::NotALine);
        };
        Ok(Grade::new(number(value)?)?)
    }
}

impl Written for Reading {
    // Length in centimetres, bearing and gradient in tenths of a degree.
    fn read(words: &[&str]) -> Result<Reading, Wrong> {
        let [length, bearing, gradient] = words else {
            return Err(Wrong::NotALine);
        };
        Ok(Reading::new(number(length)?, number(bearing)?, number(gradient)?)?)
    }
}
