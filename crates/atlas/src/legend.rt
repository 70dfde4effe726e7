// The legend: the labels that an atlas has met, in lent places.
ghost use Rattle.std.specs.Prelude.{◌≤◌, min, length, Some, codes};

use std::error::Error;
use std::fmt;

pub mod calls;

// How many places are used at most.
pub const MOST_LABELS: usize = 250;

// No place is left for a label.
#[derive(Clone, Copy, PartialEq, Eq, Debug)]
pub struct NoPlace;

// By hand, since what is printed is promised.
impl fmt::Display for NoPlace {
    ghost output = { λ _. Some (codes "no place is left for a label") };

    fn fmt<W: fmt::Write>(&self, f: &mut fmt::Formatter<W>) -> fmt::Result {
        write!(f, "no place is left for a label")
    }
}

impl Error for NoPlace {}

// Labels of different senses, in the order in which they joined. At most the first 250 places are used, so that a
// label's number fits a byte. The places are lent, since nothing is allocated here, so how many are used stands beside
// them.
#[derive(Drop)]
pub struct Legend<'a, L> {
    places: &'a mut [L],
    len: usize,
    ghost within: { len ≤ min (length places.now) 250 },
}
