ghost use Rattle.std.specs.Prelude.{◌≡◌, Some};
ghost use Rattle.survey.specs.Refusals.{number_of, sentence};

use std::error::Error;
use std::fmt;

// Why a call of the library was refused. A refused call has written nothing.
#[derive(Clone, Copy, PartialEq, Eq, Debug)]
pub enum Refusal {
    // A label was to be made outside its ranges.
    OutOfRange,
    // The network has no stations.
    NoStations,
    // There are more stations than the 64 that a network or a pairing may have here.
    TooManyStations,
    // A leg leads back to the station that it leaves; the lowest such station.
    LegToItself { station: u8 },
    // More senses are missing from the legend than it has free places.
    LegendFull,
    // The network is new, and no block is free.
    AtlasFull,
    // No form has this number.
    NoSuchForm,
    // The station is not below the count.
    NoSuchStation,
    // The two pairings have different counts.
    CountsDiffer,
}

impl Refusal {
    // Written out: one case has a station, so that no number can stand behind each case in the declaration.
    pub fn number(&self) -> u8
        ensures { result ≡ number_of self.now }
    {
        match self {
            Refusal::OutOfRange => 1,
            Refusal::NoStations => 2,
            Refusal::TooManyStations => 3,
            Refusal::LegToItself { .. } => 4,
            Refusal::LegendFull => 5,
            Refusal::AtlasFull => 6,
            Refusal::NoSuchForm => 7,
            Refusal::NoSuchStation => 8,
            Refusal::CountsDiffer => 9,
        }
    }
}

// By hand: what is printed is promised, and a derive of errors promises no text.
impl fmt::Display for Refusal {
    ghost output = { λ x. Some (sentence x) };

    fn fmt<W: fmt::Write>(&self, f: &mut fmt::Formatter<W>) -> fmt::Result {
        match *self {
            Refusal::OutOfRange => write!(f, "a label is outside its ranges"),
            Refusal::NoStations => write!(f, "the network has no stations"),
            Refusal::TooManyStations => write!(f, "there are more than 64 stations"),
            Refusal::LegToItself { station } => write!(f, "station {station} has a leg to itself"),
            Refusal::LegendFull => write!(
                f,
                "the legend has too few free places for the new labels"
            ),
            Refusal::AtlasFull => write!(f, "the atlas has no free block"),
            Refusal::NoSuchForm => write!(f, "there is no such form"),
            Refusal::NoSuchStation => write!(f, "there is no such station"),
            Refusal::CountsDiffer => write!(f, "the pairings have different counts"),
        }
    }
}

impl Error for Refusal {}
