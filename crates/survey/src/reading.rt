// Labels read off tape, compass and clinometer.
ghost use Rattle.std.specs.Prelude.{◌≡◌, Some};
ghost use Rattle.survey.specs.Readings.{reading_within, reading_sense, reading_turned, reading_made, reading_text};
ghost use Rattle.std.proofs.Common.{rules};

use crate::label::Label;
use crate::refusal::Refusal;
use std::fmt;

// A reading. The type is plain, since readings lie in lent memory: a number beyond its range counts as the nearer end of it.
#[derive(Clone, Copy, PartialEq, Eq, Debug, Default)]
pub struct Reading {
    // centimetres of tape
    pub length: u32,
    // tenths of a degree from north
    pub bearing: u16,
    // tenths of a degree above the horizontal, negative below it
    pub gradient: i16,
}

impl Reading {
    pub const LONGEST: u32 = 1_000_000;

    pub const LAST_BEARING: u16 = 3_599;

    pub const STEEPEST: i16 = 900;

    pub const HALF_TURN: u16 = 1_800;

    // The reading, or a refusal of a number outside its range.
    pub fn new(length: u32, bearing: u16, gradient: i16) -> Result<Reading, Refusal>
        ensures { result ≡ reading_made length bearing gradient }
    {
        if length > Self::LONGEST || bearing > Self::LAST_BEARING {
            return Err(Refusal::OutOfRange);
        }
        if gradient < -Self::STEEPEST || gradient > Self::STEEPEST {
            return Err(Refusal::OutOfRange);
        }
        Ok(Reading {
            length,
            bearing,
            gradient,
        })
    }

    // The reading as it counts: each number at the end of its range where it lies beyond.
    fn within(&self) -> Reading
        ensures { result ≡ reading_within self.now }
    {
        Reading {
            length: self.length.min(Self::LONGEST),
            bearing: self.bearing.min(Self::LAST_BEARING),
            gradient: self.gradient.clamp(-Self::STEEPEST, Self::STEEPEST),
        }
    }
}

impl Label for Reading {
    ghost sense = { reading_sense };

    ghost turned = { reading_turned };

    ghost turns_by_sense = { Prim.search rules };

    ghost turns_back = { Prim.search rules };

    fn same(&self, other: &Reading) -> bool {
        self.within() == other.within()
    }

    fn turn(&self) -> Reading {
        let Reading {
            length,
            bearing,
            gradient,
        } = self.within();
        let bearing = if bearing < Self::HALF_TURN {
            bearing + Self::HALF_TURN
        } else {
            bearing - Self::HALF_TURN
        };
        Reading {
            length,
            bearing,
            gradient: -gradient,
        }
    }
}

impl fmt::Display for Reading {
    ghost output = { λ r. Some (reading_text r) };

    fn fmt<W: fmt::Write>(&self, f: &mut fmt::Formatter<W>) -> fmt::Result {
        let length = self.length;
        let bearing = self.bearing;
        let gradient = self.gradient;
        write!(f, "{length} cm, bearing {bearing}, gradient {gradient}")
    }
}
