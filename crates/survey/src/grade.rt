// Labels that grade a leg.
ghost use Rattle.std.specs.Prelude.{◌≡◌, Some};
ghost use Rattle.survey.specs.Grades.{grade_sense, grade_made, grade_text};
ghost use Rattle.std.proofs.Common.{rules};

use crate::label::Label;
use crate::refusal::Refusal;
use std::fmt;

// A grade from 1 to 255. The type is plain, since grades lie in lent memory: a value of 0 counts as 1.
#[derive(Clone, Copy, PartialEq, Eq, Debug, Default)]
pub struct Grade {
    pub value: u8,
}

impl Grade {
    pub const LEAST: u32 = 1;

    pub const GREATEST: u32 = 255;

    // The grade, or a refusal of a number outside 1 to 255.
    pub fn new(value: u32) -> Result<Grade, Refusal>
        ensures { result ≡ grade_made value }
    {
        if value < Self::LEAST || value > Self::GREATEST {
            return Err(Refusal::OutOfRange);
        }
        Ok(Grade { value: value as u8 })
    }
}

impl Label for Grade {
    ghost sense = { grade_sense };

    ghost turned = { λ g. g };

    ghost turns_by_sense = { Prim.search rules };

    ghost turns_back = { Prim.search rules };

    fn same(&self, other: &Grade) -> bool {
        self.value.max(1) == other.value.max(1)
    }

    fn turn(&self) -> Grade {
        *self
    }
}

impl fmt::Display for Grade {
    ghost output = { λ g. Some (grade_text g) };

    fn fmt<W: fmt::Write>(&self, f: &mut fmt::Formatter<W>) -> fmt::Result {
        let value = self.value;
        write!(f, "grade {value}")
    }
}
