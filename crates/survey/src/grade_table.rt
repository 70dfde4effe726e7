// Networks given as a table of grades.
ghost use Rattle.std.specs.Prelude.{◌≡◌};
ghost use Rattle.survey.specs.Bounds.{table_bounded};
ghost use Rattle.survey.specs.Sources.{table_means};

use crate::grade::Grade;
use crate::kinds::{counted, kind_at};
use crate::network::Network;

// A network over lent kinds, one for each station, and lent bytes: the grade of the leg from u to v stands at 64u+v, 0 for no leg.
#[derive(Drop)]
pub struct GradeTable<'a> {
    kinds: &'a [u8],
    bytes: &'a [u8],
}

impl<'a> GradeTable<'a> {
    // How far the row of a station is from that of the next, and so how many stations can have legs.
    pub const ROW: u16 = 64;

    // How many bytes a whole table has.
    pub const BYTES: usize = 4_096;

    // The network of these kinds and grades.
    pub fn new(kinds: &'a [u8], bytes: &'a [u8]) -> GradeTable<'a>
        ensures { table_means result.kinds.now result.bytes.now ≡ table_means kinds.now bytes.now }
    {
        GradeTable { kinds, bytes }
    }
}

impl<'a> Network for GradeTable<'a> {
    type Label = Grade;

    ghost means = { λ s. table_means s.kinds.now s.bytes.now };

    ghost bounded = { λ s. table_bounded s.kinds.now s.bytes.now };

    fn stations(&self) -> u16 {
        counted(self.kinds)
    }

    fn kind(&self, station: u16) -> u8 {
        kind_at(self.kinds, station)
    }

    fn leg(&self, from: u16, to: u16) -> Option<Grade> {
        let count = self.stations();
        if from >= count || to >= count || from >= Self::ROW || to >= Self::ROW {
            return None;
        }
        let place = Self::ROW as usize * from as usize + to as usize;
        match self.bytes.get(place) {
            None | Some(0) => None,
            Some(value) => Some(Grade { value: *value }),
        }
    }
}
