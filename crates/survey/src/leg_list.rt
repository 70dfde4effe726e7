// Networks given as a list of legs.
ghost use Rattle.std.specs.Prelude.{◌≡◌};
ghost use Rattle.survey.specs.Bounds.{list_bounded};
ghost use Rattle.survey.specs.Sources.{list_means, first_record};

use crate::kinds::{counted, kind_at};
use crate::label::Label;
use crate::network::Network;

// A record of a leg: the stations that it leads between, and its label.
#[derive(Clone, Copy, PartialEq, Eq, Debug)]
pub struct Leg<L> {
    pub from: u16,
    pub to: u16,
    pub label: L,
}

// A network over lent kinds, one for each station, and lent records. The first record for a pair of stations counts.
#[derive(Drop)]
pub struct LegList<'a, L> {
    kinds: &'a [u8],
    legs: &'a [Leg<L>],
}

impl<'a, L: Label> LegList<'a, L> {
    // The network of these kinds and records.
    pub fn new(kinds: &'a [u8], legs: &'a [Leg<L>]) -> LegList<'a, L>
        ensures { list_means result.kinds.now result.legs.now ≡ list_means kinds.now legs.now }
    {
        LegList { kinds, legs }
    }
}

// The label of the first record that leads from one station to the other.
fn first_record_of<L: Label>(legs: &[Leg<L>], from: u16, to: u16) -> Option<L>
    ensures { result ≡ first_record legs.now from to }
{
    for record in legs {
        if record.from == from && record.to == to {
            return Some(record.label);
        }
    }
    None
}

impl<'a, L: Label> Network for LegList<'a, L> {
    type Label = L;

    ghost means = { λ s. list_means s.kinds.now s.legs.now };

    ghost bounded = { λ s. list_bounded s.kinds.now s.legs.now };

    fn stations(&self) -> u16 {
        counted(self.kinds)
    }

    fn kind(&self, station: u16) -> u8 {
        kind_at(self.kinds, station)
    }

    fn leg(&self, from: u16, to: u16) -> Option<L> {
        let count = self.stations();
        if from < count && to < count {
            first_record_of(self.legs, from, to)
        } else {
            None
        }
    }
}
