// A layer: the network without some of its stations.
ghost use Rattle.std.specs.Prelude.{◌≡◌, ◌<◌};
ghost use Rattle.survey.specs.Without.{taken_out, taken_below, old_station, without_means, without_bounded};

use crate::network::Network;

// A bit of the number takes out the station of that number, with its legs. The others close up in their old order.
#[derive(Drop)]
pub struct Without<N> {
    below: N,
    mask: u64,
}

// Stations from here on have no bit.
const BITS: u16 = 64;

// Whether the bit of a station is set. The mask stays a number beside the station's, here and below: the layer has it as a
// number, and a type around it would hold nothing else.
fn is_out(mask: u64, station: u16) -> bool
    requires { station < 64 }
    ensures { result ≡ taken_out mask station }
{
    (mask >> station) % 2 == 1
}

// How many stations below this one are taken out: the ones below its bit.
fn ones_below(mask: u64, station: u16) -> u16
    ensures { result ≡ taken_below mask station }
{
    if station < BITS {
        (mask & ((1 << station) - 1)).count_ones() as u16
    } else {
        mask.count_ones() as u16
    }
}

// What a station's number was among `count` stations, or `count` where it was none: past the last, where the
// network below has neither kind nor legs, so that no caller needs to tell the cases apart.
fn old_number(mask: u64, count: u16, station: u16) -> u16
    ensures { result ≡ old_station mask count station }
{
    // By a loop over numbers: the bit asks for one below 64 and the difference for one that is not negative, which the loop
    // knows and the closure of a chain would have to be told.
    for old in 0..count.min(BITS) {
        if !is_out(mask, old) && old - ones_below(mask, old) == station {
            return old;
        }
    }
    // Every station past the last bit stays, so the numbers there differ by all that are taken out.
    let old = station as u32 + ones_below(mask, count) as u32;
    old.min(count as u32) as u16
}

impl<N: Network> Without<N> {
    // The network without the stations whose bits are set.
    pub fn new(below: N, mask: u64) -> Without<N>
        ensures holds { result.below ≡ below }
        ensures takes { result.mask ≡ mask }
    {
        Without { below, mask }
    }

    // What the number of a station is in the network below, or its count where there is no such station: a rule of
    // the layer, by which such a station has neither kind nor legs.
    pub fn old_station(&self, station: u16) -> u16
        ensures { result ≡ old_station self.now.mask (N.Network.means self.now.below).count station }
    {
        old_number(self.mask, self.below.stations(), station)
    }
}

impl<N: Network> Network for Without<N> {
    type Label = N::Label;

    ghost means = { λ s. without_means s.mask (N.Network.means s.below) };

    ghost bounded = { λ s. without_bounded s.mask (N.Network.means s.below) (N.Network.bounded s.below) };

    fn stations(&self) -> u16 {
        let count = self.below.stations();
        count - ones_below(self.mask, count)
    }

    fn kind(&self, station: u16) -> u8 {
        self.below.kind(self.old_station(station))
    }

    fn leg(&self, from: u16, to: u16) -> Option<N::Label> {
        self.below.leg(self.old_station(from), self.old_station(to))
    }
}
