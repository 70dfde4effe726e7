// A network that is read against a legend: the labels that the legend lacks are noted by the legs that first have them.
ghost use Rattle.std.specs.Prelude.{◌≡◌, ◌≤◌, length, Ok};
ghost use Rattle.arrayvec.specs.ArrayVec.{array_vec_len};
ghost use Rattle.atlas.specs.FirstLegs.{labels_on};
ghost use Rattle.atlas.specs.Readings.{stations_read};

use crate::legend::MOST_LABELS;
use arrayvec::ArrayVec;
use survey::network::Network;

pub mod calls;
mod coding;

// A network that can be read, how many stations it has, and a leg for each sense that a legend lacks: the first that
// has it, as the stations that it leads between. Legs are kept and not labels, since nothing bounds how large a label
// is. At most `most` of them are noted.
#[derive(Drop)]
pub(crate) struct Draft<'a, N: Network> {
    net: &'a N,
    stations: u16,
    legs: ArrayVec<(u16, u16), MOST_LABELS>,
    most: usize,
    ghost read: { stations_read N.Label.Label.sense (N.Network.means net.now) ≡ Ok stations },
    ghost there: { length (labels_on (N.Network.means net.now).leg legs.items) ≡ length legs.items },
    ghost within: { array_vec_len legs ≤ most },
    ghost few: { most ≤ 250 },
}
