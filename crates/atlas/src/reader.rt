// Reading a network: which networks an atlas takes.
ghost use Rattle.std.specs.Prelude.{◌≡◌};
ghost use Rattle.std.specs.List.{range_with_len};
ghost use Rattle.atlas.specs.Calls.{first_loop};
ghost use Rattle.atlas.specs.Readings.{stations_read};

use search::coded;
use survey::network::Network;
use survey::refusal::Refusal;

// The most stations that a network may have here.
pub const MOST_STATIONS: u16 = coded::MOST_STATIONS as u16;

// The lowest of the first stations that has a leg to itself.
fn lowest_loop<N: Network>(net: &N, count: u16) -> Option<u16>
    ensures { result ≡ first_loop N.Label.Label.sense (N.Network.means net.now) (range_with_len 0 count) }
{
    (0..count).find(|&u| net.leg(u, u).is_some())
}

// How many stations the network has; refused where it has none, more than 64, or one with a leg to itself.
pub fn read_stations<N: Network>(net: &N) -> Result<u16, Refusal>
    ensures { result ≡ stations_read N.Label.Label.sense (N.Network.means net.now) }
{
    let count = net.stations();
    if count == 0 {
        return Err(Refusal::NoStations);
    }
    if count > MOST_STATIONS {
        return Err(Refusal::TooManyStations);
    }
    match lowest_loop(net, count) {
        Some(u) => Err(Refusal::LegToItself { station: u as u8 }),
        None => Ok(count),
    }
}
