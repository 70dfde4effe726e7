// A layer: every leg can be gone both ways.
ghost use Rattle.std.specs.Prelude.{◌≡◌};
ghost use Rattle.survey.specs.Layers.{both_ways_means, both_ways_bounded, MapsBothWays};

use crate::label::Label;
use crate::network::Network;

// The leg from one station to another is the one of the network below; if there is none, it is the turned leg back.
#[derive(Drop)]
pub struct BothWays<N> {
    below: N,
}

impl<N: Network> BothWays<N> {
    // The layer over a network. Maps of the network are maps of the layer.
    pub fn new(below: N) -> BothWays<N>
        ensures holds { result.below ≡ below }
        ensures mapped { MapsBothWays N.Label.Label.turned N.Label.Label.sense (N.Network.means below) }
    {
        BothWays { below }
    }
}

impl<N: Network> Network for BothWays<N> {
    type Label = N::Label;

    ghost means = { λ s. both_ways_means N.Label.Label.turned (N.Network.means s.below) };

    ghost bounded = { λ s. both_ways_bounded N.Label.Label.turned (N.Network.means s.below) (N.Network.bounded s.below) };

    // Stations and kinds are passed on, as in the layer that only turns.
    fn stations(&self) -> u16 {
        self.below.stations()
    }

    fn kind(&self, station: u16) -> u8 {
        self.below.kind(station)
    }

    fn leg(&self, from: u16, to: u16) -> Option<N::Label> {
        self.below
            .leg(from, to)
            .or_else(|| self.below.leg(to, from).map(|label| label.turn()))
    }
}
