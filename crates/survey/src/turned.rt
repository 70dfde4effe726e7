// A layer: the network as it is read from the far end of every leg.
ghost use Rattle.std.specs.Prelude.{◌≡◌};
ghost use Rattle.survey.specs.Layers.{turned_means, turned_bounded, TurnsBack, MapsTurned};

use crate::label::Label;
use crate::network::Network;

// The leg from one station to another is the turned leg back, of the network below.
#[derive(Drop)]
pub struct Turned<N> {
    below: N,
}

impl<N: Network> Turned<N> {
    // The layer over a network. Turned twice it has the senses of the network, and maps of the network are maps of the layer.
    pub fn new(below: N) -> Turned<N>
        ensures holds { result.below ≡ below }
        ensures back { TurnsBack N.Label.Label.turned N.Label.Label.sense (N.Network.means below) }
        ensures mapped { MapsTurned N.Label.Label.turned N.Label.Label.sense (N.Network.means below) }
    {
        Turned { below }
    }
}

impl<N: Network> Network for Turned<N> {
    type Label = N::Label;

    ghost means = { λ s. turned_means N.Label.Label.turned (N.Network.means s.below) };

    ghost bounded = { λ s. turned_bounded N.Label.Label.turned (N.Network.means s.below) (N.Network.bounded s.below) };

    // Stations and kinds are passed on as in the other layer: a trait of layers would ask for the network below in place of
    // these two lines.
    fn stations(&self) -> u16 {
        self.below.stations()
    }

    fn kind(&self, station: u16) -> u8 {
        self.below.kind(station)
    }

    fn leg(&self, from: u16, to: u16) -> Option<N::Label> {
        self.below.leg(to, from).map(|label| label.turn())
    }
}
