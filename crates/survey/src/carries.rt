// Whether a pairing is a map between two networks.
ghost use Rattle.std.specs.Prelude.{◌≡◌, Decides};
ghost use Rattle.std.specs.Option.{option_map};
ghost use Rattle.survey.specs.Carrying.{KeepsKinds, KeepsLegsFrom, KeepsLegs, Carries, GoesBack, MapsBack, MapsCompose};

use crate::label::Label;
use crate::network::Network;
use crate::pairing::Pairing;

// Whether there is a leg in both or in neither, with labels of one sense.
fn alike<L: Label>(a: Option<L>, b: Option<L>) -> bool
    ensures { Decides result (option_map L.Label.sense a ≡ option_map L.Label.sense b) }
{
    match (a, b) {
        (Some(x), Some(y)) => x.same(&y),
        (None, None) => true,
        _ => false,
    }
}

// The two networks stay two parameters: the facts decided here are of a pairing and two networks, and through a struct of
// the three each clause would only be longer.
impl Pairing {
    // Whether the kinds of the first network's stations are those of their images.
    fn keeps_kinds<G: Network, H: Network<Label = G::Label>>(&self, g: &G, h: &H) -> bool
        ensures { Decides result
            (KeepsKinds self.now (G.Network.means g.now)
            (H.Network.means h.now)) }
    {
        for (u, image) in self.images().iter().enumerate() {
            if h.kind(*image as u16) != g.kind(u as u16) {
                return false;
            }
        }
        true
    }

    // Whether the legs from one station are those of the images.
    fn keeps_legs_from<G: Network, H: Network<Label = G::Label>>(
        &self,
        g: &G,
        h: &H,
        u: u16,
        to: u16,
    ) -> bool
        ensures { Decides result
            (KeepsLegsFrom G.Label.Label.sense self.now (G.Network.means g.now)
            (H.Network.means h.now) u to) }
    {
        for (v, image) in self.images().iter().enumerate() {
            if !alike(h.leg(to, *image as u16), g.leg(u, v as u16)) {
                return false;
            }
        }
        true
    }

    // Whether the legs between any two stations are those between their images.
    fn keeps_legs<G: Network, H: Network<Label = G::Label>>(&self, g: &G, h: &H) -> bool
        ensures { Decides result
            (KeepsLegs G.Label.Label.sense self.now (G.Network.means g.now)
            (H.Network.means h.now)) }
    {
        for (u, image) in self.images().iter().enumerate() {
            if !self.keeps_legs_from(g, h, u as u16, *image as u16) {
                return false;
            }
        }
        true
    }

    // Whether this pairing carries the first network onto the second: it has their stations, and keeps every kind
    // and every leg by its sense. Its reverse then carries the second onto the first, and maps compose.
    pub fn carries<G: Network, H: Network<Label = G::Label>>(&self, g: &G, h: &H) -> bool
        ensures decides { Decides result
            (Carries G.Label.Label.sense self.now (G.Network.means g.now)
            (H.Network.means h.now)) }
        ensures reversed { GoesBack G.Label.Label.sense self.now
            (G.Network.means g.now) (H.Network.means h.now) }
        ensures back { MapsBack G.Label.Label.sense (G.Network.means g.now)
            (H.Network.means h.now) }
        ensures compose { MapsCompose G.Label.Label.sense (G.Network.means g.now)
            (H.Network.means h.now) }
    {
        let count = self.count() as u16;
        if g.stations() != count || h.stations() != count {
            return false;
        }
        if !self.keeps_kinds(g, h) {
            return false;
        }
        self.keeps_legs(g, h)
    }
}
