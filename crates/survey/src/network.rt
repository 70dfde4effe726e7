// The interface of every network: three questions, and what they are to tell.
ghost use Rattle.std.specs.Prelude.{◌≡◌};
ghost use Rattle.survey.specs.Networks.{Net, Bounded};

use crate::label::Label;

// A network of stations and directed legs. Stations are numbered from 0.
pub trait Network {
    // The one kind of label that the legs carry.
    type Label: Label;

    // What the network means: how many stations, the kind of each, the leg of each ordered pair.
    ghost means: { Self → Net Self.Label };

    // The law that each network shows: at most 65,535 stations, kinds of one byte, and nothing past the last station.
    ghost bounded: { (x : Self) → Bounded (means x) };

    // How many stations there are.
    fn stations(&self) -> u16
        ensures { result ≡ (means self.now).count };

    // The kind of a station, 0 for one that is not there.
    fn kind(&self, station: u16) -> u8
        ensures { result ≡ (means self.now).kind station };

    // The label of the leg between two stations, or none. They are two numbers and no type of their own, as the subject
    // speaks of them: any two may be asked for, and nothing holds of a pair.
    fn leg(&self, from: u16, to: u16) -> Option<Self::Label>
        ensures { result ≡ (means self.now).leg from to };
}
