// Networks of several sources in one list.
ghost use Rattle.survey.specs.Eithers.{either_means, either_bounded};

use crate::network::Network;

// A network of one source or of another that carries the same kind of label. It is no failure beside a success, and so no
// `Result`; with the library's type of this name the same three questions would be passed on, by a macro.
#[derive(Drop)]
pub enum Either<A, B> {
    Left(A),
    Right(B),
}

impl<A: Network, B: Network<Label = A::Label>> Network for Either<A, B> {
    type Label = A::Label;

    ghost means = { either_means A.Network.means B.Network.means };

    ghost bounded = { either_bounded A.Network.means B.Network.means A.Network.bounded B.Network.bounded };

    fn stations(&self) -> u16 {
        match self {
            Either::Left(net) => net.stations(),
            Either::Right(net) => net.stations(),
        }
    }

    fn kind(&self, station: u16) -> u8 {
        match self {
            Either::Left(net) => net.kind(station),
            Either::Right(net) => net.kind(station),
        }
    }

    fn leg(&self, from: u16, to: u16) -> Option<A::Label> {
        match self {
            Either::Left(net) => net.leg(from, to),
            Either::Right(net) => net.leg(from, to),
        }
    }
}
