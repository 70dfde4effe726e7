// The coded network of a network: its labels by the numbers that the legend gives.
ghost use Rattle.std.specs.Prelude.{◌≡◌, ◌/◌, ◌%◌};
ghost use Rattle.atlas.specs.Drafts.{net_of};
ghost use Rattle.atlas.specs.Legends.{code_of, coded_by};
ghost use Rattle.atlas.specs.Lent.{labels_of};
ghost use Rattle.search.specs.Meanings.{coded as coded_network};

use crate::block::fill;
use crate::draft::Draft;
use crate::legend::Legend;
use search::coded::{CodedNetwork, MOST_CODES, MOST_STATIONS};
use std::array;
use survey::label::Label;
use survey::network::Network;

impl<'a, N: Network> Draft<'a, N> {
    // The kind of a station, 0 where there is no such station, as of every network; one of its own stations is a `u16`.
    fn kind(&self, u: usize) -> u16
        ensures { result ≡ (net_of self.now).kind u }
    {
        if u < self.stations as usize {
            self.net.kind(u as u16) as u16
        } else {
            0
        }
    }

    // The code of the leg between the pair of stations numbered i: the number of its label's sense, 0 for no leg. The
    // network is asked for legs between its own stations alone.
    fn code(&self, legend: &Legend<'_, N::Label>, i: usize) -> u8
        ensures { result
            ≡ code_of N.Label.Label.sense (labels_of legend.now) ((net_of self.now).leg (i / 64) (i % 64)) }
    {
        let (u, v) = (i / MOST_STATIONS, i % MOST_STATIONS);
        if u >= self.stations as usize || v >= self.stations as usize {
            return 0;
        }
        // tried: `map_or`; what its closure gives stayed unknown to the proof.
        match self.net.leg(u as u16, v as u16) {
            Some(label) => legend.number(&label),
            None => 0,
        }
    }

    // The network, coded by the legend, which has all its labels.
    pub(crate) fn coded(&self, legend: &Legend<'_, N::Label>) -> CodedNetwork
        ensures { coded_network result
            ≡ coded_by N.Label.Label.sense (labels_of legend.now) (net_of self.now) }
    {
        let kinds = array::from_fn(|u| self.kind(u));
        // tried: `from_fn` over all pairs, as for the kinds; whole seasons of calls took a quarter more time.
        let mut codes = [0; MOST_CODES];
        let rows = &mut codes[..MOST_STATIONS * self.stations as usize];
        fill(rows, |i| self.code(legend, i));
        CodedNetwork::new(self.stations as usize, &kinds, &codes).unwrap()
    }
}
