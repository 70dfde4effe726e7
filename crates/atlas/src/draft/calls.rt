// Reading a network against a legend, and what its draft is asked.
ghost use Rattle.std.specs.Prelude.{◌≡◌, ◌≤◌, not, [], ◌∷◌, ◌++◌, length, if◌then◌else◌, is_ok, OnOk, ◌==◌, nat_le, nat_lt};
ghost use Rattle.std.specs.List.{range_with_len};
ghost use Rattle.atlas.specs.Drafts.{net_of, labels_with, most_labels, Completes, Reads};
ghost use Rattle.atlas.specs.FirstLegs.{labels_on, Behind};
ghost use Rattle.atlas.specs.Legends.{full_legend, has_sense, number_of, noted, noted_row};
ghost use Rattle.atlas.specs.Lent.{labels_of, room_of};

use crate::draft::Draft;
use crate::legend::{Legend, NoPlace};
use crate::reader::read_stations;
use arrayvec::ArrayVec;
use survey::label::Label;
use survey::network::Network;
use survey::refusal::Refusal;

impl<'a, N: Network> Draft<'a, N> {
    // Reads a network against a legend where so many missing labels find places; none where they are more.
    pub(crate) fn read(
        net: &'a N,
        legend: &Legend<'_, N::Label>,
        most: usize,
    ) -> Result<Option<Draft<'a, N>>, Refusal>
        requires { most ≤ 250 }
        ensures { Reads (N.Network.means net.now) legend.now most result }
    {
        let stations = read_stations(net)?;
        let mut draft = Draft {
            net,
            stations,
            legs: ArrayVec::new(),
            most,
        };
        match draft.note_all(legend) {
            Ok(()) => Ok(Some(draft)),
            Err(NoPlace) => Ok(None),
        }
    }

    // Whether the legend lacks a label.
    pub(crate) fn has_missing(&self) -> bool
        ensures { not result ≡ (length self.now.legs.items == 0) }
    {
        !self.legs.is_empty()
    }

    // Whether there is a leg between two stations, with a label of this label's sense.
    fn leads(&self, u: u16, v: u16, label: &N::Label) -> bool
        ensures { result ≡ has_sense N.Label.Label.sense label.now ((net_of self.now).leg u v) }
    {
        // tried: `is_some_and`; what its closure gives stayed unknown to the proof.
        match self.net.leg(u, v) {
            Some(held) => label.same(&held),
            None => false,
        }
    }

    // Whether a noted leg has the label's sense.
    fn has(&self, label: &N::Label) -> bool
        ensures { not result
            ≡ (number_of N.Label.Label.sense (labels_on (net_of self.now).leg self.now.legs.items) label.now == 0) }
    {
        self.legs.iter().any(|&(u, v)| self.leads(u, v, label))
    }

    // Here and in the two functions below it is said what of a draft stays: it is lent whole to be noted in.
    // Notes a leg where neither the legend nor the noted legs have its label's sense, if there is a place for it.
    fn note(&mut self, legend: &Legend<'_, N::Label>, u: u16, v: u16) -> Result<(), NoPlace>
        ensures fits { is_ok result
            ≡ nat_le (length (noted N.Label.Label.sense (labels_with self.old legend.now) ((net_of self.old).leg u v)))
            (most_labels self.old legend.now) }
        ensures labels { OnOk result (labels_with self.new legend.now
            ≡ noted N.Label.Label.sense (labels_with self.old legend.now) ((net_of self.old).leg u v)) }
        ensures net { net_of self.new ≡ net_of self.old }
        ensures most { self.new.most ≡ self.old.most }
    {
        let Some(label) = self.net.leg(u, v) else {
            return Ok(());
        };
        if legend.number(&label) != 0 || self.has(&label) {
            return Ok(());
        }
        if self.legs.len() == self.most {
            return Err(NoPlace);
        }
        self.legs.push((u, v));
        Ok(())
    }

    // Notes the legs from one station.
    fn note_row(&mut self, legend: &Legend<'_, N::Label>, u: u16) -> Result<(), NoPlace>
        ensures fits { is_ok result
            ≡ nat_le (length (noted_row N.Label.Label.sense ((net_of self.old).leg u) (range_with_len 0 (net_of self.old).count)
            (labels_with self.old legend.now))) (most_labels self.old legend.now) }
        ensures labels { OnOk result (labels_with self.new legend.now
            ≡ noted_row N.Label.Label.sense ((net_of self.old).leg u) (range_with_len 0 (net_of self.old).count)
            (labels_with self.old legend.now)) }
        ensures net { net_of self.new ≡ net_of self.old }
        ensures most { self.new.most ≡ self.old.most }
    {
        // By number: a network is asked for its legs, and has no list of them.
        for v in 0..self.stations {
            self.note(legend, u, v)?;
        }
        Ok(())
    }

    // Notes every leg of the network, from station to station in rising order, if all missing labels find a place.
    fn note_all(&mut self, legend: &Legend<'_, N::Label>) -> Result<(), NoPlace>
        ensures fits { is_ok result
            ≡ nat_le (length (full_legend N.Label.Label.sense (net_of self.old) (labels_with self.old legend.now)))
            (most_labels self.old legend.now) }
        ensures labels { OnOk result (labels_with self.new legend.now
            ≡ full_legend N.Label.Label.sense (net_of self.old) (labels_with self.old legend.now)) }
        ensures net { net_of self.new ≡ net_of self.old }
        ensures most { self.new.most ≡ self.old.most }
    {
        // By number, as the legs of a row.
        for u in 0..self.stations {
            self.note_row(legend, u)?;
        }
        Ok(())
    }

    // Adds the labels of the noted legs to the legend, in the order in which they were noted. It has places for them.
    pub(crate) fn join(&self, legend: &mut Legend<'_, N::Label>)
        requires { length (labels_with self.now legend.old) ≤ room_of legend.old }
        ensures labels { labels_of legend.new ≡ labels_with self.now legend.old }
        ensures room { room_of legend.new ≡ room_of legend.old }
        ensures others { Behind (length (labels_of legend.new)) legend.old.places.now
            legend.new.places.now }
    {
        // By place, so that the must-fail edit turns the order and nothing else: over an iterator it would be refused for
        // the iterator's type.
        for i in 0..self.legs.len() {
            let (u, v) = self.legs[i];
            if let Some(label) = self.net.leg(u, v) {
                legend.add(label).unwrap();
            }
        }
    }
}
