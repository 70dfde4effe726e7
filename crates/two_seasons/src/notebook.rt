// A party's notebook: the stations with their kinds, and the legs as they were read.
use crate::mistake::Wrong;
use crate::written::{Written, number};
use std::alloc::Global;
use std::iter;
use survey::label::Label;
use survey::leg_list::{Leg, LegList};
use survey::word::kind_of;

#[derive(Drop)]
pub struct Notebook<L> {
    kinds: Vec<u8>,
    legs: Vec<Leg<L>>,
}

// Another numbering of stations: station u becomes step * u + shift, counted around.
#[derive(Clone, Copy)]
pub struct Numbering {
    pub step: u32,
    pub shift: u32,
}

impl Numbering {
    // The new number of a station, of so many.
    fn of(self, u: u16, count: u16) -> u16 {
        let moved = u32::from(u)
            .wrapping_mul(self.step)
            .wrapping_add(self.shift);
        match moved.checked_rem(u32::from(count)) {
            Some(v) => u16::try_from(v).unwrap_or(0),
            None => u,
        }
    }
}

impl<L: Written + Drop> Notebook<L> {
    pub fn new(heap: Global) -> Notebook<L> {
        Notebook {
            kinds: Vec::new(heap),
            legs: Vec::new(heap),
        }
    }

    // One station more, numbered in the order of the lines.
    pub fn add_station(&mut self, kind: &str) -> Result<(), Wrong> {
        self.kinds.push(kind_of(kind).ok_or(Wrong::NotAKind)?)?;
        Ok(())
    }

    // So many plain stations more.
    pub fn add_plain(&mut self, count: u16) -> Result<(), Wrong> {
        self.kinds.extend(iter::repeat_n(0, count as usize))?;
        Ok(())
    }

    // One leg more, with a label in the words that follow the stations.
    pub fn add_leg(&mut self, from: &str, to: &str, label: &[&str]) -> Result<(), Wrong> {
        let leg = Leg {
            from: number(from)?,
            to: number(to)?,
            label: L::read(label)?,
        };
        self.legs.push(leg)?;
        Ok(())
    }

    fn count(&self) -> u16 {
        u16::try_from(self.kinds.len()).unwrap_or(u16::MAX)
    }

    // The same series as another party wrote it down: with other station numbers, and each second leg read from its
    // far end.
    pub fn copied(&self, heap: Global, numbering: Numbering) -> Result<Notebook<L>, Wrong> {
        let count = self.count();
        let mut kinds: Vec<u8> = vec![in heap; 0; self.kinds.len()]?;
        for (u, kind) in self.kinds.iter().enumerate() {
            let u = u16::try_from(u).unwrap_or(0);
            if let Some(place) = kinds.get_mut(numbering.of(u, count) as usize) {
                *place = *kind;
            }
        }
        let mut legs = Vec::new(heap);
        for (i, leg) in self.legs.iter().enumerate() {
            let from = numbering.of(leg.from, count);
            let to = numbering.of(leg.to, count);
            let label = leg.label;
            legs.push(if i % 2 == 0 {
                Leg { from, to, label }
            } else {
                Leg {
                    from: to,
                    to: from,
                    label: label.turn(),
                }
            })?;
        }
        Ok(Notebook { kinds, legs })
    }

    pub fn kinds(&self) -> &[u8] {
        &self.kinds
    }

    pub fn legs(&self) -> &[Leg<L>] {
        &self.legs
    }

    // The network that the notebook tells of.
    pub fn network(&self) -> LegList<'_, L> {
        LegList::new(&self.kinds, &self.legs)
    }
}
