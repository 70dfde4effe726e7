// What a legend is asked.
ghost use Rattle.std.specs.Prelude.{◌≡◌, ◌-◌, min, cond, [], ◌∷◌, ◌++◌, length, if◌then◌else◌, is_ok, nat_lt, slice_set};
ghost use Rattle.atlas.specs.Legends.{number_of};
ghost use Rattle.atlas.specs.Lent.{labels_of, room_of};

use crate::legend::{Legend, MOST_LABELS, NoPlace};
use survey::label::Label;

impl<'a, L: Label> Legend<'a, L> {
    // An empty legend over lent places.
    pub fn new(places: &'a mut [L]) -> Legend<'a, L>
        ensures none { labels_of result ≡ [] }
        ensures room { room_of result ≡ min (length places.old) 250 }
        ensures lent { result.places.now ≡ places.old }
    {
        Legend { places, len: 0 }
    }

    // How many labels it has.
    pub fn len(&self) -> usize
        ensures { result ≡ length (labels_of self.now) }
    {
        self.len
    }

    // How many more labels find a place.
    pub fn free(&self) -> usize
        ensures { result ≡ room_of self.now - length (labels_of self.now) }
    {
        self.places.len().min(MOST_LABELS) - self.len
    }

    // Its labels, in order.
    fn labels(&self) -> &[L]
        ensures { result.now ≡ labels_of self.now }
    {
        &self.places[..self.len]
    }

    // The number of a label's sense, from 1, and 0 where it is lacking: a byte, since it is the code of a leg.
    pub fn number(&self, label: &L) -> u8
        ensures { result ≡ number_of L.Label.sense (labels_of self.now) label.now }
    {
        match self.labels().iter().position(|held| label.same(held)) {
            Some(i) => i as u8 + 1,
            None => 0,
        }
    }

    // Adds a label at the end, if there is a place for it.
    pub fn add(&mut self, label: L) -> Result<(), NoPlace>
        ensures place { is_ok result ≡ nat_lt (length (labels_of self.old)) (room_of self.old) }
        ensures labels { labels_of self.new
            ≡ (if is_ok result then labels_of self.old ++ label ∷ [] else labels_of self.old) }
        ensures room { room_of self.new ≡ room_of self.old }
        ensures others { self.new.places.now
            ≡ cond (is_ok result) (slice_set self.old.places.now (length (labels_of self.old)) label)
            self.old.places.now }
    {
        if self.free() == 0 {
            return Err(NoPlace);
        }
        self.places[self.len] = label;
        self.len += 1;
        Ok(())
    }
}
