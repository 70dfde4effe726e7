// New forms: each is written into the next block.
ghost use Rattle.std.specs.Prelude.{◌≡◌, ℕ, ◌*◌, ◌<◌, length};
ghost use Rattle.atlas.specs.Blocks.{block_coded, trimmed, Kept};
ghost use Rattle.atlas.specs.Holding.{held_of, bytes_of, places_of, with_coded};
ghost use Rattle.search.specs.Meanings.{coded as coded_network};

use crate::Atlas;
use crate::block::write_block;
use search::coded::CodedNetwork;
use survey::label::Label;

impl<'a, L: Label> Atlas<'a, L> {
    // Writes one more form into the next block, which is free. The kinds of its stations are bytes, and it has nothing
    // past its last station.
    pub(crate) fn store(&mut self, form: &CodedNetwork)
        requires free { length (held_of self.old).forms < (held_of self.old).blocks }
        requires kinds { (u : ℕ) → u < (coded_network form.now).count → (coded_network form.now).kind u < 256 }
        requires trimmed { trimmed (coded_network form.now) ≡ coded_network form.now }
        ensures held { held_of self.new ≡ with_coded (held_of self.old) (coded_network form.now) }
        ensures length { length (bytes_of self.new) ≡ length (bytes_of self.old) }
        ensures block { block_coded (bytes_of self.new) (length (held_of self.old).forms) ≡ coded_network form.now }
        ensures others { Kept (4161 * length (held_of self.old).forms) 4161 (bytes_of self.old) (bytes_of self.new) }
        ensures places { places_of self.new ≡ places_of self.old }
    {
        let next = self.count();
        write_block(&mut *self.bytes, next, form);
        self.forms = next + 1;
    }
}
