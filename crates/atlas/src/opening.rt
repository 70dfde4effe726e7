// Opening an atlas over lent memory.
ghost use Rattle.std.specs.Prelude.{◌≡◌, min, length};
ghost use Rattle.atlas.specs.Blocks.{blocks_in};
ghost use Rattle.atlas.specs.Calls.{opened};
ghost use Rattle.atlas.specs.Holding.{held_of, bytes_of, places_of};

use crate::Atlas;
use crate::legend::Legend;
use survey::label::Label;

impl<'a, L: Label> Atlas<'a, L> {
    // An atlas with no forms and an empty legend over lent bytes and label places. Nothing is written.
    pub fn open(bytes: &'a mut [u8], places: &'a mut [L]) -> Atlas<'a, L>
        ensures held { held_of result ≡ opened (blocks_in bytes.old) (min (length places.old) 250) }
        ensures bytes { bytes_of result ≡ bytes.old }
        ensures places { places_of result ≡ places.old }
    {
        Atlas {
            bytes,
            legend: Legend::new(places),
            forms: 0,
        }
    }
}
