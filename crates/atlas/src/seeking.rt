// The forms that an atlas holds, and the search through them.
ghost use Rattle.std.specs.Prelude.{◌≡◌, ◌<◌, length};
ghost use Rattle.atlas.specs.Blocks.{form_in, no_form};
ghost use Rattle.atlas.specs.Calls.{sought_in};
ghost use Rattle.atlas.specs.Holding.{held_of, bytes_of};
ghost use Rattle.atlas.specs.Seeking.{told_sought, SoughtPlaced};
ghost use Rattle.search.specs.Meanings.{coded};

use crate::Atlas;
use crate::block::{BLOCK, read_block};
use search::answer::Answer;
use search::coded::{CodedNetwork, MOST_CODES, MOST_STATIONS};
use search::searching::search;
use survey::label::Label;
use survey::pairing::Pairing;

// What a search through the forms ends with: the first form with a map, or none, and the trials; or more trials are
// needed than are allowed. None of the three is a failure, and so it is neither an Option nor a Result.
#[derive(Clone, Copy)]
pub(crate) enum Sought {
    Found { form: u8, trials: u32 },
    Nowhere { trials: u32 },
    Spent,
}

// How many blocks are used at most.
const MOST_BLOCKS: usize = 200;

// A form of no stations.
fn no_form() -> CodedNetwork
    ensures { coded result ≡ no_form }
{
    CodedNetwork::new(0, &[0; MOST_STATIONS], &[0; MOST_CODES]).unwrap()
}

impl<'a, L: Label> Atlas<'a, L> {
    // How many forms the lent bytes have blocks for.
    pub(crate) fn blocks(&self) -> usize
        ensures { result ≡ (held_of self.now).blocks }
    {
        (self.bytes.len() / BLOCK).min(MOST_BLOCKS)
    }

    // How many forms there are.
    pub(crate) fn count(&self) -> usize
        ensures { result ≡ length (held_of self.now).forms }
    {
        self.forms.min(self.blocks())
    }

    // The form in block k.
    pub(crate) fn form(&self, k: usize) -> CodedNetwork
        requires { k < length (held_of self.now).forms }
        ensures { coded result ≡ form_in (bytes_of self.now) k }
    {
        read_block(&*self.bytes, k).unwrap_or_else(no_form)
    }

    // Searches the forms one after another for a map to the network, up to the first that has one. The place holds it
    // then, and is as before otherwise.
    pub(crate) fn seek(&self, network: &CodedNetwork, allowance: u32, place: &mut Pairing) -> Sought
        ensures answer { result
            ≡ told_sought allowance (sought_in (coded network.now) 1 (held_of self.now).forms) }
        ensures placed { SoughtPlaced (sought_in (coded network.now) 1 (held_of self.now).forms) result
            place.old place.new }
    {
        let mut trials = 0;
        // Each form is read out of its block by its number: there is no slice of forms to go over.
        for k in 0..self.count() {
            let form = self.form(k);
            match search(&form, network, allowance - trials, place) {
                Answer::Map { trials: more } => {
                    return Sought::Found {
                        form: k as u8 + 1,
                        trials: trials + more,
                    };
                }
                Answer::NoMap { trials: more } => trials += more,
                Answer::Spent => return Sought::Spent,
            }
        }
        Sought::Nowhere { trials }
    }
}
