// A season: a list of requests put to a newly opened atlas.
ghost use Rattle.std.specs.Prelude.{◌≡◌, min, map, length};
ghost use Rattle.atlas.specs.Answering.{WrittenFor, put_to};
ghost use Rattle.atlas.specs.Blocks.{blocks_in};
ghost use Rattle.atlas.specs.Calls.{opened, history, left_by};
ghost use Rattle.atlas.specs.Holding.{held_of, bytes_of, places_of};
ghost use Rattle.atlas.specs.Seasons.{call_of, Fulfilled, AllFulfilled, Lies, Lawfully};

use crate::Atlas;
use crate::request::{Ask, Request};
use survey::label::Label;
use survey::network::Network;

impl<'a, L: Label> Atlas<'a, L> {
    // Puts a request, and fills in its answer and its place.
    fn serve<N: Network<Label = L>>(&mut self, request: &mut Request<N>)
        ensures request { Fulfilled (put_to L.Label.sense (held_of self.old) (call_of N.Network.means request.old)).reply
            request.old request.new }
        ensures held { held_of self.new
            ≡ (put_to L.Label.sense (held_of self.old) (call_of N.Network.means request.old)).held }
        ensures written { WrittenFor (put_to L.Label.sense (held_of self.old) (call_of N.Network.means request.old)).reply
            (put_to L.Label.sense (held_of self.old) (call_of N.Network.means request.old)).held
            (bytes_of self.old) (bytes_of self.new) (places_of self.old) (places_of self.new) }
    {
        let allowance = request.allowance;
        let answer = match request.ask {
            Ask::Enter => self.enter(&request.network, allowance, &mut request.place),
            Ask::Find => self.find(&request.network, allowance, &mut request.place),
        };
        request.answer = Some(answer);
    }
}

// Opens an atlas over lent memory, puts the requests to it one after another, and fills in the answer and the place of
// each. The atlas holds what they left.
pub fn season<'a, L: Label, N: Network<Label = L>>(
    bytes: &'a mut [u8],
    places: &'a mut [L],
    requests: &mut [Request<N>],
) -> Atlas<'a, L>
    ensures requests { AllFulfilled L.Label.sense
        (history L.Label.sense (opened (blocks_in bytes.old) (min (length places.old) 250)) (map (call_of N.Network.means) requests.old))
        requests.old requests.new }
    ensures held { held_of result
        ≡ left_by L.Label.sense (opened (blocks_in bytes.old) (min (length places.old) 250)) (map (call_of N.Network.means) requests.old) }
    ensures memory { Lies (held_of result) bytes.old (bytes_of result) places.old (places_of result) }
    ensures law { Lawfully L.Label.sense N.Network.means (opened (blocks_in bytes.old) (min (length places.old) 250))
        requests.old requests.new }
{
    let mut atlas = Atlas::open(bytes, places);
    for request in requests.iter_mut() {
        atlas.serve(request);
    }
    atlas
}
