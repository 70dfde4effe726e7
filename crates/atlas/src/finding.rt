// Looking for a network in an atlas.
ghost use Rattle.atlas.specs.Answering.{Says, KeepsLaw, finding, put_to};
ghost use Rattle.atlas.specs.Holding.{held_of};

use crate::Atlas;
use crate::answer::Answer;
use crate::draft::Draft;
use crate::seeking::Sought;
use survey::label::Label;
use survey::network::Network;
use survey::pairing::Pairing;
use survey::refusal::Refusal;

impl<'a, L: Label> Atlas<'a, L> {
    // Looks for the form of a network with so many trials allowed. The place holds the map from the form to the
    // network where it is known, and is as before otherwise.
    pub fn find<N: Network<Label = L>>(
        &self,
        net: &N,
        allowance: u32,
        place: &mut Pairing,
    ) -> Result<Answer, Refusal>
        ensures answer { Says (put_to L.Label.sense (held_of self.now) (finding (N.Network.means net.now) allowance)).reply
            result place.old place.new }
        ensures law { KeepsLaw L.Label.sense (held_of self.now) (finding (N.Network.means net.now) allowance)
            result place.old place.new }
    {
        let Some(draft) = Draft::read(net, &self.legend, 0)? else {
            // The legend lacks a sense, so no form has it.
            return Ok(Answer::Unknown { trials: 0 });
        };
        let network = draft.coded(&self.legend);
        // Known and spent are told as `enter` tells them: two lines, for which a conversion would take a contract.
        match self.seek(&network, allowance, place) {
            Sought::Found { form, trials } => Ok(Answer::Known { form, trials }),
            Sought::Nowhere { trials } => Ok(Answer::Unknown { trials }),
            Sought::Spent => Ok(Answer::Spent { trials: allowance }),
        }
    }
}
