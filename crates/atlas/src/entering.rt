// Entering a network into an atlas.
ghost use Rattle.std.specs.Prelude.{◌≤◌, length};
ghost use Rattle.atlas.specs.Answering.{Carried, KeepsLaw, entering, put_to, unmet};
ghost use Rattle.atlas.specs.Drafts.{net_of, Completes};
ghost use Rattle.atlas.specs.Holding.{held_of};
ghost use Rattle.atlas.specs.Legends.{full_legend};
ghost use Rattle.atlas.specs.Lent.{labels_of};
ghost use Rattle.survey.specs.declared.pairing.Pairing.{Pairing as APairing};

use crate::Atlas;
use crate::answer::Answer;
use crate::draft::Draft;
use crate::seeking::Sought;
use survey::label::Label;
use survey::network::Network;
use survey::pairing::Pairing;
use survey::refusal::Refusal;

impl<'a, L: Label> Atlas<'a, L> {
    // Numbers a network to which no form has a map, as so many trials showed: its missing labels join the legend, and
    // it is written into the next block. Refused where no block is free. The legend has places for the labels.
    fn number<N: Network<Label = L>>(
        &mut self,
        draft: &Draft<'_, N>,
        trials: u32,
    ) -> Result<Answer, Refusal>
        requires complete { Completes draft.now self.old.legend }
        requires places { length (full_legend L.Label.sense (net_of draft.now) (labels_of self.old.legend)) ≤ (held_of self.old).places }
        ensures { (p : APairing) → Carried L.Label.sense
            (unmet L.Label.sense (held_of self.old) (net_of draft.now) trials)
            result p p self.old self.new }
    {
        if self.count() == self.blocks() {
            return Err(Refusal::AtlasFull);
        }
        draft.join(&mut self.legend);
        let form = draft.coded(&self.legend);
        self.store(&form);
        Ok(Answer::New {
            form: self.count() as u8,
            trials,
        })
    }

    // Numbers a network with so many trials allowed: by the form that has a map to it, which the place then holds, or
    // by the next number. Where it is neither known nor new, nothing is written, and the place is as before.
    pub fn enter<N: Network<Label = L>>(
        &mut self,
        net: &N,
        allowance: u32,
        place: &mut Pairing,
    ) -> Result<Answer, Refusal>
        ensures carried { Carried L.Label.sense
            (put_to L.Label.sense (held_of self.old) (entering (N.Network.means net.now) allowance))
            result place.old place.new self.old self.new }
        ensures law { KeepsLaw L.Label.sense (held_of self.old) (entering (N.Network.means net.now) allowance)
            result place.old place.new }
    {
        let free = self.legend.free();
        let Some(draft) = Draft::read(net, &self.legend, free)? else {
            return Err(Refusal::LegendFull);
        };
        if draft.has_missing() {
            // The legend lacks a sense, so no form has it.
            return self.number(&draft, 0);
        }
        let network = draft.coded(&self.legend);
        match self.seek(&network, allowance, place) {
            Sought::Found { form, trials } => Ok(Answer::Known { form, trials }),
            Sought::Nowhere { trials } => self.number(&draft, trials),
            Sought::Spent => Ok(Answer::Spent { trials: allowance }),
        }
    }
}
