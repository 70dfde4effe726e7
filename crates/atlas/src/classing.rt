// Stations of a form that cannot be told apart.
ghost use Rattle.std.specs.Prelude.{◌≡◌};
ghost use Rattle.atlas.specs.Classing.{class_told, CarriedOnto};
ghost use Rattle.atlas.specs.Holding.{held_of};

use crate::Atlas;
use survey::label::Label;
use survey::refusal::Refusal;

impl<'a, L: Label> Atlas<'a, L> {
    // The class of a station of the form with this number, as bits: a map of the form to itself carries each of its
    // stations onto the one that is asked for. Refused where there is no such form, or no such station in it.
    pub fn classes(&self, form: u8, station: u16) -> Result<u64, Refusal>
        ensures class { result ≡ class_told (held_of self.now).forms form station }
        ensures symmetric { CarriedOnto (held_of self.now).forms form station result }
    {
        if form == 0 || form as usize > self.count() {
            return Err(Refusal::NoSuchForm);
        }
        let network = self.form(form as usize - 1);
        let class = network.classes().class_of(station as usize);
        // The bits have a name, so that the must-fail edit turns what is told of them and not how they are looked up.
        let bits = class.ok_or(Refusal::NoSuchStation)?;
        Ok(bits)
    }
}
