// The atlas: networks of one form have one number.
#![tactic(auto)]

ghost use Rattle.atlas.specs.Worked.{Worked};

use legend::Legend;

pub mod answer;
pub mod block;
pub mod classing;
mod draft;
pub mod entering;
pub mod finding;
pub mod law;
pub mod legend;
pub mod opening;
pub mod reader;
pub mod request;
pub mod season;
mod seeking;
mod storing;

// The forms that were numbered, in the first blocks of lent bytes, and the legend that they are coded by. A count beyond
// the blocks counts as all of them, and a block that cannot be searched as a form of no stations. The bytes are lent,
// since nothing is allocated here, so the number of forms stands beside them.
#[derive(Drop)]
pub struct Atlas<'a, L> {
    bytes: &'a mut [u8],
    legend: Legend<'a, L>,
    forms: usize,
}

// Networks that can be worked by hand come out as the rules say.
pub fn worked()
    ensures { Worked }
{}
