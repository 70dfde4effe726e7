// A call as a value: what is asked of an atlas, and what it answered.
use crate::answer::Answer;
use survey::pairing::Pairing;
use survey::refusal::Refusal;

// To number a network, or only to look for it. An enum and no closure, since a request is kept as a value.
#[derive(Clone, Copy, PartialEq, Eq, Debug)]
pub enum Ask {
    Enter,
    Find,
}

// A network to be entered or found with so many trials allowed, a place for the map, and the answer once there is one.
#[derive(Drop)]
pub struct Request<N> {
    pub ask: Ask,
    pub network: N,
    pub allowance: u32,
    pub place: Pairing,
    pub answer: Option<Result<Answer, Refusal>>,
}
