// A sheet of readings: a list of legs as they were read, with layers over it.
//
//     LAYERS KINDS LEG LEG ..
//
// LAYERS is `-` for none, or one or two of `turned`, `both` and `without=MASK`, the lower first, with a comma between
// them. KINDS has two hex digits for each station, or is `-` for no stations. A LEG is FROM,TO,LENGTH,BEARING,GRADIENT;
// its numbers may lie beyond the ranges of a reading, and several legs may lead from one station to the same other.
use crate::fault::Fault;
use crate::season::{Question, Sheet};
use crate::words::{Words, parsed};
use atlas::answer::Answer;
use std::alloc::Global;
use std::str::FromStr;
use survey::both_ways::BothWays;
use survey::leg_list::{Leg, LegList};
use survey::network::Network;
use survey::reading::Reading;
use survey::refusal::Refusal;
use survey::turned::Turned;
use survey::without::Without;

// A layer by its name. An enum and no closure, since each makes a network of another type.
#[derive(Clone, Copy)]
enum Layer {
    Turned,
    BothWays,
    Without { mask: u64 },
}

// A text that names no layers.
#[derive(Clone, Copy)]
struct NoLayers;

impl FromStr for Layer {
    type Err = NoLayers;

    fn from_str(text: &str) -> Result<Layer, NoLayers> {
        match text {
            "turned" => Ok(Layer::Turned),
            "both" => Ok(Layer::BothWays),
            _ => {
                let mask = parsed(text.strip_prefix("without=")).ok_or(NoLayers)?;
                Ok(Layer::Without { mask })
            }
        }
    }
}

// At most two layers: the lower lies on the list, the upper on the lower. Each layer makes a network of another type, so
// that a list of any length would be of endless types.
#[derive(Clone, Copy)]
enum Layers {
    None,
    One(Layer),
    Two { lower: Layer, upper: Layer },
}

impl FromStr for Layers {
    type Err = NoLayers;

    fn from_str(text: &str) -> Result<Layers, NoLayers> {
        if text == "-" {
            return Ok(Layers::None);
        }
        match text.split_once(',') {
            None => Ok(Layers::One(text.parse()?)),
            Some((lower, upper)) => Ok(Layers::Two {
                lower: lower.parse()?,
                upper: upper.parse()?,
            }),
        }
    }
}

// Puts a network to the atlas through one layer.
fn put_through<N: Network<Label = Reading>>(
    net: N,
    layer: Layer,
    question: Question<'_, '_, Reading>,
) -> Result<Answer, Refusal>
where
    N: Drop,
{
    match layer {
        Layer::Turned => question.put(&Turned::new(net)),
        Layer::BothWays => question.put(&BothWays::new(net)),
        Layer::Without { mask } => question.put(&Without::new(net, mask)),
    }
}

// Puts a list of legs to the atlas through two layers.
fn put_through_both(
    list: LegList<'_, Reading>,
    lower: Layer,
    upper: Layer,
    question: Question<'_, '_, Reading>,
) -> Result<Answer, Refusal> {
    match lower {
        Layer::Turned => put_through(Turned::new(list), upper, question),
        Layer::BothWays => put_through(BothWays::new(list), upper, question),
        Layer::Without { mask } => put_through(Without::new(list, mask), upper, question),
    }
}

#[derive(Drop)]
pub struct ReadingSheet {
    layers: Layers,
    kinds: Vec<u8>,
    legs: Vec<Leg<Reading>>,
}

fn read_leg(text: &str) -> Option<Leg<Reading>> {
    let mut numbers = text.split(',');
    Some(Leg {
        from: parsed(numbers.next())?,
        to: parsed(numbers.next())?,
        label: Reading {
            length: parsed(numbers.next())?,
            bearing: parsed(numbers.next())?,
            gradient: parsed(numbers.next())?,
        },
    })
}

fn read_legs(heap: Global, words: Words<'_>) -> Result<Vec<Leg<Reading>>, Fault> {
    let line = words.line();
    let mut legs = Vec::new(heap);
    for text in words.rest() {
        legs.push(read_leg(text).ok_or(Fault::Unreadable { line })?)?;
    }
    Ok(legs)
}

impl Sheet for ReadingSheet {
    type Label = Reading;

    fn read(heap: Global, mut words: Words<'_>) -> Result<ReadingSheet, Fault> {
        let layers = words.parse::<Layers>()?;
        let kinds = words.bytes(heap)?;
        let legs = read_legs(heap, words)?;
        Ok(ReadingSheet {
            layers,
            kinds,
            legs,
        })
    }

    fn put(&self, question: Question<'_, '_, Reading>) -> Result<Answer, Refusal> {
        let list = LegList::new(&self.kinds, &self.legs);
        match self.layers {
            Layers::None => question.put(&list),
            Layers::One(layer) => put_through(list, layer, question),
            Layers::Two { lower, upper } => put_through_both(list, lower, upper, question),
        }
    }
}
