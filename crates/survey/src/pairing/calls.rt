ghost use Rattle.std.specs.Prelude.{◌≡◌, ℕ, ◌<◌, ◌≤◌, [], length, Some, None, Ok, Err, Decides, ◌≢◌, slice_index};
ghost use Rattle.survey.specs.Pairings.{size_of, image_of, images_of, OneToOneOnto, Identity, Reverses, Follows};
ghost use Rattle.survey.specs.declared.refusal.Refusal.TheVariants.{NoSuchStation, TooManyStations, CountsDiffer};
ghost use Rattle.std.specs.Cmp.{partial_equiv_from_equiv};
ghost use Rattle.std.specs.Cmp.Lexicographic.{on_texts_equal};
ghost use Rattle.std.specs.Ordering.{on};
ghost use Rattle.std.specs.Str.{bytes_eq};

use crate::pairing::{MOST, Pairing};
use crate::refusal::Refusal;
use std::array;

// Stands for the source of a station that has none yet: more than any station. Options in its place would be unwrapped one
// by one into the bytes of the pairing at the end.
const FREE: u8 = u8::MAX;

// Each station by its own number.
fn in_order() -> [u8; MOST]
    ensures { (u : ℕ) → u < 64 → slice_index result u ≡ u }
{
    array::from_fn(|u| u as u8)
}

impl Pairing {
    // The pairing of no stations.
    pub fn empty() -> Pairing
        ensures { images_of result ≡ [] }
    {
        Pairing {
            count: 0,
            images: [0; MOST],
            sources: [0; MOST],
        }
    }

    // The pairing of each station below `n` with itself.
    pub fn identity(n: usize) -> Result<Pairing, Refusal>
        ensures { elim result [ Ok p ↦ (n ≤ 64) × Identity n p | Err e ↦ (64 < n) × (e ≡ TooManyStations) ] }
    {
        if n > MOST {
            return Err(Refusal::TooManyStations);
        }
        let images = in_order();
        Ok(Pairing {
            count: n,
            images,
            sources: images,
        })
    }

    // The pairing with these images, or none where they are too many or not those of a pairing.
    pub fn from_images(images: &[u8]) -> Option<Pairing>
        ensures { elim result [
          | Some p ↦ images_of p ≡ images.now
          | None ↦ (length images.now ≤ 64 → OneToOneOnto images.now → ⊥)
        ] }
    {
        let count = images.len();
        if count > MOST {
            return None;
        }
        let mut paired = [0; MOST];
        let mut sources = [FREE; MOST];
        for (u, image) in images.iter().enumerate() {
            let v = *image as usize;
            if v >= count || sources[v] != FREE {
                return None;
            }
            paired[u] = *image;
            sources[v] = u as u8;
        }
        Some(Pairing {
            count,
            images: paired,
            sources,
        })
    }

    pub fn count(&self) -> usize
        ensures value { result ≡ size_of self.now }
        ensures within { result ≤ 64 }
    {
        self.count
    }

    // The images of the stations in order, read in place; they are one-to-one and onto.
    pub fn images(&self) -> &[u8]
        ensures list { result.now ≡ images_of self.now }
        ensures law { OneToOneOnto (images_of self.now) }
    {
        &self.images[0..self.count]
    }

    pub fn image(&self, u: usize) -> Result<u8, Refusal>
        ensures { elim result [
          | Ok v ↦ (u < size_of self.now) × (v ≡ image_of self.now u)
          | Err e ↦ (size_of self.now ≤ u) × (e ≡ NoSuchStation)
        ] }
    {
        if u < self.count {
            Ok(self.images[u])
        } else {
            Err(Refusal::NoSuchStation)
        }
    }

    // The pairing that leads back.
    pub fn reversed(&self) -> Pairing
        ensures { Reverses self.now result }
    {
        Pairing {
            count: self.count,
            images: self.sources,
            sources: self.images,
        }
    }

    // This pairing followed by another: a station goes to the other's image of its image.
    pub fn then(&self, other: &Pairing) -> Result<Pairing, Refusal>
        ensures { elim result [
          | Ok p ↦ (size_of self.now ≡ size_of other.now)
              × Follows self.now other.now p
          | Err e ↦ (size_of self.now ≢ size_of other.now) × (e ≡ CountsDiffer)
        ] }
    {
        if self.count != other.count {
            return Err(Refusal::CountsDiffer);
        }
        let mut images = [0; MOST];
        let mut sources = [0; MOST];
        // Each array is read at what another holds, so that no chain over one of them is plainer.
        for u in 0..self.count {
            images[u] = other.images[self.images[u] as usize];
            sources[u] = self.sources[other.sources[u] as usize];
        }
        Ok(Pairing {
            count: self.count,
            images,
            sources,
        })
    }
}

// By hand: what stands past the count says nothing, and a derive would compare it.
impl PartialEq for Pairing {
    ghost eq = { on images_of bytes_eq };

    ghost laws = { partial_equiv_from_equiv (on_texts_equal images_of) };

    fn eq(&self, other: &Pairing) -> bool
        ensures value { result ≡ on images_of bytes_eq self.now other.now }
        ensures decides { Decides result (images_of self.now ≡ images_of other.now) }
    {
        self.images() == other.images()
    }
}

impl Eq for Pairing {
    ghost laws = { on_texts_equal images_of };
}
