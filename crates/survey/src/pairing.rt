ghost use Rattle.std.specs.Prelude.{◌≡◌, ℕ, ◌<◌, ◌≤◌, length, slice_index};

pub mod calls;

// The most stations that a pairing holds.
pub const MOST: usize = 64;

// A pairing of 0 to 64 stations with as many, one-to-one and onto. The ghost fields say so of every value: from
// each station to its image and back, and from each image to its source and back. It is copied freely and allocates
// nothing, so that its lists are arrays of the largest size with the count beside.
#[derive(Clone, Copy)]
pub struct Pairing {
    count: usize,
    images: [u8; MOST],
    sources: [u8; MOST],
    ghost small: { count ≤ 64 },
    ghost paired: { length images ≡ 64 },
    ghost traced: { length sources ≡ 64 },
    ghost onward: { (u : ℕ) → u < count → (slice_index images u < count) × (slice_index sources (slice_index images u) ≡ u) },
    ghost backward: { (v : ℕ) → v < count → (slice_index sources v < count) × (slice_index images (slice_index sources v) ≡ v) },
}
