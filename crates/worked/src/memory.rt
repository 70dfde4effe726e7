// The memory that is lent to the atlas of a worked case: one block, one place for a label, and the place for a map. It
// has something in each of its parts, so that a write to any of them shows. Each case takes the three apart: an atlas
// borrows two of them and a call the third, and a struct cannot lend its parts so.
use atlas::block::BLOCK;
use survey::grade::Grade;
use survey::pairing::Pairing;
use survey::refusal::Refusal;

pub const BYTES: [u8; BLOCK] = [0xa5; BLOCK];

pub const LABELS: [Grade; 1] = [Grade { value: 99 }];

// A map that no worked network has.
pub fn old_map() -> Result<Pairing, Refusal> {
    Pairing::identity(7)
}
