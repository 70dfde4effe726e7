// Blocks of lent bytes, each with one coded network: its count, then its kinds, then its codes.
ghost use Rattle.std.specs.Prelude.{◌≡◌, ℕ, ◌+◌, ◌*◌, ◌<◌, ◌≤◌, length, if◌then◌else◌, Some, None, slice_index};
ghost use Rattle.std.specs.Option.{option_map};
ghost use Rattle.atlas.specs.Blocks.{block_coded, trimmed, code_in_order, Kept};
ghost use Rattle.search.specs.Arrays.{searchable};
ghost use Rattle.search.specs.Meanings.{coded};

use search::coded::{CodedNetwork, MOST_CODES, MOST_STATIONS};
use std::array;

// How many bytes a block has: one for the count, 64 for the kinds, 64 times 64 for the codes.
pub const BLOCK: usize = 1 + MOST_STATIONS + MOST_CODES;

// Where the kinds begin in a block: after the count.
const KINDS_AT: usize = 1;

// Where the codes begin: after 64 kinds.
const CODES_AT: usize = KINDS_AT + MOST_STATIONS;

// The form in block k, where it can be searched.
pub(crate) fn read_block(bytes: &[u8], k: usize) -> Option<CodedNetwork>
    requires { 4161 * k + 4161 ≤ length bytes.now }
    ensures { option_map coded result ≡ (if searchable (block_coded bytes.now k) then Some (block_coded bytes.now k) else None) }
{
    let at = BLOCK * k;
    let kinds = array::from_fn(|u| bytes[at + KINDS_AT + u] as u16);
    let mut codes = [0; MOST_CODES];
    codes.copy_from_slice(&bytes[at + CODES_AT..at + CODES_AT + MOST_CODES]);
    CodedNetwork::new(bytes[at] as usize, &kinds, &codes)
}

// The kind of a station as a byte, 0 where there is no such station: a block is zero past its stations.
fn kind_byte(form: &CodedNetwork, u: usize) -> u8
    requires { u < (coded form.now).count → (coded form.now).kind u < 256 }
    ensures { result ≡ (trimmed (coded form.now)).kind u }
{
    form.kind(u).unwrap_or(0) as u8
}

// The code of the pair numbered i, 0 where there are no such stations, as above.
fn code_byte(form: &CodedNetwork, i: usize) -> u8
    ensures { result ≡ code_in_order (trimmed (coded form.now)) i }
{
    form.code(i / MOST_STATIONS, i % MOST_STATIONS).unwrap_or(0)
}

// Writes the values of a function at 0, 1, 2 and on.
pub(crate) fn fill<F: Fn(usize) -> u8>(bytes: &mut [u8], value: F)
    requires { F.IsAlwaysCallable value }
    ensures length { length bytes.new ≡ length bytes.old }
    ensures values { (i : ℕ) → i < length bytes.old → F.post value i (slice_index bytes.new i) }
{
    for (i, byte) in bytes.iter_mut().enumerate() {
        *byte = value(i);
    }
}

// Writes a form into block k, and changes no other byte. The kinds of its stations are bytes: so they are of each network
// that is read, while a coded network has room for more.
pub(crate) fn write_block(bytes: &mut [u8], k: usize, form: &CodedNetwork)
    requires block { 4161 * k + 4161 ≤ length bytes.old }
    requires kinds { (u : ℕ) → u < (coded form.now).count → (coded form.now).kind u < 256 }
    ensures length { length bytes.new ≡ length bytes.old }
    ensures form { block_coded bytes.new k ≡ trimmed (coded form.now) }
    ensures others { Kept (4161 * k) 4161 bytes.old bytes.new }
{
    let at = BLOCK * k;
    bytes[at] = form.count() as u8;
    let kinds = &mut bytes[at + KINDS_AT..at + KINDS_AT + MOST_STATIONS];
    fill(kinds, |u| kind_byte(form, u));
    let codes = &mut bytes[at + CODES_AT..at + CODES_AT + MOST_CODES];
    fill(codes, |i| code_byte(form, i));
}
