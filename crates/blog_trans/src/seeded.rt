//! Hashing by a seed.

ghost use Rattle.std.specs.Prelude.{◌≡◌, ◌≤◌, ◌<◌, length, take, drop};
ghost use Rattle.std.specs.Hash.FoldHasher.{folded_multiply};
ghost use Rattle.blog_trans.specs.code.SeededHash.{back_word, beside, factor_of, folded, front_word, mixed, start_of};

use byteorder::{ByteOrder, LittleEndian};

/// How far a hash is after that of the item before, among sixteen that are close together. A hash table goes by a hash's
/// lowest bits to a group, and by its upper eight to one of the items there. So a step leads to the next group, and to
/// another tag.
const STEP: u64 = 0x4D00_0001;

/// How many bits of a hash a hash table uses.
const HASH_BITS: u32 = 32;

/// How many bytes are folded at once.
const BLOCK_LEN: usize = 16;

/// What a seed gives: where hashing starts, and what it multiplies by.
#[derive(Clone, Copy)]
pub(crate) struct Keys {
    pub(crate) start: u64,
    pub(crate) factor: u64,
}

impl Keys {
    /// Returns the keys of a seed. The numbers in it are digits of pi.
    pub(crate) fn new(seed: u64) -> Keys
        ensures start { result.start ≡ start_of seed }
        ensures factor { result.factor ≡ factor_of seed }
    {
        let start = folded_multiply(seed ^ 0x243F_6A88_85A3_08D3, 0x1319_8A2E_0370_7345);
        let factor = folded_multiply(start ^ 0xA409_3822_299F_31D0, seed ^ 0x082E_FA98_EC4E_6C89);
        Keys {
            start,
            factor: factor | 1,
        }
    }
}

/// The exclusive or of the halves of a product.
pub(crate) fn folded_multiply(a: u64, b: u64) -> u64
    ensures { result ≡ folded_multiply a b }
{
    let product = a as u128 * b as u128;
    (product & 0xFFFF_FFFF_FFFF_FFFF) as u64 ^ (product >> 64) as u64
}

/// The first bytes of a block, as a number.
fn front_word(block: &[u8]) -> u64
    ensures { result ≡ front_word block.now }
{
    let len = block.len();
    if len >= 8 {
        LittleEndian::read_u64(block)
    } else if len >= 4 {
        LittleEndian::read_u32(block) as u64
    } else if len > 0 {
        block[0] as u64 + 256 * block[len / 2] as u64
    } else {
        0
    }
}

/// Its last bytes, as a number. In a block of up to sixteen bytes each is in one of the two.
fn back_word(block: &[u8]) -> u64
    ensures { result ≡ back_word block.now }
{
    let len = block.len();
    if len >= 8 {
        LittleEndian::read_u64(&block[len - 8..])
    } else if len >= 4 {
        LittleEndian::read_u32(&block[len - 4..]) as u64
    } else if len > 0 {
        block[len - 1] as u64
    } else {
        0
    }
}

/// The bytes from a position on, up to sixteen of them.
fn block_at(bytes: &[u8], at: usize) -> &[u8]
    requires { at ≤ length bytes.now }
    ensures { result.now ≡ take 16 (drop at bytes.now) }
{
    let rest = &bytes[at..];
    &rest[..BLOCK_LEN.min(rest.len())]
}

/// The state after a block. Both factors have a part that comes from the seed. If that part of one factor were known, that factor
/// could be made all ones, and the product would fold to the same whatever the other factor is.
fn mixed(factor: u64, state: u64, block: &[u8]) -> u64
    ensures { result ≡ mixed factor state block.now }
{
    folded_multiply(state ^ front_word(block), factor ^ back_word(block))
}

/// Folds bytes into a state, sixteen at once.
#[inline(always)]
pub(crate) fn folded(factor: u64, start: u64, bytes: &[u8]) -> u64
    ensures { result ≡ folded factor start bytes.now }
{
    let mut state = start;
    let mut at = 0;
    while at < bytes.len() {
        state = mixed(factor, state, block_at(bytes, at));
        at += BLOCK_LEN;
    }
    state
}

/// The hash of an item that is the `place`th of sixteen that are close together.
pub(crate) fn beside(fold: u64, place: u64) -> u64
    requires { place < 16 }
    ensures { result ≡ beside fold place }
{
    (fold % (1 << HASH_BITS) + place * STEP) % (1 << HASH_BITS)
}
