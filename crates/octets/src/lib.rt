//! Bytes: numbers with their highest byte first, areas that are written from the front, and the check of RFC 1071.
//!
//! It must know nothing of elements, frames and airs, which all stand on it: of a frame it has the greatest length and no more.
#![tactic(auto)]

ghost use Rattle.std.specs.Prelude.{◌≡◌};
ghost use Rattle.octets.specs.Checks.{check, folded, ones_sum, word32};

/// The longest frame, in bytes, and so the size of every area that a frame goes into.
pub const LONGEST: usize = 32;

/// The one's complement sum of two 32-bit words: a carry out of the top is added at the bottom.
fn add_word(sum: u32, word: u32) -> u32
    ensures { result ≡ ones_sum sum word }
{
    let (sum, carry) = sum.overflowing_add(word);
    sum + u32::from(carry)
}

/// The first 32-bit word of some bytes; where they are fewer than four, zero bytes follow them.
fn first_word(bytes: &[u8]) -> u32
    ensures { result ≡ word32 bytes.now }
{
    match bytes {
        [a, b, c, d, ..] => u32::from_be_bytes([*a, *b, *c, *d]),
        [a, b, c] => u32::from_be_bytes([*a, *b, *c, 0]),
        [a, b] => u32::from_be_bytes([*a, *b, 0, 0]),
        [a] => u32::from_be_bytes([*a, 0, 0, 0]),
        [] => 0,
    }
}

/// The one's complement sum of the two 16-bit halves of a word.
fn halves_added(word: u32) -> u16
    ensures { result ≡ folded word }
{
    let high = (word / 65_536) as u16;
    let low = (word % 65_536) as u16;
    let (sum, carry) = high.overflowing_add(low);
    sum + u16::from(carry)
}

/// The check of RFC 1071 over some bytes: the complement of the one's complement sum of their 16-bit words. Two of these are added
/// at a time, as one word of 32 bits, and the halves of the sum at the end.
pub fn check_of(bytes: &[u8]) -> u16
    ensures { result ≡ check bytes.now }
{
    let (fours, rest) = bytes.as_chunks::<4>();
    let sum = fours
        .iter()
        .fold(0, |sum, four| add_word(sum, first_word(four)));
    !halves_added(add_word(sum, first_word(rest)))
}
