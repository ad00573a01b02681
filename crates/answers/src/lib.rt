// A record of the list that a program `replay_..` reads: what one call is given, and what is expected
// of it. It is a head of four numbers (the record's bytes, the call, how many numbers there are, how
// many slices), then the numbers, then for each slice where it starts in the record and how many bytes
// it has, then the slices' bytes. Every number has eight bytes, low byte first. What a record lacks
// reads as 0 or as nothing, and `whole` says so.
#![tactic(auto)]

pub mod lent;

ghost use Rattle.std.specs.Prelude.{◌≡◌, ◌%◌, ◌^◌, ◌≤◌, min, true, false, eqb, length, MatchOption};
ghost use Rattle.std.specs.Float.{binary32};
ghost use Rattle.std.specs.Float.Ieee.{of_bits};
ghost use Rattle.answers.specs.Record.{number_of, signed_of, bytes_of, place_of, inside_of, whole_of};
ghost use Rattle.answers.specs.Floats.{same_float, same_floats};

use std::num::f32_from_bits_with_nan;

// ---- numbers

// Number k of a record.
pub fn number(answer: &[u8], k: u8) -> u64
    ensures { result ≡ number_of answer.now k }
{
    packed::number_at(answer, 4 + u16::from(k))
}

// Number k, cut to so many bits.
pub fn word(answer: &[u8], k: u8) -> u32
    ensures { result ≡ number_of answer.now k % 2 ^ 32 }
{
    (number(answer, k) % 4294967296) as u32
}

pub fn byte(answer: &[u8], k: u8) -> u8
    ensures { result ≡ number_of answer.now k % 2 ^ 8 }
{
    (number(answer, k) % 256) as u8
}

// What a number stands for, cut to so many bits above its lowest: 2 n stands for n, and 2 n + 1 for -(n + 1).
fn unfolded(number: u64, bits: u32) -> i64
    requires { bits ≤ 63 }
    ensures { result ≡ signed_of bits number }
{
    let half = (number / 2 % (1 << bits)) as i64;
    if number % 2 == 0 { half } else { -half - 1 }
}

// Number k as a signed one.
pub fn long(answer: &[u8], k: u8) -> i64
    ensures { result ≡ signed_of 63 (number_of answer.now k) }
{
    unfolded(number(answer, k), 63)
}

pub fn signed(answer: &[u8], k: u8) -> i32
    ensures { result ≡ signed_of 31 (number_of answer.now k) }
{
    unfolded(number(answer, k), 31) as i32
}

// Whether number k is what came.
pub fn same(answer: &[u8], k: u8, came: u64) -> bool
    ensures { result ≡ eqb came (number_of answer.now k) }
{
    came == number(answer, k)
}

// A name of its own for each width of a number, since records are compared width by width.
pub fn same_byte(answer: &[u8], k: u8, came: u8) -> bool
    ensures { result ≡ eqb came (number_of answer.now k) }
{
    same_word(answer, k, u32::from(came))
}

pub fn same_word(answer: &[u8], k: u8, came: u32) -> bool
    ensures { result ≡ eqb came (number_of answer.now k) }
{
    same(answer, k, u64::from(came))
}

// ---- floats

// The float of a pattern of bits, a NaN's too.
pub fn float_of(bits: u32) -> f32
    ensures { result ≡ of_bits binary32 bits }
{
    f32_from_bits_with_nan(bits)
}

// Number k as a float, by its bits.
pub fn float(answer: &[u8], k: u8) -> f32
    ensures { result ≡ of_bits binary32 (number_of answer.now k % 2 ^ 32) }
{
    float_of(word(answer, k))
}

// Whether a float has these bits; a NaN has none.
#[tactic(auto, unfolding(crate::specs::Floats::same_float))]
pub fn same_float(x: f32, bits: u64) -> bool
    ensures { result ≡ same_float x bits }
{
    !x.is_nan() && u64::from(x.to_bits()) == bits
}

// Whether floats, at most 4,096, have the bits that the bytes hold, a number for each.
pub fn same_floats(floats: &[f32], bytes: &[u8]) -> bool
    ensures { result ≡ same_floats floats.now bytes.now }
{
    if 4096 < floats.len() {
        return false;
    }
    let mut same = true;
    for (i, x) in floats.iter().enumerate() {
        same &= same_float(*x, packed::number_at(bytes, i as u16));
    }
    (8 * floats.len() == bytes.len()) & same
}

// ---- slices

// Slice j of a record of so many numbers, where it lies within it.
fn slice_at<'a>(answer: &'a [u8], numbers: u8, j: u8) -> Option<&'a [u8]>
    ensures { MatchOption result (inside_of answer.now numbers j ≡ false) (λ found. (inside_of answer.now numbers j ≡ true) × (found.now ≡ bytes_of answer.now numbers j) × (found.ref_ptr ≡ place_of answer.entry.ref_ptr answer.now numbers j)) }
{
    let place = 4 + u16::from(numbers) + 2 * u16::from(j);
    let from = packed::number_at(answer, place);
    let n = packed::number_at(answer, place + 1);
    let all = answer.len() as u64;
    if from <= all && n <= all - from {
        let start = from as usize;
        let end = start + (n as usize);
        Some(&answer[start..end])
    } else {
        None
    }
}

// Slice j of a record of so many numbers; nothing, where it does not lie within it.
#[tactic(auto, unfolding(crate::specs::Record::bytes_of, crate::specs::Record::place_of))]
pub fn bytes<'a>(answer: &'a [u8], numbers: u8, j: u8) -> &'a [u8]
    ensures result_value { result.now ≡ bytes_of answer.now numbers j }
    ensures ref_ptr_value { result.ref_ptr ≡ place_of answer.entry.ref_ptr answer.now numbers j }
{
    match slice_at(answer, numbers, j) {
        Some(found) => found,
        None => &answer[..0],
    }
}

// Whether a record has just so many numbers and so many slices, each slice within it.
pub fn whole(answer: &[u8], numbers: u8, slices: u8) -> bool
    ensures { result ≡ whole_of answer.now numbers slices }
{
    let counted = (packed::number_at(answer, 2) == u64::from(numbers))
        & (packed::number_at(answer, 3) == u64::from(slices));
    let mut all = true;
    for j in 0..slices {
        all &= slice_at(answer, numbers, j).is_some();
    }
    counted & all
}

// How much of an output is lent where so much is expected in it.
pub fn room(expected: &[u8], most: usize) -> usize
    ensures { result ≡ min (length expected.now) most }
{
    expected.len().min(most)
}
