// Rust's methods on `f32` that the original uses, as functions: abs, min, max, clamp and the cut to a
// byte. Each is equal to its definition in specs/Float.antt at every float. The laws by which later
// crates know that a value is finite and how large it is stand in proofs/.
#![tactic(auto)]

ghost use Rattle.std.specs.Prelude.{◌≡◌, pos};
ghost use Rattle.std.specs.Float.{binary32};
ghost use Rattle.std.specs.Float.Ieee.{of_int, to_unsigned};
ghost use Rattle.float.specs.Float.{abs_of, min_of, max_of, clamp_of};
ghost use Rattle.float.specs.Bounds.{InByte};

// Written as a difference, which rounds nothing here, because it makes -0.0 into 0.0 without a second test.
pub fn abs(x: f32) -> f32
    ensures { result ≡ abs_of x }
{
    if 0.0 < x { x } else { 0.0 - x }
}

// Not the library's `min`, which leaves open which of two zeros it gives (`IsFloatMin`): `min_of` settles it. So it is
// of `max`.
pub fn min(a: f32, b: f32) -> f32
    ensures { result ≡ min_of a b }
{
    if (b < a) | (a != a) { b } else { a }
}

pub fn max(a: f32, b: f32) -> f32
    ensures { result ≡ max_of a b }
{
    if (a < b) | (a != a) { b } else { a }
}

// Not the library's `clamp`, which requires that `low` is not above `high` and neither is a NaN.
pub fn clamp(x: f32, low: f32, high: f32) -> f32
    ensures { result ≡ clamp_of x low high }
{
    if x < low {
        return low;
    }
    if high < x { high } else { x }
}

// Brought to 0 or to 255 where it is outside, and to 0 where it is a NaN.
fn held_in_byte(x: f32) -> f32
    ensures { InByte result × (to_unsigned 8 result ≡ to_unsigned 8 x) }
{
    let above = if 0.0 < x { x } else { 0.0 };
    if above < 255.0 { above } else { 255.0 }
}

// From 2^23 on floats are whole numbers, so the sum is one of the two around `held`, moved up by 2^23.
fn whole_of(held: f32) -> f32
    requires { InByte held }
    ensures { result ≡ of_int binary32 (pos (to_unsigned 8 held)) }
{
    let near = (held + 8388608.0) - 8388608.0;
    if held < near { near - 1.0 } else { near }
}

// Rust's `as u8`: toward zero, the nearer end where x is out of range, 0 for a NaN. The cast here takes
// whole numbers in range alone, and is one instruction. What comes before it compiles without branches.
pub fn to_u8(x: f32) -> u8
    ensures { result ≡ to_unsigned 8 x }
{
    whole_of(held_in_byte(x)) as u8
}
