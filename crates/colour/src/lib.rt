// Copyright 2026 Till0196
// SPDX-License-Identifier: Apache-2.0
// Carried over from core/src/output/video/colour.rs (`Conversion::to_rgb`, `quantise`, `Primaries::luma`),
// and changed: the caller gives the nine numbers, and numbers out of range are refused.
//
// Y'CbCr to RGB in the original's order of operations, each step rounded once.
#![tactic(auto)]

ghost use Rattle.std.specs.Prelude.{◌≡◌};
ghost use Rattle.laws.specs.Refusal.{when_done};
ghost use Rattle.refusal.specs.Refusal.{no_of, values_of};
ghost use Rattle.colour.specs.Colour.{within_of, good_conversion, good_samples, converted_of, quantise_of, luma_weights};
ghost use Rattle.colour.specs.Answer.{to_rgb_no};

use refusal::Refusal;

// The nine numbers of a conversion, each within -16 to 16, `kr` and `kb` within 0 to 0.4375. Offsets and
// gains are of values by the largest code of their depth. `luma_lift`, `chroma_cos` and `chroma_sin` are
// 0, 1 and 0 where nothing is adjusted.
#[repr(C)]
#[derive(Clone, Copy, Debug, PartialEq)]
pub struct Conversion {
    pub luma_offset: f32,
    pub luma_gain: f32,
    pub chroma_offset: f32,
    pub chroma_gain: f32,
    pub kr: f32,
    pub kb: f32,
    pub luma_lift: f32,
    pub chroma_cos: f32,
    pub chroma_sin: f32,
}

#[derive(Clone, Copy, Debug, PartialEq)]
pub struct Rgb {
    pub red: f32,
    pub green: f32,
    pub blue: f32,
}

#[derive(Clone, Copy, Debug, PartialEq, Eq)]
pub enum Primaries {
    Bt709,
    Bt2020,
}

impl Primaries {
    #[tactic(auto, unfolding(crate::specs::Colour::luma_weights))]
    pub fn luma(self) -> Rgb
        ensures { result ≡ luma_weights self }
    {
        match self {
            Primaries::Bt709 => Rgb {
                red: 0.212_639,
                green: 0.715_169,
                blue: 0.072_192,
            },
            Primaries::Bt2020 => Rgb {
                red: 0.262_700,
                green: 0.678_000,
                blue: 0.059_300,
            },
        }
    }
}

// No NaN is within any range.
fn within(x: f32, low: f32, high: f32) -> bool
    ensures { result ≡ within_of x low high }
{
    (low <= x) & (x <= high)
}

#[tactic(auto, unfolding(crate::specs::Colour::good_conversion))]
pub fn good_conversion(c: Conversion) -> bool
    ensures { result ≡ good_conversion c }
{
    within(c.luma_offset, -16.0, 16.0)
        & within(c.luma_gain, -16.0, 16.0)
        & within(c.chroma_offset, -16.0, 16.0)
        & within(c.chroma_gain, -16.0, 16.0)
        & within(c.kr, 0.0, 0.4375)
        & within(c.kb, 0.0, 0.4375)
        & within(c.luma_lift, -16.0, 16.0)
        & within(c.chroma_cos, -16.0, 16.0)
        & within(c.chroma_sin, -16.0, 16.0)
}

#[tactic(auto, unfolding(crate::specs::Colour::good_samples))]
fn good_samples(y: f32, cb: f32, cr: f32) -> bool
    ensures { result ≡ good_samples y cb cr }
{
    within(y, 0.0, 256.0) & within(cb, 0.0, 256.0) & within(cr, 0.0, 256.0)
}

// `to_rgb` without its tests, for a caller that has judged the nine numbers once and converts many samples.
pub fn converted(c: Conversion, y: f32, cb: f32, cr: f32) -> Rgb
    ensures { result ≡ converted_of c y cb cr }
{
    let luma = (y - c.luma_offset) * c.luma_gain + c.luma_lift;
    let cb = (cb - c.chroma_offset) * c.chroma_gain;
    let cr = (cr - c.chroma_offset) * c.chroma_gain;
    let u = cb * c.chroma_cos + cr * c.chroma_sin;
    let v = cr * c.chroma_cos - cb * c.chroma_sin;
    let kg = 1.0 - c.kr - c.kb;
    let red = luma + 2.0 * (1.0 - c.kr) * v;
    let green = luma - (2.0 * (1.0 - c.kb) * c.kb / kg) * u - (2.0 * (1.0 - c.kr) * c.kr / kg) * v;
    let blue = luma + 2.0 * (1.0 - c.kb) * u;
    Rgb {
        red: float::clamp(red, 0.0, 1.0),
        green: float::clamp(green, 0.0, 1.0),
        blue: float::clamp(blue, 0.0, 1.0),
    }
}

#[tactic(auto, unfolding(laws::specs::Refusal::lowest))]
pub fn to_rgb(c: Conversion, y: f32, cb: f32, cr: f32) -> Result<Rgb, Refusal>
    ensures { (no_of result ≡ to_rgb_no c y cb cr) × (values_of result ≡ when_done (to_rgb_no c y cb cr) (converted_of c y cb cr)) }
{
    Refusal::Colour.unless(good_conversion(c) & good_samples(y, cb, cr))?;
    Ok(converted(c, y, cb, cr))
}

// A half is added so that the cut rounds to the nearest byte. The cut stops at 0 and at 255 by itself,
// so the original's clamp before it would change nothing.
#[tactic(auto, using(float::proofs::Byte::cut_of_clamp), unfolding(crate::specs::Colour::quantise_of))]
pub fn quantise(value: f32) -> u8
    ensures { result ≡ quantise_of value }
{
    float::to_u8(value * 255.0 + 0.5)
}
