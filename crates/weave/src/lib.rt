// Copyright 2026 Till0196
// SPDX-License-Identifier: Apache-2.0
// Carried over from core/src/decode/weave.rs (`weave`, `woven`), and changed: planes are lent slices
// beside their shapes, the woven planes go to lent outputs, what is out of bounds is refused, and a
// single woven line was added.
//
// Two fields woven into one frame, line by line.
#![tactic(auto)]

ghost use Rattle.std.specs.Prelude.{◌≡◌, ◌++◌, ◌+◌, ◌*◌, ◌≤◌, leb, length, take, drop};
ghost use Rattle.laws.specs.Refusal.{lowest};
ghost use Rattle.laws.specs.Rows.{over};
ghost use Rattle.refusal.specs.Refusal.{no_of};
ghost use Rattle.plane.specs.Plane.{grid_shape, plane_bytes, agree, chroma_agrees};
ghost use Rattle.weave.specs.Weave.{line_bytes, good_lines, line_in, place_in, woven_plane, woven_bytes, good_field, chroma_fits, whole_field, room_for, lent_field, tests_of, weave_no_of, woven_after, line_no, line_given, place_given, woven_format};
ghost use Rattle.weave.specs.Claims.{Matched};

use plane::{Grid, Shape};
use refusal::Refusal;

// The three planes of a field; a row of a plane is a line of the field.
#[derive(Clone, Copy, Debug, PartialEq, Eq)]
pub struct Field {
    pub luma: Grid,
    pub cb: Grid,
    pub cr: Grid,
}

// What is said of a stream's pictures.
#[derive(Clone, Copy, Debug, PartialEq, Eq)]
pub struct Format {
    pub width: u32,
    pub height: u32,
    pub depth: u32,
    pub rate_numerator: u32,
    pub rate_denominator: u32,
    // Each picture is one field.
    pub field_pictures: bool,
    pub progressive: bool,
    // Each picture was woven from two fields.
    pub woven: bool,
}

// ---- shapes and their tests

fn good_lines(l: Grid) -> bool
    ensures { result ≡ good_lines l }
{
    Shape::from(l).is_good() & (l.height <= 2176)
}

fn lines_agree(t: Grid, b: Grid) -> bool
    ensures { result ≡ agree (grid_shape t) (grid_shape b) }
{
    Shape::from(t).agrees(Shape::from(b))
}

fn half_size(luma: Grid, chroma: Grid) -> bool
    ensures { result ≡ chroma_agrees (grid_shape luma) (grid_shape chroma) }
{
    Shape::from(luma).chroma_agrees(Shape::from(chroma))
}

fn is_whole(l: Grid, bytes: usize) -> bool
    ensures { result ≡ leb (plane_bytes (grid_shape l)) bytes }
{
    Shape::from(l).bytes() <= bytes
}

fn line_bytes(l: Grid) -> usize
    ensures { (result ≡ line_bytes l) × (result ≤ 131070) }
{
    usize::from(l.width) * plane::sample_bytes(u32::from(l.depth))
}

fn has_room(l: Grid, room: usize) -> bool
    ensures { result ≡ leb (woven_bytes l) room }
{
    usize::from(l.height) * 2 * line_bytes(l) <= room
}

impl Field {
    pub fn is_good(self) -> bool
        ensures { result ≡ good_field self }
    {
        good_lines(self.luma) & good_lines(self.cb) & good_lines(self.cr)
    }

    pub fn chroma_fits(self) -> bool
        ensures { result ≡ chroma_fits self }
    {
        half_size(self.luma, self.cb) & half_size(self.luma, self.cr)
    }

    pub fn is_whole(self, luma: usize, cb: usize, cr: usize) -> bool
        ensures { result ≡ whole_field self luma cb cr }
    {
        is_whole(self.luma, luma) & is_whole(self.cb, cb) & is_whole(self.cr, cr)
    }

    // Whether the outputs have room for the planes of a frame woven from a field like this.
    pub fn has_room(self, luma: usize, cb: usize, cr: usize) -> bool
        ensures { result ≡ room_for self luma cb cr }
    {
        has_room(self.luma, luma) & has_room(self.cb, cb) & has_room(self.cr, cr)
    }
}

// ---- one plane

// Copies n bytes of src from `from` on over those of dst from `at` on.
fn copy_part(dst: &mut [u8], at: usize, src: &[u8], from: usize, n: usize)
    requires { (at + n ≤ length dst.old) × (from + n ≤ length src.now) }
    ensures { dst.new ≡ take at dst.old ++ (take n (drop from src.now) ++ drop (at + n) dst.old) }
{
    copy::copy_front(&mut dst[at..at + n], &src[from..from + n]);
}

// A top line and a bottom line in each turn; nothing is judged per line.
fn weave_plane(out: &mut [u8], top: &[u8], t: Grid, bottom: &[u8], b: Grid)
    requires { Matched top.now t bottom.now b × (woven_bytes t ≤ length out.old) }
    ensures { out.new ≡ over (woven_plane top.now t bottom.now b) out.old }
{
    let n = line_bytes(t);
    for r in 0..usize::from(t.height) {
        let even = r * 2 * n;
        copy_part(out, even, top, r * (t.stride as usize), n);
        copy_part(out, even + n, bottom, r * (b.stride as usize), n);
    }
}

// ---- the calls

// Whether two fields can be woven. Numbers 4 to 7.
#[tactic(auto, unfolding(laws::specs::Refusal::lowest))]
fn weavable(top: Field, bottom: Field, whole: bool, room: bool) -> Result<(), Refusal>
    ensures { no_of result ≡ lowest (tests_of top bottom whole room) }
{
    Refusal::Shape.unless(top.is_good() & bottom.is_good())?;
    Refusal::Differ.unless(
        lines_agree(top.luma, bottom.luma) & top.chroma_fits() & bottom.chroma_fits(),
    )?;
    Refusal::ShortInput.unless(whole)?;
    Refusal::ShortOutput.unless(room)
}

// The two fields' lines in turn, the top field's first, tightly packed in each output.
pub fn weave(
    out_luma: &mut [u8],
    out_cb: &mut [u8],
    out_cr: &mut [u8],
    top: Field,
    top_luma: &[u8],
    top_cb: &[u8],
    top_cr: &[u8],
    bottom: Field,
    bottom_luma: &[u8],
    bottom_cb: &[u8],
    bottom_cr: &[u8],
) -> Result<(), Refusal>
    ensures value { no_of result ≡ weave_no_of (lent_field top top_luma top_cb top_cr) (lent_field bottom bottom_luma bottom_cb bottom_cr) out_luma out_cb out_cr }
    ensures out_luma_after { out_luma.new ≡ woven_after (no_of result) top_luma.now top.luma bottom_luma.now bottom.luma out_luma.old }
    ensures out_cb_after { out_cb.new ≡ woven_after (no_of result) top_cb.now top.cb bottom_cb.now bottom.cb out_cb.old }
    ensures out_cr_after { out_cr.new ≡ woven_after (no_of result) top_cr.now top.cr bottom_cr.now bottom.cr out_cr.old }
{
    let whole = top.is_whole(top_luma.len(), top_cb.len(), top_cr.len())
        & bottom.is_whole(bottom_luma.len(), bottom_cb.len(), bottom_cr.len());
    let room = top.has_room(out_luma.len(), out_cb.len(), out_cr.len());
    weavable(top, bottom, whole, room)?;
    weave_plane(out_luma, top_luma, top.luma, bottom_luma, bottom.luma);
    weave_plane(out_cb, top_cb, top.cb, bottom_cb, bottom.cb);
    weave_plane(out_cr, top_cr, top.cr, bottom_cr, bottom.cr);
    Ok(())
}

// Whether `woven_line` has a line y of planes of so many bytes. Numbers 3 to 6.
#[tactic(auto, unfolding(laws::specs::Refusal::lowest))]
pub fn line_fits(
    top: Grid,
    top_bytes: usize,
    bottom: Grid,
    bottom_bytes: usize,
    y: u32,
) -> Result<(), Refusal>
    ensures { no_of result ≡ line_no top top_bytes bottom bottom_bytes y }
{
    Refusal::Outside.unless(y < u32::from(top.height) * 2)?;
    Refusal::Shape.unless(good_lines(top) & good_lines(bottom))?;
    Refusal::Differ.unless(lines_agree(top, bottom))?;
    Refusal::ShortInput.unless(is_whole(top, top_bytes) & is_whole(bottom, bottom_bytes))
}

// Line r of a field, as a part of it.
fn line_of<'a>(field: &'a [u8], l: Grid, r: usize) -> &'a [u8]
    requires { r * l.stride + line_bytes l ≤ length field.now }
    ensures result_value { result.now ≡ line_in field.now l r }
    ensures ref_ptr_value { result.ref_ptr ≡ place_in field.entry.ref_ptr l r }
{
    let at = r * l.stride as usize;
    &field[at..at + line_bytes(l)]
}

// Line y of two planes woven, as a part of the one it comes from. Refused, it is empty, and `line_fits`
// says why.
pub fn woven_line<'a>(
    top: &'a [u8],
    top_lines: Grid,
    bottom: &'a [u8],
    bottom_lines: Grid,
    y: u32,
) -> &'a [u8]
    ensures result_value { result.now ≡ line_given top top_lines bottom bottom_lines y }
    ensures ref_ptr_value { result.ref_ptr ≡ place_given top top_lines bottom bottom_lines y }
{
    let Ok(()) = line_fits(top_lines, top.len(), bottom_lines, bottom.len(), y) else {
        return &top[0..0];
    };
    let row = (y / 2) as usize;
    if y % 2 == 0 {
        line_of(top, top_lines, row)
    } else {
        line_of(bottom, bottom_lines, row)
    }
}

// The format of the frames woven from fields of a format.
pub fn woven(field: Format) -> Format
    ensures { result ≡ woven_format field }
{
    Format {
        height: field.height.saturating_mul(2),
        rate_denominator: field.rate_denominator.saturating_mul(2),
        field_pictures: false,
        progressive: false,
        woven: true,
        ..field
    }
}
