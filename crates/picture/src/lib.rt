// Copyright 2026 Till0196
// SPDX-License-Identifier: Apache-2.0
// Carried over from core/src/output/video/filter.rs (`picture_of`), and changed: planes are lent slices
// beside their shapes, the picture goes to a lent output, the caller gives the nine numbers of the
// conversion, what is out of bounds is refused, and rows are made several at a time.
//
// A picture in red, green, blue and alpha, from three frames of three planes.
#![tactic(auto)]

ghost use Rattle.std.specs.Prelude.{◌≡◌, ◌+◌, ◌*◌, ◌/◌, ◌%◌, ◌≤◌, ◌<◌, length, take, drop};
ghost use Rattle.laws.specs.Rows.{laid, over};
ghost use Rattle.refusal.specs.Refusal.{no_of};
ghost use Rattle.plane.specs.Plane.{half};
ghost use Rattle.picture.specs.Picture.{good_shapes, chroma_fits, whole_frame, served, quality_for, pixel_of, frames_lent, asked_no, asked_out};
ghost use Rattle.picture.specs.Inner.{making_of, recipe_for, lumas_in, cbs_in, crs_in, frames_in, serving_in, serving, Makeable, Paintable, Inside, Tile, TileFits, TileMade, chroma_of, part_in, cut, painted_row, painted_at, painted_tile};

use colour::{Conversion, Rgb};
use field::{Output, Parity, Source};
use fill::Place;
use filter::{Making, Quality, Rows};
use plane::{Planes, Shape};
use refusal::Refusal;

// What is asked for: the picture of which `output` says what is shown. `current` is the frame itself, and
// `previous` and `next` are those at its sides.
#[derive(Clone, Copy)]
pub struct Asked {
    pub quality: Quality,
    pub output: Output,
    pub conversion: Conversion,
    pub previous: Planes,
    pub current: Planes,
    pub next: Planes,
}

// The bytes of a frame, plane by plane. In a biplanar frame one slice is lent for cb and for cr.
#[derive(Clone, Copy)]
struct Lent<'a> {
    luma: &'a [u8],
    cb: &'a [u8],
    cr: &'a [u8],
}

// The frames that a picture is made from.
#[derive(Clone, Copy)]
struct Trio<'a> {
    before: Lent<'a>,
    cur: Lent<'a>,
    after: Lent<'a>,
}

// ---- what is judged once

impl<'a> Lent<'a> {
    // Whether no plane is shorter than its shape needs.
    fn holds(self, p: Planes) -> bool
        ensures { result ≡ whole_frame p (length self.entry.luma.now) (length self.entry.cb.now) (length self.entry.cr.now) }
    {
        (p.luma.bytes() <= self.luma.len())
            & (p.cb.bytes() <= self.cb.len())
            & (p.cr.bytes() <= self.cr.len())
    }
}

// No method of `Planes`, here and below: that is another crate's, which would have to make it public.
fn good_shapes(p: Planes) -> bool
    ensures { result ≡ good_shapes p }
{
    p.luma.is_good() & p.cb.is_good() & p.cr.is_good()
}

fn chroma_fits(p: Planes) -> bool
    ensures { result ≡ chroma_fits p }
{
    p.luma.chroma_agrees(p.cb) & p.luma.chroma_agrees(p.cr)
}

fn bytes_of(height: u16, width: u16) -> usize
    ensures { result ≡ height * (width * 4) }
{
    usize::from(height) * (usize::from(width) * 4)
}

// Whether a picture can be made, of room for so many bytes. Numbers 4, 5, 6, 7 and 8.
#[tactic(auto, unfolding(laws::specs::Refusal::lowest))]
fn judge(
    asked: Asked,
    previous: Lent<'_>,
    current: Lent<'_>,
    next: Lent<'_>,
    room: usize,
) -> Result<(), Refusal>
    ensures { no_of result ≡ asked_no asked (frames_in asked previous.entry current.entry next.entry) room }
{
    let luma = asked.current.luma;
    Refusal::Shape.unless(
        good_shapes(asked.previous) & good_shapes(asked.current) & good_shapes(asked.next),
    )?;
    Refusal::Differ.unless(
        asked.previous.luma.agrees(luma)
            & asked.next.luma.agrees(luma)
            & chroma_fits(asked.previous)
            & chroma_fits(asked.current)
            & chroma_fits(asked.next),
    )?;
    Refusal::ShortInput.unless(
        previous.holds(asked.previous) & current.holds(asked.current) & next.holds(asked.next),
    )?;
    Refusal::ShortOutput.unless(bytes_of(luma.height, luma.width) <= room)?;
    Refusal::Colour.unless(colour::good_conversion(asked.conversion))
}

// ---- pixels, from rows of samples

fn put(out: &mut [u8], rgb: Rgb)
    requires { length out.old ≡ 4 }
    ensures { out.new ≡ pixel_of rgb }
{
    out[0] = colour::quantise(rgb.red);
    out[1] = colour::quantise(rgb.green);
    out[2] = colour::quantise(rgb.blue);
    out[3] = 255;
}

// Samples of luma, cb and cr, of rows laid end to end. Each row of chroma is half as wide, rounded up, and
// serves two.
#[derive(Clone, Copy)]
struct Sampled<'a> {
    luma: &'a [f32],
    cb: &'a [f32],
    cr: &'a [f32],
}

impl<'a> Sampled<'a> {
    // Row y.
    fn row(self, y: usize, width: usize) -> Sampled<'a>
        requires { (y ≤ 8) × (width ≤ 512) × (y * width + width ≤ length self.luma.now) × (y / 2 * half width + half width ≤ length self.cb.now) × (y / 2 * half width + half width ≤ length self.cr.now) }
        ensures luma { (result.luma.now ≡ cut self.entry.luma.now width y) × (length result.luma.now ≡ width) }
        ensures cb { (result.cb.now ≡ cut self.entry.cb.now (half width) (y / 2)) × (length result.cb.now ≡ half width) }
        ensures cr { (result.cr.now ≡ cut self.entry.cr.now (half width) (y / 2)) × (length result.cr.now ≡ half width) }
    {
        let at = y * width;
        let chroma_width = width.div_ceil(2);
        let chroma_at = y / 2 * chroma_width;
        Sampled {
            luma: &self.luma[at..at + width],
            cb: &self.cb[chroma_at..chroma_at + chroma_width],
            cr: &self.cr[chroma_at..chroma_at + chroma_width],
        }
    }
}

// One row. A chroma sample serves two columns. By number, since a proof does not know what stands in a slice
// once its `chunks_mut` are let go.
fn paint_row(out: &mut [u8], conversion: Conversion, row: Sampled)
    requires { (length row.luma.now ≤ 8192) × (length out.old ≡ length row.luma.now * 4) × (length row.cb.now ≡ half (length row.luma.now)) × (length row.cr.now ≡ half (length row.luma.now)) }
    ensures { out.new ≡ painted_row conversion (length row.entry.luma.now) row.entry.luma.now row.entry.cb.now row.entry.cr.now }
{
    let Sampled { luma, cb, cr } = row;
    for x in 0..luma.len() {
        let rgb = colour::converted(conversion, luma[x], cb[x / 2], cr[x / 2]);
        let at = x * 4;
        put(&mut out[at..at + 4], rgb);
    }
}

// The rows of a tile. In `out` the rows of the picture stand `stride` bytes apart, and the tile's are the
// `place.height` first. By number, as in a row.
fn paint_rows(out: &mut [u8], conversion: Conversion, stride: usize, place: Place, samples: Sampled)
    requires tile_fits { TileFits place stride (length out.old) }
    requires tile_made { TileMade place (length samples.luma.now) (length samples.cb.now) (length samples.cr.now) }
    ensures { painted_tile place stride (painted_at conversion place.width samples.entry.luma.now samples.entry.cb.now samples.entry.cr.now) out.old out.new place.height }
{
    let width = usize::from(place.width);
    let left = usize::from(place.left) * 4;
    let span = width * 4;
    for y in 0..usize::from(place.height) {
        let at = y * stride + left;
        paint_row(&mut out[at..at + span], conversion, samples.row(y, width));
    }
}

// ---- tiles of 512 columns and eight rows, so that the places for their samples stay small

// What a picture is made by, plane by plane, and the colours of its samples.
#[derive(Clone, Copy)]
struct Recipe {
    luma: Making,
    cb: Making,
    cr: Making,
    conversion: Conversion,
}

// The chroma of a tile that starts at an even place.
fn chroma_of(place: Place) -> Place
    requires { (place.height ≤ 8) × (place.width ≤ 512) }
    ensures { result ≡ chroma_of place }
{
    Place {
        top: place.top / 2,
        height: plane::half_of(place.height),
        left: place.left / 2,
        width: plane::half_of(place.width),
    }
}

// Samples of planes that were judged before, so that nothing is refused.
fn samples(out: &mut [f32], making: Making, before: &[u8], cur: &[u8], after: &[u8], place: Place)
    requires makeable { Makeable making (serving_in before cur after) }
    requires inside { Inside place making.cur × (place.height * place.width ≤ length out.old) }
    ensures { out.new ≡ over (part_in making (serving before cur after) place) out.old }
{
    let _ = fill::part(out, making, before, cur, after, place);
}

// A picture that was judged, to be painted of these frames.
#[derive(Clone, Copy)]
struct Job<'a> {
    recipe: Recipe,
    trio: Trio<'a>,
    ghost paintable: { Paintable recipe (lumas_in trio) (cbs_in trio) (crs_in trio) },
}

impl<'a> Job<'a> {
    ghost use Rattle.picture.specs.Jobs.{row_of, picture_in, PaintedTo, PaintedWith};

    // A tile. Each sample is made once, and then serves.
    fn paint_tile(self, out: &mut [u8], place: Place)
        requires tile { Tile place self.recipe.luma.cur (length out.old) }
        requires painted_to { PaintedTo self place out.old }
        ensures { PaintedWith self.entry place out.new }
    {
        let recipe = self.recipe;
        let Trio { before, cur, after } = self.trio;
        let chroma = chroma_of(place);
        let mut luma = [0.0f32; 4096];
        let mut cb = [0.0f32; 1024];
        let mut cr = [0.0f32; 1024];
        samples(
            &mut luma,
            recipe.luma,
            before.luma,
            cur.luma,
            after.luma,
            place,
        );
        samples(&mut cb, recipe.cb, before.cb, cur.cb, after.cb, chroma);
        samples(&mut cr, recipe.cr, before.cr, cur.cr, after.cr, chroma);
        let stride = usize::from(recipe.luma.cur.width) * 4;
        let made = Sampled {
            luma: &luma,
            cb: &cb,
            cr: &cr,
        };
        paint_rows(out, recipe.conversion, stride, place, made);
    }

    // `count` rows from an even row on.
    fn paint_group(self, out: &mut [u8], from: u16, count: u16)
        requires from_value { (from % 2 ≡ 0) × (from + count ≤ self.recipe.luma.cur.height) × (count ≤ 8) × (length out.old ≡ count * (self.recipe.luma.cur.width * 4)) }
        ensures { out.new ≡ laid count (λ y. row_of self.entry (from + y)) }
    {
        let width = self.recipe.luma.cur.width;
        for left in (0..width).step_by(512) {
            let columns = (width - left).min(512);
            let place = Place {
                top: from,
                height: count,
                left,
                width: columns,
            };
            self.paint_tile(out, place);
        }
    }

    fn paint(self, out: &mut [u8])
        requires width_in_bounds { self.recipe.luma.cur.height * (self.recipe.luma.cur.width * 4) ≤ length out.old }
        ensures { out.new ≡ over (picture_in self.entry) out.old }
    {
        let shape = self.recipe.luma.cur;
        for from in (0..shape.height).step_by(8) {
            let count = (shape.height - from).min(8);
            let at = bytes_of(from, shape.width);
            let to = at + bytes_of(count, shape.width);
            self.paint_group(&mut out[at..to], from, count);
        }
    }
}

// ---- which frames serve

// A frame that is shown whole has no row to be made.
fn quality_for(shown: Option<Parity>, quality: Quality) -> Quality
    ensures { result ≡ quality_for shown quality }
{
    match shown {
        Some(_) => quality,
        None => Quality::Weave,
    }
}

// Of three, the one that an output names.
fn pick<T: Copy>(source: Source, previous: T, current: T, next: T) -> T
    ensures { result ≡ served source previous current next }
{
    match source {
        Source::Previous => previous,
        Source::Current => current,
        Source::Next => next,
    }
}

fn making_of(quality: Quality, rows: Rows, before: Shape, cur: Shape, after: Shape) -> Making
    ensures { result ≡ making_of quality rows before cur after }
{
    Making {
        quality,
        rows,
        before,
        cur,
        after,
    }
}

fn recipe_for(asked: Asked) -> Recipe
    ensures { result ≡ recipe_for asked }
{
    let output = asked.output;
    let quality = quality_for(output.field, asked.quality);
    let rows = Rows::of(output);
    let before = pick(output.before, asked.previous, asked.current, asked.next);
    let cur = asked.current;
    let after = pick(output.after, asked.previous, asked.current, asked.next);
    Recipe {
        luma: making_of(quality, rows, before.luma, cur.luma, after.luma),
        cb: making_of(quality, rows, before.cb, cur.cb, after.cb),
        cr: making_of(quality, rows, before.cr, cur.cr, after.cr),
        conversion: asked.conversion,
    }
}

// In a biplanar frame one slice is lent for cb and for cr. Nine slices and no struct: the lemma
// `picture_of_once` of crates/unique is under `OneAnswer`, for which a struct of references has no plain
// contract.
pub fn picture_of<'a>(
    out: &mut [u8],
    asked: Asked,
    previous_luma: &'a [u8],
    previous_cb: &'a [u8],
    previous_cr: &'a [u8],
    current_luma: &'a [u8],
    current_cb: &'a [u8],
    current_cr: &'a [u8],
    next_luma: &'a [u8],
    next_cb: &'a [u8],
    next_cr: &'a [u8],
) -> Result<(), Refusal>
    ensures value { no_of result ≡ asked_no asked (frames_lent asked previous_luma previous_cb previous_cr current_luma current_cb current_cr next_luma next_cb next_cr) (length out.old) }
    ensures out_after { out.new ≡ asked_out (no_of result) asked (frames_lent asked previous_luma previous_cb previous_cr current_luma current_cb current_cr next_luma next_cb next_cr) out.old }
{
    let previous = Lent {
        luma: previous_luma,
        cb: previous_cb,
        cr: previous_cr,
    };
    let current = Lent {
        luma: current_luma,
        cb: current_cb,
        cr: current_cr,
    };
    let next = Lent {
        luma: next_luma,
        cb: next_cb,
        cr: next_cr,
    };
    let trio = Trio {
        before: pick(asked.output.before, previous, current, next),
        cur: current,
        after: pick(asked.output.after, previous, current, next),
    };
    judge(asked, previous, current, next, out.len())?;
    let job = Job {
        recipe: recipe_for(asked),
        trio,
    };
    job.paint(out);
    Ok(())
}
