// Copyright 2026 Till0196
// SPDX-License-Identifier: Apache-2.0
// Carried over from core/src/decode/weave.rs (`copied`), and changed: planes are lent slices beside
// their pitches, the frame goes to three lent outputs, what is out of bounds is refused, and a call of
// its own says how long the outputs have to be.
//
// A frame read back from a device: padding is dropped, words in the high bits are brought down, and
// chroma that shares a plane is separated.
#![tactic(auto)]

ghost use Rattle.std.specs.Prelude.{◌≡◌, cond, ◌&&◌, ◌+◌, ◌*◌, ◌/◌, ◌^◌, ◌<◌, ◌≤◌, leb, length, get_or};
ghost use Rattle.laws.specs.Refusal.{lowest, when_done};
ghost use Rattle.laws.specs.Rows.{laid, over};
ghost use Rattle.refusal.specs.Refusal.{no_of, values_of};
ghost use Rattle.plane.specs.declared.Layout.TheVariants.{Luma};
ghost use Rattle.plane.specs.Plane.{sample_bytes};
ghost use Rattle.readback.specs.Readback.{luma_shape, shared, cb_shape, cr_shape, cr_bytes_of, packed_bytes, sizes_of, sizes_no};
ghost use Rattle.readback.specs.Readback.{outputs_hold, sizes_no_of, readback_no_of, copied_of, copied_after};
ghost use Rattle.readback.specs.Inner.{chroma_shape, good_shapes, planes_reach, with_room, kind_of, step_of, pair_in, copy_in, RowRoom, PairsRoom, PlaneReady};
ghost use Rattle.readback.specs.declared.Kind.TheVariants.{Byte, EverySecondByte};

use plane::{Layout, Shape};
use refusal::Refusal;

// What was read back: how many planes, the frame's size and depth, and each plane's bytes from one row
// to the next. A plane beyond the count is not looked at.
#[derive(Clone, Copy, Debug, PartialEq, Eq)]
pub struct Readback {
    pub planes: u8,
    pub width: u16,
    pub height: u16,
    pub depth: u8,
    pub luma_pitch: u32,
    pub second_pitch: u32,
    pub third_pitch: u32,
}

// The bytes that the output of each component needs.
#[derive(Clone, Copy, Debug, PartialEq, Eq)]
pub struct Sizes {
    pub luma: usize,
    pub cb: usize,
    pub cr: usize,
}

// How a row holds the samples of a component.
#[derive(Clone, Copy, Debug, PartialEq, Eq)]
enum Kind {
    // One byte each, from end to end.
    Byte,
    // One byte each, every second one another component's.
    EverySecondByte,
    // Two bytes each, the low one first, from end to end.
    Pair,
    // Two bytes each, every second pair another component's.
    EverySecondPair,
}

// ---- the planes that were read back

impl Readback {
    fn is_shared(self) -> bool
        ensures { result ≡ shared self }
    {
        self.planes == 2
    }

    fn luma(self) -> Shape
        ensures { result ≡ luma_shape self }
    {
        Shape {
            width: self.width,
            height: self.height,
            depth: self.depth,
            stride: self.luma_pitch,
            layout: Layout::Luma,
        }
    }

    fn chroma(self, pitch: u32, layout: Layout) -> Shape
        ensures { result ≡ chroma_shape self pitch layout }
    {
        Shape {
            width: plane::half_of(self.width),
            height: plane::half_of(self.height),
            depth: self.depth,
            stride: pitch,
            layout,
        }
    }

    // A component's layout where chroma shares a plane, and that of a plane of its own.
    fn chroma_layout(self, lane: Layout) -> Layout
        ensures { result ≡ cond (shared self) lane Luma }
    {
        if self.is_shared() { lane } else { Layout::Luma }
    }

    fn cb(self) -> Shape
        ensures { result ≡ cb_shape self }
    {
        self.chroma(self.second_pitch, self.chroma_layout(Layout::First))
    }

    fn cr_pitch(self) -> u32
        ensures { result ≡ cond (shared self) self.second_pitch self.third_pitch }
    {
        if self.is_shared() {
            self.second_pitch
        } else {
            self.third_pitch
        }
    }

    fn cr(self) -> Shape
        ensures { result ≡ cr_shape self }
    {
        self.chroma(self.cr_pitch(), self.chroma_layout(Layout::Second))
    }

    // How long the plane is that cr is read from.
    fn cr_length(self, second: usize, third: usize) -> usize
        ensures { result ≡ cr_bytes_of self second third }
    {
        if self.is_shared() { second } else { third }
    }

    fn counts(self) -> bool
        ensures { result ≡ (leb 1 self.planes && leb self.planes 3) }
    {
        (1 <= self.planes) & (self.planes <= 3)
    }

    fn good_shapes(self) -> bool
        ensures { result ≡ good_shapes self }
    {
        self.luma().is_good() & self.cb().is_good() & self.cr().is_good()
    }

    fn planes_reach(self, luma: usize, second: usize, third: usize) -> bool
        ensures { result ≡ planes_reach self luma second third }
    {
        (self.luma().bytes() <= luma)
            & (self.cb().bytes() <= second)
            & (self.cr().bytes() <= self.cr_length(second, third))
    }

    // Whether planes of these lengths can be read. Numbers 1, 2, 4 and 6.
    #[tactic(auto, unfolding(laws::specs::Refusal::lowest))]
    fn readable(self, luma: usize, second: usize, third: usize) -> Result<(), Refusal>
        ensures { no_of result ≡ sizes_no self luma second third }
    {
        Refusal::PlaneCount.unless(self.counts())?;
        Refusal::OnlyLuma.unless(2 <= self.planes)?;
        Refusal::Shape.unless(self.good_shapes())?;
        Refusal::ShortInput.unless(self.planes_reach(luma, second, third))
    }

    fn sizes(self) -> Sizes
        ensures { result ≡ sizes_of self }
    {
        Sizes {
            luma: packed_bytes(self.luma()),
            cb: packed_bytes(self.cb()),
            cr: packed_bytes(self.cr()),
        }
    }
}

// ---- the sizes

// A row without padding.
fn packed_row(s: Shape) -> usize
    ensures { (result ≡ s.width * sample_bytes s.depth) × (result ≤ 131070) }
{
    usize::from(s.width) * plane::sample_bytes(u32::from(s.depth))
}

fn packed_bytes(s: Shape) -> usize
    ensures { result ≡ packed_bytes s }
{
    usize::from(s.height) * packed_row(s)
}

// Tells how long the outputs of `readback_copy` have to be for these planes.
pub fn readback_sizes(
    about: Readback,
    luma: &[u8],
    second: &[u8],
    third: &[u8],
) -> Result<Sizes, Refusal>
    ensures result_value { no_of result ≡ sizes_no_of about luma second third }
    ensures result_value_2 { values_of result ≡ when_done (sizes_no_of about luma second third) (sizes_of about) }
{
    about.readable(luma.len(), second.len(), third.len())?;
    Ok(about.sizes())
}

// ---- the copy

impl Sizes {
    fn fit(self, luma_room: usize, cb_room: usize, cr_room: usize) -> bool
        ensures { result ≡ outputs_hold self luma_room cb_room cr_room }
    {
        (self.luma <= luma_room) & (self.cb <= cb_room) & (self.cr <= cr_room)
    }
}

// Whether a copy can be done, from what `readback_sizes` gives and the lengths of the outputs.
fn copyable(
    needed: Result<Sizes, Refusal>,
    luma_room: usize,
    cb_room: usize,
    cr_room: usize,
) -> Result<(), Refusal>
    ensures { no_of result ≡ with_room needed luma_room cb_room cr_room }
{
    let sizes = needed?;
    Refusal::ShortOutput.unless(sizes.fit(luma_room, cb_room, cr_room))
}

// The number that two bytes of a row are, the low one first, shifted right.
fn word_at(row: &[u8], i: usize, right: u16) -> u16
    requires { (i + 1 < length row.now) × (right ≤ 7) }
    ensures { (result ≡ (get_or row.now i 0 + 256 * get_or row.now (i + 1) 0) / 2 ^ right) × (result < 65536) }
{
    (u16::from(row[i]) + 256 * u16::from(row[i + 1])) >> right
}

// A row for each kind. The loops run over parts and ask nothing of a sample, so that they are vectorised.
fn copy_bytes(to: &mut [u8], row: &[u8], width: usize)
    requires { RowRoom Byte width to.old row.now }
    ensures { to.new ≡ laid width (copy_in Byte row.now 0 0) }
{
    copy::copy_front(to, &row[0..width]);
}

fn copy_every_second_byte(to: &mut [u8], row: &[u8], width: usize, lane: usize)
    requires { RowRoom EverySecondByte width to.old row.now × (lane ≤ 1) }
    ensures { to.new ≡ laid width (copy_in EverySecondByte row.now lane 0) }
{
    for x in 0..width {
        to[x] = row[x * 2 + lane];
    }
}

// Pairs that stand STEP pairs apart, from pair `lane` on.
fn copy_pairs<const STEP: usize>(to: &mut [u8], row: &[u8], width: usize, lane: usize, right: u16)
    requires { PairsRoom STEP width to.old row.now × (lane < STEP) × (right ≤ 7) }
    ensures { to.new ≡ laid width (pair_in STEP row.now lane right) }
{
    for x in 0..width {
        let i = x * 2;
        let word = word_at(row, (x * STEP + lane) * 2, right);
        to[i] = (word % 256) as u8;
        to[i + 1] = (word / 256) as u8;
    }
}

// A match and no closure: no plainer, since each kind has a loop of its own and the proof goes by kind.
fn copy_row(kind: Kind, to: &mut [u8], row: &[u8], width: usize, lane: usize, right: u16)
    requires { RowRoom kind width to.old row.now × (lane ≤ 1) × (right ≤ 7) }
    ensures { to.new ≡ laid width (copy_in kind row.now lane right) }
{
    match kind {
        Kind::Byte => copy_bytes(to, row, width),
        Kind::EverySecondByte => copy_every_second_byte(to, row, width, lane),
        Kind::Pair => copy_pairs::<1>(to, row, width, 0, right),
        Kind::EverySecondPair => copy_pairs::<2>(to, row, width, lane, right),
    }
}

fn kind_of(s: Shape) -> Kind
    ensures { result ≡ kind_of s }
{
    match (s.depth <= 8, s.layout.is_alone()) {
        (true, true) => Kind::Byte,
        (true, false) => Kind::EverySecondByte,
        (false, true) => Kind::Pair,
        (false, false) => Kind::EverySecondPair,
    }
}

// How many bytes of a row each column has.
fn step_of(kind: Kind) -> usize
    ensures { (result ≡ step_of kind) × (result ≤ 4) }
{
    match kind {
        Kind::Byte => 1,
        Kind::EverySecondByte | Kind::Pair => 2,
        Kind::EverySecondPair => 4,
    }
}

// Each row of a plane, without its padding, behind the one above it. The kind is found once.
fn copy_rows(out: &mut [u8], plane: &[u8], s: Shape)
    requires { PlaneReady s (length plane.now) (length out.old) }
    ensures { out.new ≡ over (copied_of plane.now s) out.old }
{
    let kind = kind_of(s);
    let lane = s.layout.component();
    let right = u16::from(s.layout.shift(s.depth));
    let width = usize::from(s.width);
    let stride = s.stride as usize;
    let taken = width * step_of(kind);
    let size = packed_row(s);
    let height = usize::from(s.height);
    for y in 0..height {
        let start = y * size;
        let row = copy::part(plane, y * stride, taken);
        copy_row(kind, &mut out[start..start + size], row, width, lane, right);
    }
}

fn copy_cr(out: &mut [u8], about: Readback, second: &[u8], third: &[u8])
    requires { PlaneReady (cr_shape about) (cr_bytes_of about (length second.now) (length third.now)) (length out.old) }
    ensures { out.new ≡ over (copied_of (cr_bytes_of about second.now third.now) (cr_shape about)) out.old }
{
    if about.is_shared() {
        copy_rows(out, second, about.cr());
    } else {
        copy_rows(out, third, about.cr());
    }
}

// The three planes, each to the front of its output. The planes are judged anew, and the outputs by the
// sizes found anew, whatever was told before.
pub fn readback_copy(
    out_luma: &mut [u8],
    out_cb: &mut [u8],
    out_cr: &mut [u8],
    about: Readback,
    luma: &[u8],
    second: &[u8],
    third: &[u8],
) -> Result<(), Refusal>
    ensures value { no_of result ≡ readback_no_of about luma second third out_luma out_cb out_cr }
    ensures out_luma_after { out_luma.new ≡ copied_after (no_of result) luma.now (luma_shape about) out_luma.old }
    ensures out_cb_after { out_cb.new ≡ copied_after (no_of result) second.now (cb_shape about) out_cb.old }
    ensures out_cr_after { out_cr.new ≡ copied_after (no_of result) (cr_bytes_of about second.now third.now) (cr_shape about) out_cr.old }
{
    let needed = readback_sizes(about, luma, second, third);
    copyable(needed, out_luma.len(), out_cb.len(), out_cr.len())?;
    copy_rows(out_luma, luma, about.luma());
    copy_rows(out_cb, second, about.cb());
    copy_cr(out_cr, about, second, third);
    Ok(())
}
