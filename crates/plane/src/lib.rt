// Copyright 2026 Till0196
// SPDX-License-Identifier: Apache-2.0
// Carried over from core/src/output/video/filter.rs (`Samples`, `Planes`), and changed: a plane is a
// lent slice beside its shape, the layout is an enum, and what is out of bounds is refused.
//
// A plane of samples: its shape and bounds, and what stands at a place. Narrow types make every place
// of every shape a usize, and a read past the end gives 0, so the public functions below the two reads
// take every input too.
#![tactic(auto)]

ghost use Rattle.std.specs.Prelude.{◌≡◌, ◌+◌, ◌*◌, ◌-◌, ◌/◌, ◌<◌, ◌≤◌, ◌^◌, min, max, get_or};
ghost use Rattle.laws.specs.Refusal.{lowest};
ghost use Rattle.refusal.specs.Refusal.{no_of};
ghost use Rattle.float.specs.Bounds.{Unit};
ghost use Rattle.plane.specs.Plane.{components, component, alone, sample_bytes, good_shape, plane_bytes, grid_shape, start_of, biplanar, shift, code_of, full_code, value_of, agree, half, chroma_agrees, planar_of, biplanar_of};
ghost use Rattle.plane.specs.Coordinates.{in_reach, inside, held, parity_of, bias_of, unbiased};
ghost use Rattle.plane.specs.Answer.{read_tests, GivesCode, GivesValue};

use refusal::Refusal;

// Which samples of its bytes a plane gives. Component, shift and samples per row follow from it.
#[derive(Clone, Copy, Debug, PartialEq, Eq)]
pub enum Layout {
    // One component, codes in the low bits.
    Planar,
    // The luma plane of a biplanar frame: codes deeper than 8 bits stand in the high bits.
    Luma,
    // The first and the second of two components that share a plane of a biplanar frame.
    First,
    Second,
}

// The width is that of one component. Stride is in bytes.
#[derive(Clone, Copy, Debug, PartialEq, Eq)]
pub struct Shape {
    pub width: u16,
    pub height: u16,
    pub depth: u8,
    pub stride: u32,
    pub layout: Layout,
}

// The shape of a plane whose codes are not shifted, with nothing beside them.
#[derive(Clone, Copy, Debug, PartialEq, Eq)]
pub struct Grid {
    pub width: u16,
    pub height: u16,
    pub depth: u8,
    pub stride: u32,
}

// The three planes of a frame.
#[derive(Clone, Copy, Debug, PartialEq, Eq)]
pub struct Planes {
    pub luma: Shape,
    pub cb: Shape,
    pub cr: Shape,
}

// How far a coordinate is moved to be held as a natural number: even, so that a row keeps its parity.
const BIAS: u32 = 65544;

impl Layout {
    pub fn components(self) -> usize
        ensures { (result ≡ components self) × (result ≤ 2) }
    {
        match self {
            Layout::Planar | Layout::Luma => 1,
            Layout::First | Layout::Second => 2,
        }
    }

    pub fn component(self) -> usize
        ensures { (result ≡ component self) × (result ≤ 1) }
    {
        match self {
            Layout::Planar | Layout::Luma | Layout::First => 0,
            Layout::Second => 1,
        }
    }

    pub fn is_biplanar(self) -> bool
        ensures { result ≡ biplanar self }
    {
        match self {
            Layout::Planar => false,
            Layout::Luma | Layout::First | Layout::Second => true,
        }
    }

    // A row with samples of one component only can be read from end to end.
    pub fn is_alone(self) -> bool
        ensures { result ≡ alone self }
    {
        match self {
            Layout::Planar | Layout::Luma => true,
            Layout::First | Layout::Second => false,
        }
    }

    pub fn shift(self, depth: u8) -> u8
        ensures { (result ≡ shift self depth) × (result ≤ 7) }
    {
        shift_by(self, depth, spare_bits(depth)) as u8
    }
}

pub fn sample_bytes(depth: u32) -> usize
    ensures { (result ≡ sample_bytes depth) × (result ≤ 2) }
{
    if depth <= 8 { 1 } else { 2 }
}

// Once or twice a number of at most 34 bits.
fn times(n: usize, few: usize) -> usize
    requires { (n < 2 ^ 34) × (few ≤ 2) }
    ensures { (result ≡ n * few) × (result ≤ 2 * n) }
{
    n * few
}

fn row_bytes(width: u32, depth: u32, layout: Layout) -> usize
    ensures { (result ≡ width * components layout * sample_bytes depth) × (result < 2 ^ 34) }
{
    times(
        times(width as usize, layout.components()),
        sample_bytes(depth),
    )
}

// The bounds, on numbers that need not fit a `Shape`.
pub fn within(width: u32, height: u32, depth: u32, stride: u32, layout: Layout) -> bool
    ensures { result ≡ good_shape (record { width = width; height = height; depth = depth; stride = stride; layout = layout }) }
{
    let row = row_bytes(width, depth, layout);
    (1 <= width)
        & (width <= 8192)
        & (1 <= height)
        & (height <= 4352)
        & (8 <= depth)
        & (depth <= 16)
        & (stride <= 65536)
        & (row <= stride as usize)
}

impl Shape {
    pub fn is_good(self) -> bool
        ensures { result ≡ good_shape self }
    {
        within(
            u32::from(self.width),
            u32::from(self.height),
            u32::from(self.depth),
            self.stride,
            self.layout,
        )
    }

    pub fn bytes(self) -> usize
        ensures { result ≡ plane_bytes self }
    {
        let row = row_bytes(u32::from(self.width), u32::from(self.depth), self.layout);
        rows(u32::from(self.height.saturating_sub(1)), self.stride, row)
    }

    pub fn agrees(self, other: Shape) -> bool
        ensures { result ≡ agree self other }
    {
        (self.width == other.width) & (self.height == other.height) & (self.depth == other.depth)
    }

    // Whether a chroma plane is that of a luma plane of this shape.
    pub fn chroma_agrees(self, chroma: Shape) -> bool
        ensures { result ≡ chroma_agrees self chroma }
    {
        (chroma.width == half_of(self.width))
            & (chroma.height == half_of(self.height))
            & (chroma.depth == self.depth)
    }
}

impl From<Grid> for Shape {
    ghost from_gives = { λ grid shape. shape ≡ grid_shape grid };

    fn from(grid: Grid) -> Shape {
        Shape {
            width: grid.width,
            height: grid.height,
            depth: grid.depth,
            stride: grid.stride,
            layout: Layout::Planar,
        }
    }
}

// y rows of a stride, and what stands before a sample in its own row.
fn rows(y: u32, stride: u32, more: usize) -> usize
    requires { (y ≤ 65535) × (more < 2 ^ 34) }
    ensures { (result ≡ y * stride + more) × (result < 2 ^ 49) }
{
    (y as usize) * (stride as usize) + more
}

// Columns, rows and codes are held in 32 bits: of sixteen, the machine code clears the upper half again at
// each step.
fn start_of(s: Shape, x: u32, y: u32) -> usize
    requires { (x ≤ 65535) × (y ≤ 65535) }
    ensures { (result ≡ start_of s x y) × (result < 2 ^ 49) }
{
    let lane = times(x as usize, s.layout.components()) + s.layout.component();
    rows(y, s.stride, times(lane, sample_bytes(u32::from(s.depth))))
}

fn byte_at(plane: &[u8], i: usize) -> u32
    ensures { (result ≡ get_or plane.now i 0) × (result < 256) }
{
    plane.get(i).map_or(0, |byte| u32::from(*byte))
}

// Two bytes, the low one first.
fn pair_at(plane: &[u8], i: usize) -> u32
    requires { i < 2 ^ 49 }
    ensures { (result ≡ get_or plane.now i 0 + 256 * get_or plane.now (i + 1) 0) × (result ≤ 65535) }
{
    byte_at(plane, i) + 256 * byte_at(plane, i + 1)
}

// How many of sixteen bits a depth leaves: shift and largest code both follow from it.
fn spare_bits(depth: u8) -> u32
    ensures { (result ≡ 16 - max 8 (min depth 16)) × (result ≤ 8) }
{
    16 - u32::from(depth.clamp(8, 16))
}

fn shift_by(layout: Layout, depth: u8, spare: u32) -> u32
    requires { spare ≡ 16 - max 8 (min depth 16) }
    ensures { (result ≡ shift layout depth) × (result ≤ 7) }
{
    if layout.is_biplanar() & (9 <= depth) {
        spare
    } else {
        0
    }
}

// 2^depth - 1, the largest code of a depth that leaves so many bits.
fn full_by(spare: u32) -> u32
    requires { spare ≤ 8 }
    ensures { (result ≡ 2 ^ (16 - spare) - 1) × (result ≤ 65535) }
{
    65535 >> spare
}

pub fn full_code(depth: u8) -> u16
    ensures { result ≡ full_code depth }
{
    full_by(spare_bits(depth)) as u16
}

// A code held in 32 bits, of any shape; 0 past the end. A capture card may leave stray bits above a code: a word above
// the largest code counts as that. A byte is neither shifted nor above the largest code.
// What is spare stands before the test of the depth, so that the compiler shares it with `value_at`.
fn code_wide(plane: &[u8], s: Shape, x: u32, y: u32) -> u32
    requires { (x ≤ 65535) × (y ≤ 65535) }
    ensures { (result ≡ code_of plane.now s x y) × (result ≤ 65535) }
{
    let i = start_of(s, x, y);
    let spare = spare_bits(s.depth);
    if s.depth <= 8 {
        return byte_at(plane, i);
    }
    let right = shift_by(s.layout, s.depth, spare);
    (pair_at(plane, i) >> right).min(full_by(spare))
}

// A code, of any shape; 0 past the end.
pub fn code_at(plane: &[u8], s: Shape, x: u16, y: u16) -> u16
    ensures { result ≡ code_of plane.now s x y }
{
    code_wide(plane, s, u32::from(x), u32::from(y)) as u16
}

// The coordinate c - 65,544 brought into 0 .. size - 1.
#[tactic(auto, using(crate::proofs::Coordinates::held_is))]
fn hold(size: u16, c: u32) -> u32
    ensures { (result ≡ held size (unbiased c)) × (result ≤ 65535) }
{
    c.saturating_sub(BIAS)
        .min(u32::from(size.saturating_sub(1)))
}

// The value at held coordinates (`biased`), of any shape.
pub fn value_at(plane: &[u8], s: Shape, x: u32, y: u32) -> f32
    ensures { (result ≡ value_of plane.now s (unbiased x) (unbiased y)) × Unit result }
{
    let column = hold(s.width, x);
    let row = hold(s.height, y);
    // Before the read: the other way round is slower on Arm (docs/DECISIONS.md, "Speed").
    let full = full_by(spare_bits(s.depth));
    (code_wide(plane, s, column, row) as f32) / (full as f32)
}

pub fn in_reach(x: i32) -> bool
    ensures { result ≡ in_reach x }
{
    (-65536 <= x) & (x <= 65536)
}

// A coordinate as the code holds it: x + 65,544, and 0 for an x out of reach.
pub fn biased(x: i32) -> u32
    ensures { result ≡ bias_of x }
{
    if in_reach(x) { (x + 65544) as u32 } else { 0 }
}

// The parity of a row, also of one above the picture. A remainder here has the dividend's sign, so it
// is held to 0 and not to 1.
pub fn row_parity(y: i32) -> u32
    ensures { result ≡ parity_of y }
{
    if y % 2 == 0 { 0 } else { 1 }
}

fn is_inside(x: i32, size: u16) -> bool
    ensures { result ≡ inside size x }
{
    (0 <= x) & (x < size as i32)
}

// Whether a read can be done, of a plane of so many bytes. Numbers 3, 4 and 6.
#[tactic(auto, unfolding(laws::specs::Refusal::lowest))]
fn readable(coordinates: bool, s: Shape, bytes: usize) -> Result<(), Refusal>
    ensures { no_of result ≡ lowest (read_tests coordinates s bytes) }
{
    Refusal::Outside.unless(coordinates)?;
    Refusal::Shape.unless(s.is_good())?;
    Refusal::ShortInput.unless(s.bytes() <= bytes)
}

// The code at a place inside the plane.
pub fn code(plane: &[u8], s: Shape, x: i32, y: i32) -> Result<u16, Refusal>
    ensures { GivesCode result plane.now s x y }
{
    let inner = is_inside(x, s.width) & is_inside(y, s.height);
    readable(inner, s, plane.len())?;
    Ok(code_at(plane, s, x as u16, y as u16))
}

// The value at coordinates that may lie outside the plane.
pub fn at(plane: &[u8], s: Shape, x: i32, y: i32) -> Result<f32, Refusal>
    ensures { GivesValue result plane.now s x y }
{
    readable(in_reach(x) & in_reach(y), s, plane.len())?;
    Ok(value_at(plane, s, biased(x), biased(y)))
}

pub fn half_of(n: u16) -> u16
    ensures { result ≡ half n }
{
    ((u32::from(n) + 1) / 2) as u16
}

impl Planes {
    pub fn planar(
        width: u16,
        height: u16,
        depth: u8,
        luma_stride: u32,
        cb_stride: u32,
        cr_stride: u32,
    ) -> Planes
        ensures { result ≡ planar_of width height depth luma_stride cb_stride cr_stride }
    {
        let columns = half_of(width);
        let rows = half_of(height);
        Planes {
            luma: Shape {
                width,
                height,
                depth,
                stride: luma_stride,
                layout: Layout::Planar,
            },
            cb: Shape {
                width: columns,
                height: rows,
                depth,
                stride: cb_stride,
                layout: Layout::Planar,
            },
            cr: Shape {
                width: columns,
                height: rows,
                depth,
                stride: cr_stride,
                layout: Layout::Planar,
            },
        }
    }

    // Luma, and the chroma pair in one plane (NV12, P010).
    pub fn biplanar(
        width: u16,
        height: u16,
        depth: u8,
        luma_stride: u32,
        chroma_stride: u32,
    ) -> Planes
        ensures { result ≡ biplanar_of width height depth luma_stride chroma_stride }
    {
        let columns = half_of(width);
        let rows = half_of(height);
        Planes {
            luma: Shape {
                width,
                height,
                depth,
                stride: luma_stride,
                layout: Layout::Luma,
            },
            cb: Shape {
                width: columns,
                height: rows,
                depth,
                stride: chroma_stride,
                layout: Layout::First,
            },
            cr: Shape {
                width: columns,
                height: rows,
                depth,
                stride: chroma_stride,
                layout: Layout::Second,
            },
        }
    }
}
