// Copyright 2026 Till0196
// SPDX-License-Identifier: Apache-2.0
// Carried over from core/src/output/video/filter.rs (`comb`, `comb_rgba`), and changed: a plane is a
// lent slice beside its numbers, rows are read as parts, and what is out of bounds is refused.
//
// Comb: how far each row stands out from the two beside it, summed over a picture.
#![tactic(auto)]

ghost use Rattle.std.specs.Prelude.{◌≡◌, ◌+◌, ◌*◌, ◌-◌, ◌<◌, ◌≤◌, ◌^◌, length, get_or, take, drop};
ghost use Rattle.laws.specs.Refusal.{when_done};
ghost use Rattle.laws.specs.Sums.{sum_over, apart};
ghost use Rattle.refusal.specs.Refusal.{no_of, values_of};
ghost use Rattle.comb.specs.Comb.{comb_of, plane_comb, rgba_comb};
ghost use Rattle.comb.specs.Answer.{comb_no, rgba_no};
ghost use Rattle.comb.specs.Rows.{kind_of, size_of, code_in, bend_in, codes_of, low_in, Rows, AllUpTo};
ghost use Rattle.comb.specs.declared.Kind.{Kind};
ghost use Rattle.comb.specs.declared.Kind.TheVariants.{Byte, Pair, Cut, Green};

use plane::{Layout, Shape};
use refusal::Refusal;

// How a row holds the code of a column.
#[derive(Clone, Copy, Debug, PartialEq, Eq)]
enum Kind {
    // One byte.
    Byte,
    // Two bytes, the low one first.
    Pair,
    // The same, and at most this number.
    Cut(u16),
    // Byte 1 of four.
    Green,
}

// Three rows of one kind, one below the other.
#[derive(Clone, Copy)]
struct Three<'a> {
    up: &'a [u8],
    here: &'a [u8],
    down: &'a [u8],
}

// Bends added up, in two places: columns of sixteen bits, and `total`. No column is above `most`.
#[derive(Drop)]
struct Tally {
    columns: [u16; 256],
    most: u32,
    total: u64,
    ghost up_to: { AllUpTo most columns },
    ghost fits: { most ≤ 65535 },
}

// |2 * here - up - down|.
fn bend(up: u32, here: u32, down: u32) -> u32
    requires { (up ≤ 65535) × (here ≤ 65535) × (down ≤ 65535) }
    ensures { (result ≡ apart (2 * here) (up + down)) × (result ≤ 131070) }
{
    (2 * here).abs_diff(up + down)
}

// The same of codes below 2^15, in the sixteen bits that they have: a vector holds twice as many. With `bend` in its
// place the loop takes twice as long.
fn low_bend(up: u16, here: u16, down: u16) -> u16
    requires { (up ≤ 32767) × (here ≤ 32767) × (down ≤ 32767) }
    ensures { (result ≡ apart (2 * here) (up + down)) × (result ≤ 65534) }
{
    (up + down).abs_diff(2 * here)
}

fn pair_at(row: &[u8], x: usize) -> u16
    requires { x * 2 + 1 < length row.now }
    ensures { result ≡ code_in Pair row.now x }
{
    u16::from_le_bytes([row[x * 2], row[x * 2 + 1]])
}

fn cut_at(row: &[u8], x: usize, full: u16) -> u16
    requires { x * 2 + 1 < length row.now }
    ensures { (result ≡ code_in (Cut full) row.now x) × (result ≤ full) }
{
    pair_at(row, x).min(full)
}

// The code in column x of a row of each kind. A type for each kind, so that no loop asks the kind of each sample:
// the compiler then vectorises bytes and pairs. Cut codes go by columns, below.
trait Coding {
    ghost kind: { Kind };

    fn code(row: &[u8], x: usize) -> u32
        requires { (x + 1) * size_of kind ≤ length row.now }
        ensures { (result ≡ code_in kind row.now x) × (result ≤ 65535) };
}

struct Bytes;

impl Coding for Bytes {
    ghost kind = { Byte };

    fn code(row: &[u8], x: usize) -> u32 {
        u32::from(row[x])
    }
}

struct Pairs;

impl Coding for Pairs {
    ghost kind = { Pair };

    fn code(row: &[u8], x: usize) -> u32 {
        u32::from(pair_at(row, x))
    }
}

struct Greens;

impl Coding for Greens {
    ghost kind = { Green };

    fn code(row: &[u8], x: usize) -> u32 {
        u32::from(row[x * 4 + 1])
    }
}

// The bends of a row, added up.
fn row_bend<C: Coding>(rows: Three, width: usize) -> u32
    requires { Rows C.kind width rows.up.now rows.here.now rows.down.now }
    ensures { result ≡ sum_over width (bend_in C.kind rows.entry.up.now rows.entry.here.now rows.entry.down.now) }
{
    let Three { up, here, down } = rows;
    let mut sum: u32 = 0;
    for x in 0..width {
        sum += bend(C::code(up, x), C::code(here, x), C::code(down, x));
    }
    sum
}

// The columns added up. Two sums, since each addition waits for the one before it.
fn sum_of(columns: &[u16; 256]) -> u32
    ensures { result ≡ sum_over 256 (λ x. get_or columns.now x 0) }
{
    let mut left: u32 = 0;
    let mut right: u32 = 0;
    for x in 0..128 {
        left += u32::from(columns[x]);
        right += u32::from(columns[128 + x]);
    }
    left + right
}

// The row of n bytes that starts at a place of the plane. A range would state the place twice.
fn row_at(plane: &[u8], start: usize, n: usize) -> &[u8]
    requires { start + n ≤ length plane.now }
    ensures { result.now ≡ take n (drop start plane.now) }
{
    &plane[start..start + n]
}

impl<'a> Three<'a> {
    // The rows of n bytes of which the first starts at a place of the plane.
    fn of_plane(plane: &'a [u8], start: usize, stride: usize, n: usize) -> Three<'a>
        requires { start + stride + stride + n ≤ length plane.now }
        ensures { (result.up.now ≡ take n (drop start plane.now)) × (result.here.now ≡ take n (drop (start + stride) plane.now)) × (result.down.now ≡ take n (drop (start + stride + stride) plane.now)) }
    {
        Three {
            up: row_at(plane, start, n),
            here: row_at(plane, start + stride, n),
            down: row_at(plane, start + stride + stride, n),
        }
    }

    // A tile: n columns of two bytes, from column x on.
    fn tile(self, x: usize, n: usize) -> Three<'a>
        requires { (2 * x + 2 * n ≤ length self.up.now) × (2 * x + 2 * n ≤ length self.here.now) × (2 * x + 2 * n ≤ length self.down.now) }
        ensures { (result.up.now ≡ take (2 * n) (drop (2 * x) self.entry.up.now)) × (result.here.now ≡ take (2 * n) (drop (2 * x) self.entry.here.now)) × (result.down.now ≡ take (2 * n) (drop (2 * x) self.entry.down.now)) }
    {
        Three {
            up: row_at(self.up, 2 * x, 2 * n),
            here: row_at(self.here, 2 * x, 2 * n),
            down: row_at(self.down, 2 * x, 2 * n),
        }
    }
}

impl Tally {
    ghost use Rattle.comb.specs.Tally.{in_all, Grown};

    fn new() -> Tally
        ensures { in_all result ≡ 0 }
    {
        Tally {
            columns: [0; 256],
            most: 0,
            total: 0,
        }
    }

    fn sum(&self) -> u64
        requires { in_all self.now < 2 ^ 63 }
        ensures { result ≡ in_all self.now }
    {
        self.total + u64::from(sum_of(&self.columns))
    }

    fn add(&mut self, sum: u32)
        requires { in_all self.old < 2 ^ 62 }
        ensures { Grown self.old self.new sum }
    {
        self.total += u64::from(sum);
    }

    // Makes room in every column for one more bend of at most `largest`: if there is none, the columns go into
    // the total and start again at 0.
    fn make_room(&mut self, largest: u32)
        requires { (in_all self.old < 2 ^ 63) × (largest ≤ 65535) }
        ensures { (in_all self.new ≡ in_all self.old) × (self.new.most + largest ≤ 65535) }
    {
        if self.most + largest <= 65535 {
            return;
        }
        self.total = self.sum();
        self.columns.fill(0);
        self.most = 0;
    }

    // The bends of a tile, which is a part of a row, each added to its column, in sixteen bits: with no wider sum
    // in its loop a vector holds eight.
    fn add_tile(&mut self, rows: Three, n: usize, full: u16)
        requires { Rows (Cut full) n rows.up.now rows.here.now rows.down.now × (n ≤ 256) × (in_all self.old < 2 ^ 63) }
        ensures { Grown self.old self.new (sum_over n (bend_in (Cut full) rows.entry.up.now rows.entry.here.now rows.entry.down.now)) }
    {
        let largest = 2 * u32::from(full);
        self.make_room(largest);
        self.most += largest;
        let Three { up, here, down } = rows;
        for x in 0..n {
            self.columns[x] += low_bend(
                cut_at(up, x, full),
                cut_at(here, x, full),
                cut_at(down, x, full),
            );
        }
    }

    fn add_cuts(&mut self, rows: Three, width: usize, full: u16)
        requires { Rows (Cut full) width rows.up.now rows.here.now rows.down.now × (in_all self.old < 2 ^ 62) }
        ensures { Grown self.old self.new (sum_over width (bend_in (Cut full) rows.entry.up.now rows.entry.here.now rows.entry.down.now)) }
    {
        for tile in 0..width.div_ceil(256) {
            let x = 256 * tile;
            let n = (width - x).min(256);
            self.add_tile(rows.tile(x, n), n, full);
        }
    }

    // The bends of a row, added to those before it. Only those of cut codes go by way of the columns. The kind is
    // asked once a row.
    fn add_row(&mut self, kind: Kind, rows: Three, width: usize)
        requires { Rows kind width rows.up.now rows.here.now rows.down.now × (in_all self.old < 2 ^ 62) }
        ensures { Grown self.old self.new (sum_over width (bend_in kind rows.entry.up.now rows.entry.here.now rows.entry.down.now)) }
    {
        match kind {
            Kind::Byte => self.add(row_bend::<Bytes>(rows, width)),
            Kind::Pair => self.add(row_bend::<Pairs>(rows, width)),
            Kind::Cut(full) => self.add_cuts(rows, width, full),
            Kind::Green => self.add(row_bend::<Greens>(rows, width)),
        }
    }
}

impl Kind {
    fn size(self) -> usize
        ensures { (result ≡ size_of self) × (result ≤ 4) }
    {
        match self {
            Kind::Byte => 1,
            Kind::Pair | Kind::Cut(_) => 2,
            Kind::Green => 4,
        }
    }

    // Of 8 and of 16 bits no code is above the largest, and none is cut.
    fn of_depth(depth: u8) -> Kind
        ensures { (result ≡ kind_of depth) × low_in result }
    {
        match depth {
            0..=8 => Kind::Byte,
            9..=15 => Kind::Cut(plane::full_code(depth)),
            _ => Kind::Pair,
        }
    }
}

// The bends of every inner row, added up.
fn rows_bend(kind: Kind, plane: &[u8], width: usize, height: u16, stride: usize) -> u64
    requires { (width ≤ 8192) × ((height - 1) * stride + width * size_of kind ≤ length plane.now) × low_in kind }
    ensures { result ≡ comb_of (codes_of kind plane.now stride) width height }
{
    let n = width * kind.size();
    let mut tally = Tally::new();
    for y in 0..usize::from(height.saturating_sub(2)) {
        tally.add_row(kind, Three::of_plane(plane, y * stride, stride, n), width);
    }
    tally.sum()
}

// Whether a plane's comb can be counted. Numbers 4 and 6.
#[tactic(auto, unfolding(laws::specs::Refusal::lowest))]
fn countable(width: u16, height: u16, depth: u8, stride: u32, bytes: usize) -> Result<(), Refusal>
    ensures { no_of result ≡ comb_no width height depth stride bytes }
{
    let shape = Shape {
        width,
        height,
        depth,
        stride,
        layout: Layout::Planar,
    };
    Refusal::Shape.unless(shape.is_good())?;
    Refusal::ShortInput.unless(shape.bytes() <= bytes)
}

// The same of an RGBA picture.
#[tactic(auto, unfolding(laws::specs::Refusal::lowest))]
fn rgba_countable(width: u16, height: u16, bytes: usize) -> Result<(), Refusal>
    ensures { no_of result ≡ rgba_no width height bytes }
{
    Refusal::Shape.unless((1 <= width) & (width <= 8192) & (1 <= height) & (height <= 4352))?;
    Refusal::ShortInput.unless(usize::from(height) * usize::from(width) * 4 <= bytes)
}

// The comb of a plane of one component a sample. Its codes are not shifted, and one above the largest of
// its depth counts as that. The luma of a biplanar frame deeper than 8 bits has its codes in the high
// bits, where nearly every one counts so: such a frame goes through readback first.
pub fn comb(plane: &[u8], width: u16, height: u16, depth: u8, stride: u32) -> Result<u64, Refusal>
    ensures result_value { no_of result ≡ comb_no width height depth stride (length plane.now) }
    ensures result_value_2 { values_of result ≡ when_done (comb_no width height depth stride (length plane.now)) (plane_comb plane.now width height depth stride) }
{
    countable(width, height, depth, stride, plane.len())?;
    Ok(rows_bend(
        Kind::of_depth(depth),
        plane,
        usize::from(width),
        height,
        stride as usize,
    ))
}

// The comb of the green of an RGBA picture.
pub fn comb_rgba(rgba: &[u8], width: u16, height: u16) -> Result<u64, Refusal>
    ensures { (no_of result ≡ rgba_no width height (length rgba.now)) × (values_of result ≡ when_done (rgba_no width height (length rgba.now)) (rgba_comb rgba.now width height)) }
{
    rgba_countable(width, height, rgba.len())?;
    Ok(rows_bend(
        Kind::Green,
        rgba,
        usize::from(width),
        height,
        usize::from(width) * 4,
    ))
}
