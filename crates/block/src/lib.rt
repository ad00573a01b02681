// Copyright 2026 Till0196
// SPDX-License-Identifier: Apache-2.0
// Carried over from core/src/output/video/telecine.rs (`Snapshot`), and changed: the kept frame is one lent
// store of width times height bytes, which a new picture is compared with and then written over.
//
// Which blocks of a field moved against the frame that a store keeps.
#![tactic(auto)]

ghost use Rattle.std.specs.Prelude.{◌≡◌, ◌+◌, ◌*◌, ◌/◌, ◌%◌, ◌^◌, ◌<◌, ◌≤◌, min, ltb, length, get_or, take, drop};
ghost use Rattle.laws.specs.Refusal.{written};
ghost use Rattle.refusal.specs.Refusal.{no_of, values_of};
ghost use Rattle.laws.specs.Rows.{listed, over};
ghost use Rattle.laws.specs.Sums.{sum_over};
ghost use Rattle.field.specs.Field.{first_row_of};
ghost use Rattle.plane.specs.Plane.{grid_shape};
ghost use Rattle.block.specs.Block.{kept_of, kept_frame, rows_of, one_if, differs, blocks_across, bands_down, total_of, busy_field};
ghost use Rattle.block.specs.Answer.{counts_of, count_no, count_values, keep_no};
ghost use Rattle.block.specs.Rows.{PictureReady, RowReady, KeptRow, pair_kept};
ghost use Rattle.block.specs.Counters.{differing_lists, differing_row, band_row, busy_by, Counters, Added};

use plane::{Grid, Shape};
use refusal::Refusal;

// Busy blocks, and all blocks, of a field.
#[derive(Clone, Copy, Debug, PartialEq, Eq)]
pub struct Counts {
    pub busy: u64,
    pub total: u64,
}

// A picture, and the store with the frame that it is compared with, which passed the tests of `count`.
#[derive(Clone, Copy)]
struct Both<'a> {
    plane: &'a [u8],
    grid: Grid,
    store: &'a [u8],
    ghost ready: { PictureReady (grid_shape grid) (length plane.now) (length store.now) },
}

// A part of n bytes.
fn part_at(bytes: &[u8], start: usize, n: usize) -> &[u8]
    requires { start + n ≤ length bytes.now }
    ensures { result.now ≡ take n (drop start bytes.now) }
{
    &bytes[start..start + n]
}

// ---- rows as they are kept

fn upper(word: u16, right: u16) -> u16
    requires { right ≤ 8 }
    ensures { result ≡ word / 2 ^ right }
{
    word >> right
}

fn modulo_256(code: u16) -> u16
    ensures { (result ≡ code % 256) × (result < 256) }
{
    code % 256
}

// A row of one byte a sample, and one of two. The loops run over parts, so that the compiler drops every index
// test and vectorises them. With `copy_from_slice` the archive would need C's memmove from its host.
fn keep_bytes(to: &mut [u8], row: &[u8])
    requires { length row.now ≡ length to.old }
    ensures { to.new ≡ listed (length to.old) (λ x. get_or row.now x 0) }
{
    for x in 0..to.len() {
        to[x] = row[x];
    }
}

// A code is cut at 255 behind its shift, which comes to the same as at the largest code before it. The shift is no
// const parameter: known too early, one by 8 becomes a read of every second byte, which is not vectorised.
fn keep_pairs(to: &mut [u8], row: &[u8], right: u16)
    requires { (length row.now ≡ length to.old * 2) × (right ≤ 8) }
    ensures { to.new ≡ listed (length to.old) (pair_kept row.now right) }
{
    for x in 0..to.len() {
        let i = x * 2;
        let word = u16::from(row[i]) + 256 * u16::from(row[i + 1]);
        to[x] = modulo_256(upper(word, right).min(255)) as u8;
    }
}

// Each depth has a loop of its own, since a shift by a constant narrows a vector with the cut at no cost.
fn keep_deep(to: &mut [u8], row: &[u8], right: u16)
    requires { (length row.now ≡ length to.old * 2) × (1 ≤ right) × (right ≤ 8) }
    ensures { to.new ≡ listed (length to.old) (pair_kept row.now right) }
{
    match right {
        1 => keep_pairs(to, row, 1),
        2 => keep_pairs(to, row, 2),
        3 => keep_pairs(to, row, 3),
        4 => keep_pairs(to, row, 4),
        5 => keep_pairs(to, row, 5),
        6 => keep_pairs(to, row, 6),
        7 => keep_pairs(to, row, 7),
        _ => keep_pairs(to, row, 8),
    }
}

// Row y of a picture of one byte a sample, where it stands.
fn byte_row(plane: &[u8], grid: Grid, y: usize) -> &[u8]
    requires { RowReady (grid_shape grid) (length plane.now) y × (grid.depth ≤ 8) }
    ensures { KeptRow result.now plane.now (grid_shape grid) y }
{
    part_at(plane, y * (grid.stride as usize), usize::from(grid.width))
}

// Row y of a picture, kept in a place of just its width.
fn keep_row(to: &mut [u8], plane: &[u8], grid: Grid, y: usize)
    requires { RowReady (grid_shape grid) (length plane.now) y × (length to.old ≡ grid.width) }
    ensures { to.new ≡ listed grid.width (λ x. kept_of plane.now (grid_shape grid) x y) }
{
    if grid.depth <= 8 {
        keep_bytes(to, byte_row(plane, grid, y));
        return;
    }
    let start = y * (grid.stride as usize);
    let bytes = usize::from(grid.width) * 2;
    let right = u16::from(grid.depth) - 8;
    keep_deep(to, part_at(plane, start, bytes), right);
}

// ---- blocks

// 1 where two samples differ, else 0.
fn differ(a: u8, b: u8) -> u8
    ensures { (result ≡ one_if (differs a b)) × (result ≤ 1) }
{
    u8::from(8 < a.abs_diff(b))
}

// How many samples of two parts of a row differ. Sixteen at most, so a byte holds the sum, and the loop
// is vectorised by bytes.
fn differ_in(a: &[u8], b: &[u8]) -> u32
    requires { (length a.now ≡ length b.now) × (length a.now ≤ 16) }
    ensures { (result ≡ sum_over (length a.now) (λ x. one_if (differs (get_or a.now x 0) (get_or b.now x 0)))) × (result ≤ 16) }
{
    let mut n: u8 = 0;
    for (new, old) in a.iter().zip(b) {
        n += differ(*new, *old);
    }
    u32::from(n)
}

// Blocks across a row, and bands down a field.
fn across(width: usize) -> usize
    requires { width ≤ 65535 }
    ensures { (result ≡ blocks_across width) × (result ≤ 4096) }
{
    width.div_ceil(16)
}

fn bands(rows: usize) -> usize
    requires { rows ≤ 32768 }
    ensures { (result ≡ bands_down rows) × (result ≤ 4096) }
{
    rows.div_ceil(8)
}

// Adds to the counter of each block of 16 columns the differing samples of two rows there.
fn add_row(counters: &mut [u32; 512], new: &[u8], old: &[u8])
    requires { Counters counters.old (length new.now) × (length new.now ≡ length old.now) }
    ensures counters_len { length counters.new ≡ 512 }
    ensures added { Added counters.old counters.new (differing_lists new.now old.now) (blocks_across (length new.now)) }
{
    let width = new.len();
    for b in 0..across(width) {
        let start = 16 * b;
        let n = (width - start).min(16);
        counters[b] += differ_in(part_at(new, start, n), part_at(old, start, n));
    }
}

// The same of row y of a picture and of the kept frame. Rows of two bytes a sample are kept in `row` first.
fn add_row_of(counters: &mut [u32; 512], row: &mut [u8], both: Both, y: usize)
    requires { (y < both.grid.height) × (length row.old ≡ both.grid.width) × Counters counters.old both.grid.width }
    ensures counters_len { length counters.new ≡ 512 }
    ensures added { Added counters.old counters.new (differing_row both.entry.plane.now (grid_shape both.entry.grid) both.entry.store.now y) (blocks_across both.entry.grid.width) }
{
    let width = usize::from(both.grid.width);
    let old = part_at(both.store, y * width, width);
    if both.grid.depth <= 8 {
        add_row(counters, byte_row(both.plane, both.grid, y), old);
        return;
    }
    keep_row(row, both.plane, both.grid, y);
    add_row(counters, row, old);
}

// 1 where a block is busy, else 0.
fn busy_if(differing: u32, size: usize) -> u64
    requires { differing ≤ 128 }
    ensures { (result ≡ one_if (ltb size (4 * differing))) × (result ≤ 1) }
{
    u64::from(size < 4 * (differing as usize))
}

// The busy blocks of a band, by its counters.
fn busy_in(counters: &[u32; 512], width: usize, rows: usize) -> u64
    requires { Counters counters.now width × (rows ≤ 8) }
    ensures { (result ≡ busy_by width rows (λ b. get_or counters.now b 0)) × (result ≤ 512) }
{
    let mut busy: u64 = 0;
    for b in 0..across(width) {
        let n = (width - 16 * b).min(16);
        busy += busy_if(counters[b], n * rows);
    }
    busy
}

// The busy blocks of the band of a field whose top is its row `top`.
fn band(row: &mut [u8], both: Both, first: usize, top: usize, rows: usize) -> u64
    requires { (first ≤ 1) × (top + rows ≤ rows_of both.grid.height first) × (rows ≤ 8) × (length row.old ≡ both.grid.width) }
    ensures { (result ≡ busy_by both.entry.grid.width rows (λ b. sum_over rows (λ i. band_row both.entry.plane.now (grid_shape both.entry.grid) both.entry.store.now first top i b))) × (result ≤ 512) }
{
    let mut counters = [0u32; 512];
    for i in 0..rows {
        let y = 2 * (top + i) + first;
        add_row_of(&mut counters, row, both, y);
    }
    busy_in(&counters, usize::from(both.grid.width), rows)
}

// The busy blocks of a field, whose rows are every second one from `first` on.
fn busy_rows(row: &mut [u8], both: Both, first: usize, rows: usize) -> u64
    requires { (first ≤ 1) × (rows ≡ rows_of both.grid.height first) × (length row.old ≡ both.grid.width) }
    ensures { result ≡ busy_field both.entry.plane.now (grid_shape both.entry.grid) both.entry.store.now first }
{
    let mut busy: u64 = 0;
    for k in 0..bands(rows) {
        let top = 8 * k;
        busy += band(row, both, first, top, (rows - top).min(8));
    }
    busy
}

fn rows_of(height: u16, first: usize) -> usize
    requires { first ≤ 1 }
    ensures { (result ≡ rows_of height first) × (result ≤ 32768) }
{
    (usize::from(height) + 1 - first) / 2
}

fn total_of(width: u16, rows: usize) -> u64
    requires { rows ≤ 32768 }
    ensures { result ≡ total_of width rows }
{
    (across(usize::from(width)) * bands(rows)) as u64
}

// The buffer for rows that are kept first is made once.
fn counts_of(both: Both, first: usize) -> Counts
    requires { first ≤ 1 }
    ensures { result ≡ counts_of both.entry.plane.now (grid_shape both.entry.grid) both.entry.store.now first }
{
    let mut row = [0u8; 8192];
    let width = usize::from(both.grid.width);
    let rows = rows_of(both.grid.height, first);
    let found = busy_rows(&mut row[0..width], both, first, rows);
    Counts {
        busy: found,
        total: total_of(both.grid.width, rows),
    }
}

// ---- refusals

// What a store needs to keep a frame.
fn frame_bytes(grid: Grid) -> usize
    ensures { result ≡ grid.height * grid.width }
{
    usize::from(grid.height) * usize::from(grid.width)
}

// Whether a picture of so many bytes can be counted against a store. Numbers 4 and 6.
#[tactic(auto, unfolding(laws::specs::Refusal::lowest))]
fn countable(grid: Grid, bytes: usize, room: usize) -> Result<(), Refusal>
    ensures { no_of result ≡ count_no (grid_shape grid) bytes room }
{
    let shape = Shape::from(grid);
    Refusal::Shape.unless(shape.is_good())?;
    Refusal::ShortInput.unless((shape.bytes() <= bytes) & (frame_bytes(grid) <= room))
}

// Whether it can be kept there. Numbers 4, 6 and 7.
#[tactic(auto, unfolding(laws::specs::Refusal::lowest))]
fn keepable(grid: Grid, bytes: usize, room: usize) -> Result<(), Refusal>
    ensures { no_of result ≡ keep_no (grid_shape grid) bytes room }
{
    let frame = Shape::from(grid);
    Refusal::Shape.unless(frame.is_good())?;
    Refusal::ShortInput.unless(frame.bytes() <= bytes)?;
    Refusal::ShortOutput.unless(frame_bytes(grid) <= room)
}

// ---- the calls

// The counts of the field of a parity of a picture, against the same parity of the frame of that size
// which the store keeps. Codes are not shifted, and one above the largest of its depth counts as that: a
// biplanar luma deeper than 8 bits, whose codes stand in the high bits, goes through readback first.
pub fn count(
    plane: &[u8],
    grid: plane::Grid,
    store: &[u8],
    parity: field::Parity,
) -> Result<Counts, Refusal>
    ensures result_value { no_of result ≡ count_no (grid_shape grid) (length plane.now) (length store.now) }
    ensures result_value_2 { values_of result ≡ count_values plane.now (grid_shape grid) store.now (first_row_of parity) }
{
    countable(grid, plane.len(), store.len())?;
    let both = Both { plane, grid, store };
    Ok(counts_of(both, parity.first_row() as usize))
}

// Each row of a picture, kept behind the one above it.
fn keep_rows(store: &mut [u8], plane: &[u8], grid: Grid)
    requires { PictureReady (grid_shape grid) (length plane.now) (length store.old) }
    ensures { store.new ≡ over (kept_frame plane.now (grid_shape grid)) store.old }
{
    let width = usize::from(grid.width);
    for y in 0..usize::from(grid.height) {
        let start = y * width;
        keep_row(&mut store[start..start + width], plane, grid, y);
    }
}

// Keeps a picture, its codes read as for `count`, as 8 bits at the store's front.
pub fn keep(store: &mut [u8], plane: &[u8], grid: plane::Grid) -> Result<(), Refusal>
    ensures value { no_of result ≡ keep_no (grid_shape grid) (length plane.now) (length store.old) }
    ensures store_after { store.new ≡ written (no_of result) (over (kept_frame plane.now (grid_shape grid)) store.old) store.old }
{
    keepable(grid, plane.len(), store.len())?;
    keep_rows(store, plane, grid);
    Ok(())
}
