// Copyright 2026 Till0196
// SPDX-License-Identifier: Apache-2.0
// Carried over from core/src/output/video/filter.rs (`plane`, `linear`, `cubic`, `motion`, `edge`), and
// changed: a plane is a lent slice beside its shape, the output is lent, what is out of bounds is refused,
// and samples are made tile by tile, from rows of floats.
//
// A plane of samples, or a part of one, fast. A line is made in tiles of 512 columns. Each source row that
// a tile needs is first expanded to floats, with six more columns on each side that hold what the plane's
// sampler gives there. The loops over a tile then read with neither a clamp nor a test, and are vectorised.
#![tactic(auto)]

ghost use Rattle.std.specs.Prelude.{◌≡◌, ℕ, ◌+◌, ◌*◌, ◌<◌, ◌≤◌, ◌^◌, ◌&&◌, leb, length, ℤ, pos, nat_abs, ◌+ℤ◌};
ghost use Rattle.std.proofs.Math.IntN.{sub_ℕ};
ghost use Rattle.std.specs.Float.{binary32};
ghost use Rattle.std.specs.Float.Ieee.{of_int};
ghost use Rattle.laws.specs.Refusal.{written};
ghost use Rattle.refusal.specs.Refusal.{no_of};
ghost use Rattle.laws.specs.Rows.{listed, over};
ghost use Rattle.plane.specs.Plane.{sample_bytes, stored_at, value_of};
ghost use Rattle.plane.specs.Coordinates.{held};
ghost use Rattle.filter.specs.Filter.{Sampler, one, bob_of, in_motion_of, score_of, near_of, yadif_of, bwdif_of};
ghost use Rattle.filter.specs.Held.{step};
ghost use Rattle.fill.specs.Fill.{part_of, part_no, part_made, plane_no, plane_made};
ghost use Rattle.fill.specs.Rows.{RowOf, Around, Trio, Motion, Under, along_of};
ghost use Rattle.fill.specs.Lines.{Whole, AllWhole, Tiled, value_in, stored_value, better_in, Tries, Picks, kept_of, Moving, tile_of, sample_tile};

use filter::Quality;
use refusal::Refusal;

// The samples of a part of a plane: `width` columns from `left` on, of `height` rows from `top` on.
#[derive(Clone, Copy, Debug, PartialEq, Eq)]
pub struct Place {
    pub top: u16,
    pub height: u16,
    pub left: u16,
    pub width: u16,
}

impl Place {
    // How many samples there are.
    fn area(self) -> usize
        ensures { result ≡ self.height * self.width }
    {
        usize::from(self.height) * usize::from(self.width)
    }

    fn is_inside(self, s: plane::Shape) -> bool
        ensures { result ≡ leb (self.top + self.height) s.height && leb (self.left + self.width) s.width }
    {
        (usize::from(self.top) + usize::from(self.height) <= usize::from(s.height))
            & (usize::from(self.left) + usize::from(self.width) <= usize::from(s.width))
    }
}

// ---- a row of the source

// The bytes are known to be there, so that no test stands in the loop.
fn stored(src: &[u8], depth: u8, i: usize) -> u16
    requires { i + sample_bytes depth ≤ length src.now }
    ensures { result ≡ stored_at src.now depth i }
{
    if depth <= 8 {
        return u16::from(src[i]);
    }
    u16::from(src[i]) + 256 * u16::from(src[i + 1])
}

fn value(src: &[u8], depth: u8, shift: u8, full: u16, i: usize) -> f32
    requires { (i + sample_bytes depth ≤ length src.now) × (shift ≤ 7) }
    ensures { result ≡ stored_value src.now depth shift full i }
{
    f32::from((stored(src, depth, i) >> shift).min(full)) / f32::from(full)
}

// Samples from the column `from` on, `step` bytes from one to the next. Each caller gives step and depth
// as constants, and for bytes the largest code too, so that what is inlined there is a plain loop over one
// kind of row, and one over bytes has nothing to cut.
fn scan(
    dst: &mut [f32],
    src: &[u8],
    at: usize,
    step: usize,
    from: usize,
    depth: u8,
    shift: u8,
    full: u16,
)
    requires dst_bound { (from + length dst.old ≤ 8192) × (step ≤ 4) × (shift ≤ 7) }
    requires by_index { (x : ℕ) → x < length dst.old → at + step * (from + x) + sample_bytes depth ≤ length src.now }
    ensures { dst.new ≡ listed (length dst.old) (λ x. stored_value src.now depth shift full (at + step * (from + x))) }
{
    for x in 0..dst.len() {
        dst[x] = value(src, depth, shift, full, at + step * (from + x));
    }
}

// Where a row starts.
fn start(row: usize, stride: u32) -> usize
    requires { row ≤ 65535 }
    ensures { (result ≡ row * stride) × (result < 2 ^ 48) }
{
    row * (stride as usize)
}

// The rows stand one behind the other, each in 524 places, in one slice: parts of it are lent to write into. Of cur, the row above,
const ABOVE: usize = 0;
// and the row below.
const BELOW: usize = 524;
// Of before, the row above,
const EARLIER_UP: usize = 1048;
// the row below,
const EARLIER_DOWN: usize = 1572;
// and the row itself.
const EARLIER: usize = 2096;
// Of after, the row above,
const LATER_UP: usize = 2620;
// the row below,
const LATER_DOWN: usize = 3144;
// and the row itself.
const LATER: usize = 3668;
// Of cur, the row three above, and behind it the row three below.
const FAR_ABOVE: usize = 4192;

// The best slant so far: its score, and the sums along it one row and three rows off. Carrying the sums
// instead of the slant spares a look-up at a place that only the run decides, which no vector has.
#[derive(Clone, Copy)]
struct Pick {
    score: f32,
    near: f32,
    far: f32,
}

#[tactic(auto, unfolding(crate::specs::Lines::better_in))]
fn better(best: Pick, score: f32, near: f32, far: f32) -> Pick
    ensures { result ≡ better_in best score near far }
{
    if score < best.score {
        Pick { score, near, far }
    } else {
        best
    }
}

// ---- a column of a tile, from expanded rows. Place `start + x + n` of a row holds the column that is n - 6 to the
// right of the tile's column x.

#[derive(Clone, Copy)]
struct Column<'a> {
    rows: &'a [f32],
    x: usize,
}

impl Column<'_> {
    fn at(self, start: usize, n: usize) -> f32
        requires { (length self.rows.now ≡ 5240) × (start ≤ 4716) × (self.x ≤ 511) × (n ≤ 12) }
        ensures { (v : Sampler) (from count : ℕ) (y : ℤ) → RowOf self.entry.rows.now start from count y v → self.entry.x < count → result ≡ v (pos (from + self.entry.x) +ℤ sub_ℕ n 6) y }
    {
        self.rows[start + (self.x + n)]
    }

    // A slant j of -2 to 2 is held as t = j + 2.
    fn score(self, t: usize) -> f32
        requires { (length self.rows.now ≡ 5240) × (self.x ≤ 511) × (t ≤ 4) }
        ensures { (v : Sampler) (from count : ℕ) (y : ℤ) → Around self.entry.rows.now 0 from count y one v → self.entry.x < count → result ≡ score_of v (pos (from + self.entry.x)) y (step t) }
    {
        filter::gap(self.at(ABOVE, 3 + t), self.at(BELOW, 7 - t))
            + filter::gap(self.at(ABOVE, 4 + t), self.at(BELOW, 8 - t))
            + filter::gap(self.at(ABOVE, 5 + t), self.at(BELOW, 9 - t))
    }

    fn near(self, t: usize) -> f32
        requires { (length self.rows.now ≡ 5240) × (self.x ≤ 511) × (t ≤ 4) }
        ensures { (v : Sampler) (from count : ℕ) (y : ℤ) → Around self.entry.rows.now 0 from count y one v → self.entry.x < count → result ≡ near_of v (pos (from + self.entry.x)) y (step t) }
    {
        self.at(ABOVE, 4 + t) + self.at(BELOW, 8 - t)
    }

    fn far(self, start: usize, t: usize) -> f32
        requires { (length self.rows.now ≡ 5240) × (start ≤ 4192) × (self.x ≤ 511) × (t ≤ 4) }
        ensures { (v : Sampler) (from count : ℕ) (y off : ℤ) → Around self.entry.rows.now start from count y off v → self.entry.x < count → result ≡ along_of v (pos (from + self.entry.x)) y off (step t) }
    {
        self.at(start, 3 * t) + self.at(start + 524, 12 - 3 * t)
    }

    fn tried(self, start: usize, best: Pick, t: usize, steep: f32) -> Pick
        requires { (length self.rows.now ≡ 5240) × (start ≤ 4192) × (self.x ≤ 511) × (t ≤ 4) × (steep ≡ of_int binary32 (pos (nat_abs (step t)))) }
        ensures { Tries self.entry.rows.now start self.entry.x t best result }
    {
        let cost = self.score(t) + 0.002 * steep;
        better(best, cost, self.near(t), self.far(start, t))
    }

    // Along the best slant. FAR is where the rows three off stand: Yadif asks for nothing there, so the rows one off
    // stand in. A const parameter, since a function this large is inlined only where it has one caller, as each
    // instance has, and only what is inlined is vectorised.
    fn edge<const FAR: usize>(self) -> Pick
        requires { (length self.rows.now ≡ 5240) × (self.x ≤ 511) × (FAR ≤ 4192) }
        ensures { Picks self.entry.rows.now FAR self.entry.x result }
    {
        let straight = Pick {
            score: self.score(2),
            near: self.near(2),
            far: self.far(FAR, 2),
        };
        let left = self.tried(FAR, straight, 1, 1.0);
        let right = self.tried(FAR, left, 3, 1.0);
        let far_left = self.tried(FAR, right, 0, 2.0);
        self.tried(FAR, far_left, 4, 2.0)
    }

    fn in_motion(self, along: f32) -> f32
        requires { (length self.rows.now ≡ 5240) × (self.x ≤ 511) }
        ensures { (before cur after : Sampler) (from count : ℕ) (y : ℤ) → Motion self.entry.rows.now from count y before cur after → self.entry.x < count → result ≡ in_motion_of before cur after (pos (from + self.entry.x)) y along }
    {
        let earlier = self.at(EARLIER, 6);
        let later = self.at(LATER, 6);
        let c = self.at(ABOVE, 6);
        let e = self.at(BELOW, 6);
        let average = filter::mean(earlier, later);
        let change = filter::gap(earlier, later);
        let up = filter::wider(self.at(EARLIER_UP, 6), self.at(LATER_UP, 6), c);
        let down = filter::wider(self.at(EARLIER_DOWN, 6), self.at(LATER_DOWN, 6), e);
        let outside = filter::beyond(average, c, e);
        let half = float::max(float::max(change, up), down) * 0.5;
        filter::hold(along, average, float::max(half, outside))
    }
}

// ---- a plane of the source

// Its bytes beside its shape.
#[derive(Clone, Copy)]
struct Source<'a> {
    bytes: &'a [u8],
    shape: plane::Shape,
}

impl Source<'_> {
    // The samples of a row from a column on, by the number of bytes that one has and of components that
    // share the plane.
    fn samples(self, dst: &mut [f32], row: usize, from: usize)
        requires lent { Whole self }
        requires row_lt_height { (row < self.shape.height) × (from + length dst.old ≤ self.shape.width) }
        ensures { dst.new ≡ listed (length dst.old) (λ x. value_in self.entry (pos (from + x)) (pos row)) }
    {
        let at = start(row, self.shape.stride);
        let component = self.shape.layout.component();
        let shared = self.shape.layout.components();
        if self.shape.depth <= 8 {
            if shared <= 1 {
                scan(dst, self.bytes, at + component, 1, from, 8, 0, 255);
                return;
            }
            scan(dst, self.bytes, at + component, 2, from, 8, 0, 255);
            return;
        }
        let shift = self.shape.layout.shift(self.shape.depth);
        let full = plane::full_code(self.shape.depth);
        if shared <= 1 {
            scan(
                dst,
                self.bytes,
                at + 2 * component,
                2,
                from,
                16,
                shift,
                full,
            );
            return;
        }
        scan(
            dst,
            self.bytes,
            at + 2 * component,
            4,
            from,
            16,
            shift,
            full,
        );
    }

    // The columns of a row that a tile needs, into the places from `start` on. The samples within the plane
    // are read, and those past an edge repeat the last within. A sampler holds a coordinate that lies outside
    // the plane, so one row of the plane stands for several rows of the sampler.
    fn expand(self, rows: &mut [f32], start: usize, row: usize, from: usize, count: usize)
        requires lent { Whole self }
        requires tiled { Tiled self.shape row from count × (length rows.old ≡ 5240) × (start ≤ 4716) }
        ensures row_of { (y : ℤ) → held self.entry.shape.height y ≡ row → RowOf rows.new start from count y (value_in self.entry) }
        ensures under { Under rows.new rows.old start }
    {
        let end = start + (count + 12);
        let first = start + 6usize.saturating_sub(from);
        let last = end - (from + count + 6).saturating_sub(usize::from(self.shape.width));
        self.samples(&mut rows[first..last], row, from.saturating_sub(6));
        let leftmost = rows[first];
        let rightmost = rows[last - 1];
        rows[start..first].fill(leftmost);
        rows[last..end].fill(rightmost);
    }

    // The rows k above and below. A row above the first is the first, and one below the last is the last.
    fn around(self, rows: &mut [f32], start: usize, y: usize, k: usize, from: usize, count: usize)
        requires lent { Whole self }
        requires tiled { Tiled self.shape y from count × (length rows.old ≡ 5240) × (start ≤ 4192) × (k ≤ 3) }
        ensures around { Around rows.new start from count (pos y) (pos k) (value_in self.entry) }
        ensures under { Under rows.new rows.old start }
    {
        let last = usize::from(self.shape.height) - 1;
        self.expand(rows, start, y.saturating_sub(k), from, count);
        self.expand(rows, start + 524, (y + k).min(last), from, count);
    }

    fn trio(self, rows: &mut [f32], start: usize, y: usize, from: usize, count: usize)
        requires lent { Whole self }
        requires tiled { Tiled self.shape y from count × (length rows.old ≡ 5240) × (start ≤ 3668) }
        ensures trio { Trio rows.new start from count (pos y) (value_in self.entry) }
        ensures under { Under rows.new rows.old start }
    {
        self.around(rows, start, y, 1, from, count);
        self.expand(rows, start + 1048, y, from, count);
    }

    fn bob(self, out: &mut [f32], rows: &mut [f32], y: usize, from: usize)
        requires lent { Whole self }
        requires tiled { Tiled self.shape y from (length out.old) × (length rows.old ≡ 5240) }
        ensures out_after { out.new ≡ listed (length out.old) (λ x. bob_of (value_in self.entry) (pos (from + x)) (pos y)) }
        ensures rows_len { length rows.new ≡ 5240 }
    {
        self.around(rows, ABOVE, y, 1, from, out.len());
        for x in 0..out.len() {
            let column = Column { rows, x };
            out[x] = float::clamp(column.near(2) * 0.5, 0.0, 1.0);
        }
    }
}

// Whether a row is shown as `cur` has it.
fn kept(quality: Quality, mated: bool, shown: bool) -> bool
    ensures { result ≡ kept_of quality mated shown }
{
    match quality {
        Quality::Weave => !mated,
        Quality::Bob | Quality::Yadif | Quality::Bwdif => shown,
    }
}

// ---- what lines are made from: the planes, how missing rows are made, and which rows are shown

#[derive(Clone, Copy)]
struct Request<'a> {
    quality: Quality,
    shown: filter::Rows,
    before: Source<'a>,
    cur: Source<'a>,
    after: Source<'a>,
}

impl Request<'_> {
    // What Motion looks at, of all three planes.
    fn motion(self, rows: &mut [f32], y: usize, from: usize, count: usize)
        requires all_lent { AllWhole self }
        requires tiled { Tiled self.cur.shape y from count × (length rows.old ≡ 5240) }
        ensures moving { Moving rows.new self.entry from count y }
        ensures rows_len { length rows.new ≡ 5240 }
    {
        self.cur.around(rows, ABOVE, y, 1, from, count);
        self.before.trio(rows, EARLIER_UP, y, from, count);
        self.after.trio(rows, LATER_UP, y, from, count);
    }

    fn yadif(self, out: &mut [f32], rows: &mut [f32], y: usize, from: usize)
        requires all_lent { AllWhole self }
        requires tiled { Tiled self.cur.shape y from (length out.old) × (length rows.old ≡ 5240) }
        ensures out_after { out.new ≡ tile_of yadif_of self.entry from (length out.old) y }
        ensures rows_len { length rows.new ≡ 5240 }
    {
        self.motion(rows, y, from, out.len());
        for x in 0..out.len() {
            let column = Column { rows, x };
            let pick = column.edge::<ABOVE>();
            out[x] = column.in_motion(pick.near * 0.5);
        }
    }

    fn bwdif(self, out: &mut [f32], rows: &mut [f32], y: usize, from: usize)
        requires all_lent { AllWhole self }
        requires tiled { Tiled self.cur.shape y from (length out.old) × (length rows.old ≡ 5240) }
        ensures out_after { out.new ≡ tile_of bwdif_of self.entry from (length out.old) y }
        ensures rows_len { length rows.new ≡ 5240 }
    {
        self.motion(rows, y, from, out.len());
        self.cur.around(rows, FAR_ABOVE, y, 3, from, out.len());
        for x in 0..out.len() {
            let column = Column { rows, x };
            let pick = column.edge::<FAR_ABOVE>();
            out[x] = column.in_motion(filter::cubic(pick.near, pick.far));
        }
    }

    fn tile(self, out: &mut [f32], rows: &mut [f32], y: usize, from: usize)
        requires all_lent { AllWhole self }
        requires tiled { Tiled self.cur.shape y from (length out.old) × (length rows.old ≡ 5240) }
        ensures out_after { out.new ≡ sample_tile self.entry from (length out.old) y }
        ensures rows_len { length rows.new ≡ 5240 }
    {
        let parity = (y % 2) as u32;
        if kept(
            self.quality,
            parity == self.shown.mate,
            parity == self.shown.first,
        ) {
            self.cur.samples(out, y, from);
            return;
        }
        match self.quality {
            Quality::Weave => self.before.samples(out, y, from),
            Quality::Bob => self.cur.bob(out, rows, y, from),
            Quality::Yadif => self.yadif(out, rows, y, from),
            Quality::Bwdif => self.bwdif(out, rows, y, from),
        }
    }

    // Ten rows of 512 columns stay in the nearest cache. The last tile is shorter. A `while`, since a proof does not
    // know what stands in a slice once its `chunks_mut` are let go.
    fn line(self, out: &mut [f32], rows: &mut [f32], y: usize, left: usize)
        requires all_lent { AllWhole self }
        requires y_lt_height { (y < self.cur.shape.height) × (left + length out.old ≤ self.cur.shape.width) × (length rows.old ≡ 5240) }
        ensures out_after { out.new ≡ sample_tile self.entry left (length out.old) y }
        ensures rows_len { length rows.new ≡ 5240 }
    {
        let mut x = 0;
        while x < out.len() {
            let to = (x + 512).min(out.len());
            self.tile(&mut out[x..to], rows, y, left + x);
            x = to;
        }
    }

    // The rows are made once for all lines, since to clear them costs as much as to make a line.
    #[tactic(auto, using(crate::proofs::Tiles::row_ends))]
    fn lines(self, out: &mut [f32], place: Place)
        requires all_lent { AllWhole self }
        requires height_bound { (place.top + place.height ≤ self.cur.shape.height) × (place.left + place.width ≤ self.cur.shape.width) }
        requires width_in_bounds { place.height * place.width ≤ length out.old }
        ensures { out.new ≡ over (part_of self.entry.quality self.entry.shown place (value_in self.entry.before) (value_in self.entry.cur) (value_in self.entry.after)) out.old }
    {
        let mut rows = [0.0f32; 5240];
        let width = usize::from(place.width);
        for y in 0..usize::from(place.height) {
            let at = y * width;
            let to = at + width;
            self.line(
                &mut out[at..to],
                &mut rows[0..5240],
                usize::from(place.top) + y,
                usize::from(place.left),
            );
        }
    }
}

// ---- a part and the whole plane

// Whether a part can be made where so many samples are lent. Numbers 3 to 7.
#[tactic(auto, unfolding(laws::specs::Refusal::lowest))]
fn judge(
    making: filter::Making,
    place: Place,
    before: &[u8],
    cur: &[u8],
    after: &[u8],
    room: usize,
) -> Result<(), Refusal>
    ensures { no_of result ≡ part_no making place (length before.now) (length cur.now) (length after.now) room }
{
    let inside = filter::rows_good(making.rows) & place.is_inside(making.cur);
    let whole = filter::planes_whole(making, before.len(), cur.len(), after.len());
    Refusal::Outside.unless(inside)?;
    Refusal::Shape.unless(filter::planes_good(making))?;
    Refusal::Differ.unless(filter::planes_alike(making))?;
    Refusal::ShortInput.unless(whole)?;
    Refusal::ShortOutput.unless(place.area() <= room)
}

// The samples of a part, row by row, laid end to end. Slices and shapes apart, since a public signature with a
// struct of slices has no plain contract (`part_once`).
#[tactic(auto, using(crate::proofs::Judged::judged))]
pub fn part(
    out: &mut [f32],
    making: filter::Making,
    before: &[u8],
    cur: &[u8],
    after: &[u8],
    place: Place,
) -> Result<(), Refusal>
    ensures value { no_of result ≡ part_no making place (length before.now) (length cur.now) (length after.now) (length out.old) }
    ensures out_after { out.new ≡ written (no_of result) (over (part_made making place before.now cur.now after.now) out.old) out.old }
{
    let request = Request {
        quality: making.quality,
        shown: making.rows,
        before: Source {
            bytes: before,
            shape: making.before,
        },
        cur: Source {
            bytes: cur,
            shape: making.cur,
        },
        after: Source {
            bytes: after,
            shape: making.after,
        },
    };
    judge(making, place, before, cur, after, out.len())?;
    request.lines(out, place);
    Ok(())
}

// The samples of every row.
pub fn plane(
    out: &mut [f32],
    making: filter::Making,
    before: &[u8],
    cur: &[u8],
    after: &[u8],
) -> Result<(), Refusal>
    ensures value { no_of result ≡ plane_no making (length before.now) (length cur.now) (length after.now) (length out.old) }
    ensures out_after { out.new ≡ written (no_of result) (over (plane_made making before.now cur.now after.now) out.old) out.old }
{
    let everything = Place {
        top: 0,
        height: making.cur.height,
        left: 0,
        width: making.cur.width,
    };
    part(out, making, before, cur, after, everything)
}
