// Copyright 2026 Till0196
// SPDX-License-Identifier: Apache-2.0
// Carried over from core/src/output/video/filter.rs (`sample`, `edge`, `Rows`), and changed: a plane is a
// lent slice beside its shape, closures are methods, and what is out of bounds is refused.
//
// The rows a field lacks, sample by sample.
#![tactic(auto)]

ghost use Rattle.std.specs.Prelude.{◌≡◌, ◌≤◌, length};
ghost use Rattle.laws.specs.Refusal.{when_done};
ghost use Rattle.refusal.specs.Refusal.{no_of, values_of};
ghost use Rattle.plane.specs.Plane.{value_of};
ghost use Rattle.plane.specs.Coordinates.{parity_of, unbiased};
ghost use Rattle.filter.specs.Filter.{mean_of, gap_of, wider_of, beyond_of, bob_of, held_of, in_motion_of, across_of, score_of, slanted_of, better_of, edge_of, near_of, far_of, yadif_of, cubic_of, bwdif_of, made_of, sample_of};
ghost use Rattle.filter.specs.Rows.{quality_named, weaves, first_row_or, rows_of, good_rows, field_rows_of};
ghost use Rattle.filter.specs.Making.{sample_in, planes_good, planes_alike, planes_whole};
ghost use Rattle.filter.specs.Held.{Room, step, seen, value_in, of_lent};
ghost use Rattle.filter.specs.Answer.{edge_no, sample_no};

use field::Parity;
use refusal::Refusal;

// How missing rows are made. Weave makes none: it takes both fields as they stand.
#[derive(Clone, Copy, Debug, PartialEq, Eq)]
pub enum Quality {
    Weave,
    Bob,
    Yadif,
    Bwdif,
}

// The rows that are shown of `cur`, 0 or 1, and those that Weave takes from `before`, 0 or 1, or 2 for none.
// Plain numbers: what exports promise speaks of any number that a host gives here.
#[derive(Clone, Copy, Debug, PartialEq, Eq)]
pub struct Rows {
    pub first: u32,
    pub mate: u32,
}

// What a plane is made by. The three shapes are those of the planes that it is made from.
#[derive(Clone, Copy, Debug, PartialEq, Eq)]
pub struct Making {
    pub quality: Quality,
    pub rows: Rows,
    pub before: plane::Shape,
    pub cur: plane::Shape,
    pub after: plane::Shape,
}

impl Quality {
    // 0 Weave, 1 Bob, 2 Yadif, 3 Bwdif. Callers refuse a code above 3.
    pub fn named(code: u8) -> Quality
        ensures { result ≡ quality_named code }
    {
        match code {
            0 => Quality::Weave,
            1 => Quality::Bob,
            2 => Quality::Yadif,
            _ => Quality::Bwdif,
        }
    }

    fn is_weave(self) -> bool
        ensures { result ≡ weaves self }
    {
        self == Quality::Weave
    }
}

// A row is even or odd, so 2 is none.
const NO_MATE: u32 = 2;

fn first_row_or(chosen: Option<Parity>, none: u32) -> u32
    ensures { result ≡ first_row_or chosen none }
{
    chosen.map_or(none, Parity::first_row)
}

impl Rows {
    pub fn of(output: field::Output) -> Rows
        ensures { result ≡ rows_of output }
    {
        Rows {
            first: first_row_or(output.field, 0),
            mate: first_row_or(output.weave, NO_MATE),
        }
    }

    // Those of one field alone.
    pub fn field(first_row: u32) -> Rows
        ensures { result ≡ field_rows_of first_row }
    {
        Rows {
            first: first_row,
            mate: NO_MATE,
        }
    }
}

// By how much a slant has to match better than straight up and down, so that one that matches by chance
// does not spoil what is flat.
const SLANT_BIAS: f32 = 0.002;

#[tactic(auto, unfolding(crate::specs::Filter::gap_of))]
pub fn gap(a: f32, b: f32) -> f32
    ensures { result ≡ gap_of a b }
{
    float::abs(a - b)
}

// ---- Motion: what the fields before and after tell of a missing row. Where nothing moves, their average
// is the row. Else the value may lie as far from it as something moved, and in any case far enough to
// come between the rows above and below.

#[tactic(auto, unfolding(crate::specs::Filter::mean_of))]
pub fn mean(a: f32, b: f32) -> f32
    ensures { result ≡ mean_of a b }
{
    (a + b) * 0.5
}

#[tactic(auto, unfolding(crate::specs::Filter::wider_of))]
pub fn wider(a: f32, b: f32, c: f32) -> f32
    ensures { result ≡ wider_of a b c }
{
    float::max(gap(a, c), gap(b, c))
}

#[tactic(auto, unfolding(crate::specs::Filter::beyond_of))]
pub fn beyond(v: f32, c: f32, e: f32) -> f32
    ensures { result ≡ beyond_of v c e }
{
    let under = float::min(c, e) - v;
    let over = v - float::max(c, e);
    float::max(float::max(under, over), 0.0)
}

#[tactic(auto, unfolding(crate::specs::Filter::held_of))]
pub fn hold(along: f32, average: f32, moved: f32) -> f32
    ensures { result ≡ held_of along average moved }
{
    float::clamp(
        float::clamp(along, average - moved, average + moved),
        0.0,
        1.0,
    )
}

#[tactic(auto, unfolding(crate::specs::Filter::better_of))]
fn better(best: Best, slant: u32, score: f32) -> Best
    ensures { seen result ≡ better_of (seen best) (step slant) score }
{
    if score < best.score {
        Best { slant, score }
    } else {
        best
    }
}

#[tactic(auto, unfolding(crate::specs::Filter::cubic_of))]
pub fn cubic(near: f32, far: f32) -> f32
    ensures { result ≡ cubic_of near far }
{
    (9.0 * near - far) / 16.0
}

// ---- A plane as it is lent: its bytes beside its shape.

#[derive(Clone, Copy)]
struct Lent<'a> {
    bytes: &'a [u8],
    shape: plane::Shape,
}

// A slant j of -2 to 2 is held as j + 2, and so is the k of a score. So the column x + k + j is held as
// x + k + j - 4, and x + k - j as it stands.

#[derive(Clone, Copy)]
struct Best {
    slant: u32,
    score: f32,
}

impl Lent<'_> {
    // The value at held coordinates.
    fn at(&self, x: u32, y: u32) -> f32
        ensures { result ≡ value_in self.now (unbiased x) (unbiased y) }
    {
        plane::value_at(self.bytes, self.shape, x, y)
    }

    #[tactic(auto, unfolding(crate::specs::Filter::bob_of), using(crate::proofs::Offsets::unbiased_less, crate::proofs::Offsets::unbiased_more))]
    fn bob(self, x: u32, y: u32) -> f32
        requires { Room y }
        ensures { result ≡ bob_of (value_in self.entry) (unbiased x) (unbiased y) }
    {
        let above = self.at(x, y - 1);
        let below = self.at(x, y + 1);
        float::clamp((above + below) * 0.5, 0.0, 1.0)
    }

    #[tactic(auto, unfolding(crate::specs::Filter::across_of), using(crate::proofs::Offsets::across_above, crate::proofs::Offsets::across_below, crate::proofs::Offsets::unbiased_less, crate::proofs::Offsets::unbiased_more))]
    fn across(&self, x: u32, y: u32, k: u32, j: u32) -> f32
        requires { Room x × Room y × (k ≤ 3) × (j ≤ 4) }
        ensures { result ≡ across_of (value_in self.now) (unbiased x) (unbiased y) (step k) (step j) }
    {
        let above = self.at(x + k + j - 4, y - 1);
        let below = self.at(x + k - j, y + 1);
        gap(above, below)
    }

    #[tactic(auto, unfolding(crate::specs::Filter::score_of))]
    fn score(&self, x: u32, y: u32, j: u32) -> f32
        requires { Room x × Room y × (j ≤ 4) }
        ensures { result ≡ score_of (value_in self.now) (unbiased x) (unbiased y) (step j) }
    {
        self.across(x, y, 1, j) + self.across(x, y, 2, j) + self.across(x, y, 3, j)
    }

    fn slanted(&self, x: u32, y: u32, j: u32) -> f32
        requires { Room x × Room y × (j ≤ 4) }
        ensures { result ≡ slanted_of (value_in self.now) (unbiased x) (unbiased y) (step j) }
    {
        self.score(x, y, j) + SLANT_BIAS * (j.abs_diff(2) as f32)
    }

    fn tried(&self, best: Best, x: u32, y: u32, j: u32) -> Best
        requires { Room x × Room y × (j ≤ 4) }
        ensures { seen result ≡ better_of (seen best) (step j) (slanted_of (value_in self.now) (unbiased x) (unbiased y) (step j)) }
    {
        better(best, j, self.slanted(x, y, j))
    }

    // Tries 0, -1, 1, -2, 2.
    fn edge_at(&self, x: u32, y: u32) -> u32
        requires { Room x × Room y }
        ensures { (step result ≡ edge_of (value_in self.now) (unbiased x) (unbiased y)) × (result ≤ 4) }
    {
        let upright = Best {
            slant: 2,
            score: self.score(x, y, 2),
        };
        let left = self.tried(upright, x, y, 1);
        let right = self.tried(left, x, y, 3);
        let far_left = self.tried(right, x, y, 0);
        let far_right = self.tried(far_left, x, y, 4);
        far_right.slant
    }

    #[tactic(auto, unfolding(crate::specs::Filter::near_of), using(crate::proofs::Offsets::near_above, crate::proofs::Offsets::near_below, crate::proofs::Offsets::unbiased_less, crate::proofs::Offsets::unbiased_more))]
    fn near(self, x: u32, y: u32, j: u32) -> f32
        requires { Room x × Room y × (j ≤ 4) }
        ensures { result ≡ near_of (value_in self.entry) (unbiased x) (unbiased y) (step j) }
    {
        self.at(x + j - 2, y - 1) + self.at(x + 2 - j, y + 1)
    }

    #[tactic(auto, unfolding(crate::specs::Filter::far_of), using(crate::proofs::Offsets::far_above, crate::proofs::Offsets::far_below, crate::proofs::Offsets::unbiased_less, crate::proofs::Offsets::unbiased_more))]
    fn far(self, x: u32, y: u32, j: u32) -> f32
        requires { Room x × Room y × (j ≤ 4) }
        ensures { result ≡ far_of (value_in self.entry) (unbiased x) (unbiased y) (step j) }
    {
        self.at(x + 3 * j - 6, y - 3) + self.at(x + 6 - 3 * j, y + 3)
    }
}

// ---- The three planes that a sample is made from.

#[derive(Clone, Copy)]
struct Planes<'a> {
    before: Lent<'a>,
    cur: Lent<'a>,
    after: Lent<'a>,
}

impl Planes<'_> {
    fn in_motion(self, x: u32, y: u32, along: f32) -> f32
        requires { Room y }
        ensures { result ≡ of_lent in_motion_of self.entry (unbiased x) (unbiased y) along }
    {
        let up = y - 1;
        let down = y + 1;
        let earlier = self.before.at(x, y);
        let later = self.after.at(x, y);
        let c = self.cur.at(x, up);
        let e = self.cur.at(x, down);
        let average = mean(earlier, later);
        let change = gap(earlier, later);
        let above = wider(self.before.at(x, up), self.after.at(x, up), c);
        let below = wider(self.before.at(x, down), self.after.at(x, down), e);
        let outside = beyond(average, c, e);
        let half = float::max(float::max(change, above), below) * 0.5;
        hold(along, average, float::max(half, outside))
    }

    // Yadif and Bwdif, along the edge.
    #[tactic(auto, unfolding(crate::specs::Filter::yadif_of))]
    fn yadif(self, x: u32, y: u32) -> f32
        requires { Room x × Room y }
        ensures { result ≡ of_lent yadif_of self.entry (unbiased x) (unbiased y) }
    {
        let j = self.cur.edge_at(x, y);
        self.in_motion(x, y, self.cur.near(x, y, j) * 0.5)
    }

    #[tactic(auto, unfolding(crate::specs::Filter::bwdif_of))]
    fn bwdif(self, x: u32, y: u32) -> f32
        requires { Room x × Room y }
        ensures { result ≡ of_lent bwdif_of self.entry (unbiased x) (unbiased y) }
    {
        let j = self.cur.edge_at(x, y);
        let along = cubic(self.cur.near(x, y, j), self.cur.far(x, y, j));
        self.in_motion(x, y, along)
    }

    #[tactic(auto, unfolding(crate::specs::Filter::made_of))]
    fn made(self, quality: Quality, x: u32, y: u32) -> f32
        requires { Room x × Room y }
        ensures { result ≡ of_lent (made_of quality) self.entry (unbiased x) (unbiased y) }
    {
        match quality {
            Quality::Weave => self.cur.at(x, y),
            Quality::Bob => self.cur.bob(x, y),
            Quality::Yadif => self.yadif(x, y),
            Quality::Bwdif => self.bwdif(x, y),
        }
    }

    // Of coordinates that are held, and the parity of their row.
    fn sample_at(self, quality: Quality, rows: Rows, parity: u32, x: u32, y: u32) -> f32
        requires { Room x × Room y × (parity ≡ parity_of (unbiased y)) }
        ensures { result ≡ of_lent (sample_of quality rows) self.entry (unbiased x) (unbiased y) }
    {
        if quality.is_weave() {
            if parity == rows.mate {
                return self.before.at(x, y);
            }
            return self.cur.at(x, y);
        }
        if parity == rows.first {
            return self.cur.at(x, y);
        }
        self.made(quality, x, y)
    }
}

// ---- the two calls

pub fn planes_good(making: Making) -> bool
    ensures { result ≡ planes_good making }
{
    making.before.is_good() & making.cur.is_good() & making.after.is_good()
}

pub fn planes_alike(making: Making) -> bool
    ensures { result ≡ planes_alike making }
{
    making.cur.agrees(making.before) & making.cur.agrees(making.after)
}

pub fn planes_whole(
    making: Making,
    before_bytes: usize,
    cur_bytes: usize,
    after_bytes: usize,
) -> bool
    ensures { result ≡ planes_whole making before_bytes cur_bytes after_bytes }
{
    (making.before.bytes() <= before_bytes)
        & (making.cur.bytes() <= cur_bytes)
        & (making.after.bytes() <= after_bytes)
}

pub fn rows_good(rows: Rows) -> bool
    ensures { result ≡ good_rows rows }
{
    (rows.first <= 1) & (rows.mate <= 2)
}

// Whether a sample can be made, of planes of so many bytes. Numbers 3 to 6.
#[tactic(auto, unfolding(laws::specs::Refusal::lowest))]
fn judge(
    making: Making,
    before_bytes: usize,
    cur_bytes: usize,
    after_bytes: usize,
    x: i32,
    y: i32,
) -> Result<(), Refusal>
    ensures { no_of result ≡ sample_no making before_bytes cur_bytes after_bytes x y }
{
    let inside = rows_good(making.rows) & plane::in_reach(x) & plane::in_reach(y);
    Refusal::Outside.unless(inside)?;
    Refusal::Shape.unless(planes_good(making))?;
    Refusal::Differ.unless(planes_alike(making))?;
    Refusal::ShortInput.unless(planes_whole(making, before_bytes, cur_bytes, after_bytes))
}

// The same of the edge, which is that of one plane. Numbers 3, 4 and 6.
#[tactic(auto, unfolding(laws::specs::Refusal::lowest))]
fn readable(shape: plane::Shape, bytes: usize, x: i32, y: i32) -> Result<(), Refusal>
    ensures { no_of result ≡ edge_no shape bytes x y }
{
    Refusal::Outside.unless(plane::in_reach(x) & plane::in_reach(y))?;
    Refusal::Shape.unless(shape.is_good())?;
    Refusal::ShortInput.unless(shape.bytes() <= bytes)
}

// How the edge runs at a place of a missing row: the upper row is looked at this far to the right, and
// the lower as far to the left.
pub fn edge(cur: &[u8], shape: plane::Shape, x: i32, y: i32) -> Result<i32, Refusal>
    ensures { (no_of result ≡ edge_no shape (length cur.now) x y) × (values_of result ≡ when_done (edge_no shape (length cur.now) x y) (edge_of (value_of cur.now shape) x y)) }
{
    readable(shape, cur.len(), x, y)?;
    let lent = Lent { bytes: cur, shape };
    let slant = lent.edge_at(plane::biased(x), plane::biased(y));
    Ok(slant as i32 - 2)
}

// The value at a place, of a picture that shows the rows `making.rows.first` of `cur`. Slices and shapes apart,
// since a public signature with a struct of slices has no plain contract (`sample_once`).
pub fn sample(
    making: Making,
    before: &[u8],
    cur: &[u8],
    after: &[u8],
    x: i32,
    y: i32,
) -> Result<f32, Refusal>
    ensures result_value { no_of result ≡ sample_no making (length before.now) (length cur.now) (length after.now) x y }
    ensures result_value_2 { values_of result ≡ when_done (no_of result) (sample_in making before.now cur.now after.now x y) }
{
    judge(making, before.len(), cur.len(), after.len(), x, y)?;
    let planes = Planes {
        before: Lent {
            bytes: before,
            shape: making.before,
        },
        cur: Lent {
            bytes: cur,
            shape: making.cur,
        },
        after: Lent {
            bytes: after,
            shape: making.after,
        },
    };
    Ok(planes.sample_at(
        making.quality,
        making.rows,
        plane::row_parity(y),
        plane::biased(x),
        plane::biased(y),
    ))
}
