// Copyright 2026 Till0196
// SPDX-License-Identifier: Apache-2.0
// Carried over from core/src/output/video/telecine.rs (`Detector`), and changed: the detector goes in and
// comes back by value; window, lock and numbers of frames are `pulldown::Lock`; of the kept frame the
// detector has the shape, and a lent store the samples; frames and looks ahead are bounded, and what
// cannot be taken is refused.
//
// The detector of 2:3 pulldown: pictures with a lent store, counts that were measured elsewhere, resets.
#![tactic(auto)]

ghost use Rattle.std.specs.Prelude.{◌≡◌, ◌*◌, length};
ghost use Rattle.laws.specs.Refusal.{when_done};
ghost use Rattle.refusal.specs.Refusal.{no_of, values_of};
ghost use Rattle.field.specs.Field.{first_row_of};
ghost use Rattle.plane.specs.Plane.{grid_shape};
ghost use Rattle.block.specs.Answer.{count_no, counts_of};
ghost use Rattle.pulldown.specs.Lock.{lock_with, locked_of, push_lock, predict_no, predict_cadence};
ghost use Rattle.pulldown.specs.Lock as lock;
ghost use Rattle.telecine.specs.Detector.{fresh_detector, reset_of, seen_measured, comparable, seen_picture, last_after, measured_no, measured_cadence, measured_detector, kept_bytes, push_no, push_values, push_detector, push_store};

use block::Counts;
use field::{Cadence, Parity};
use plane::{Grid, Shape};
use pulldown::{Course, Lock, Symbol};
use refusal::Refusal;

// The shape of the frame that the store keeps. Where none is held, the rest says nothing; no Option, since a
// host's state has numbers there all the same, and the exports' clauses speak of every one.
#[derive(Clone, Copy, Debug, PartialEq, Eq)]
pub struct Kept {
    pub held: bool,
    pub width: u16,
    pub height: u16,
    // The field that leads.
    pub first: Parity,
}

#[derive(Clone, Copy, Debug, PartialEq, Eq)]
pub struct Detector {
    pub lock: Lock,
    pub kept: Kept,
    // The field that led in the last frame of either kind, which a reset does not forget.
    pub last: Option<Parity>,
}

// Counts of both fields of a frame. The trailing field's total is not looked at.
#[derive(Clone, Copy, Debug, PartialEq, Eq)]
pub struct Measured {
    pub leading: Counts,
    pub trailing: Counts,
}

#[derive(Clone, Copy, Debug, PartialEq, Eq)]
pub struct Pushed {
    pub detector: Detector,
    pub answer: Result<Cadence, Refusal>,
}

// What a frame leaves of the detector, apart from the ring and the kept frame, and its answer.
#[derive(Clone, Copy, Debug, PartialEq, Eq)]
pub struct Stepped {
    pub course: Course,
    pub last: Option<Parity>,
    pub answer: Result<Cadence, Refusal>,
}

// What counts tell of a frame that comes after one led by `last`.
pub fn seen_measured(
    last: Option<Parity>,
    first: Parity,
    measured: Option<Measured>,
) -> Option<Symbol>
    ensures { result ≡ seen_measured last first measured }
{
    let counts = measured?;
    if last == Some(first) {
        Some(pulldown::classify_counts(
            counts.leading.busy,
            counts.leading.total,
            counts.trailing.busy,
        ))
    } else {
        None
    }
}

// Whether a picture can be compared with the kept frame.
fn can_compare(kept: Kept, grid: Grid, first: Parity) -> bool
    ensures { result ≡ comparable kept (grid_shape grid) first }
{
    kept.held
        & ((kept.width == grid.width)
            & (kept.height == grid.height)
            & (kept.first == first)
            & (grid.height != 1))
}

// The counts of a field against the kept frame, of a picture that passes the tests of `block::count`.
fn counts_of(plane: &[u8], grid: Grid, store: &[u8], parity: Parity) -> Counts
    requires { count_no (grid_shape grid) (length plane.now) (length store.now) ≡ 0 }
    ensures { result ≡ counts_of plane.now (grid_shape grid) store.now (first_row_of parity) }
{
    block::count(plane, grid, store, parity).unwrap()
}

// What a picture shows against the kept frame.
#[tactic(auto, unfolding(crate::specs::Detector::symbol_against))]
fn seen_picture(kept: Kept, store: &[u8], plane: &[u8], grid: Grid, first: Parity) -> Option<Symbol>
    requires { count_no (grid_shape grid) (length plane.now) (length store.now) ≡ 0 }
    ensures { result ≡ seen_picture kept store.now plane.now (grid_shape grid) first }
{
    if can_compare(kept, grid, first) {
        let leading = counts_of(plane, grid, store, first);
        let trailing = counts_of(plane, grid, store, first.other());
        return Some(pulldown::classify_counts(leading.busy, leading.total, trailing.busy));
    }
    None
}

fn frame_bytes(height: u16, width: u16) -> usize
    ensures { result ≡ height * width }
{
    usize::from(height) * usize::from(width)
}

fn kept_bytes(kept: Kept) -> usize
    ensures { result ≡ kept_bytes kept }
{
    if kept.held {
        frame_bytes(kept.height, kept.width)
    } else {
        0
    }
}

// Whether a picture of so many bytes can be taken, with a store of so many. Numbers 4, 6, 7 and 9.
#[tactic(auto, unfolding(laws::specs::Refusal::lowest))]
fn judge(detector: Detector, grid: Grid, bytes: usize, room: usize) -> Result<(), Refusal>
    ensures { no_of result ≡ push_no detector (grid_shape grid) bytes room }
{
    let shape = Shape::from(grid);
    let long = shape.bytes() <= bytes;
    let held = kept_bytes(detector.kept) <= room;
    let fits = frame_bytes(grid.height, grid.width) <= room;
    Refusal::Shape.unless(shape.is_good())?;
    Refusal::ShortInput.unless(long & held)?;
    Refusal::ShortOutput.unless(fits)?;
    Refusal::TooManyFrames.unless(detector.lock.course.taken < pulldown::MOST_FRAMES)
}

// Takes a frame of either kind, by what was seen of it: every push of a detector is this step. The ring is
// changed in place. A refusal changes nothing.
#[tactic(auto, unfolding(laws::specs::Refusal::lowest))]
pub fn step(
    ring: &mut [u8; 15],
    course: Course,
    last: Option<Parity>,
    first: Parity,
    seen: Option<Symbol>,
) -> Stepped
    ensures course_after { lock_with ring.new result.course ≡ push_lock (lock_with ring.old course) seen }
    ensures last_value { result.last ≡ last_after (lock_with ring.old course) last first }
    ensures answer_value { no_of result.answer ≡ lock.push_no (lock_with ring.old course) }
    ensures answer_value_2 { values_of result.answer ≡ when_done (lock.push_no (lock_with ring.old course)) (lock.push_cadence (lock_with ring.old course) seen) }
{
    if pulldown::MOST_FRAMES <= course.taken {
        return Stepped {
            course,
            last,
            answer: Err(Refusal::TooManyFrames),
        };
    }
    let pushed = pulldown::push_apart(ring, course, seen);
    Stepped {
        course: pushed.course,
        last: Some(first),
        answer: pushed.answer,
    }
}

impl Detector {
    pub fn new() -> Detector
        ensures { result ≡ fresh_detector }
    {
        Detector {
            lock: Lock::new(),
            kept: Kept {
                held: false,
                width: 0,
                height: 0,
                first: Parity::Top,
            },
            last: None,
        }
    }

    // Forgets the kept frame and every frame's symbol, but not the last parity.
    pub fn reset(self) -> Detector
        ensures { result ≡ reset_of self }
    {
        let fresh = Detector::new();
        Detector {
            lock: fresh.lock,
            kept: fresh.kept,
            ..self
        }
    }

    pub fn locked(self) -> bool
        ensures { result ≡ locked_of self.lock }
    {
        self.lock.locked()
    }

    // The cadence of the frame that comes after `ahead` others, as far as the lock tells it.
    pub fn predict(self, ahead: u64) -> Result<Cadence, Refusal>
        ensures { (no_of result ≡ predict_no ahead) × (values_of result ≡ when_done (predict_no ahead) (predict_cadence self.lock ahead)) }
    {
        self.lock.predict(ahead)
    }

    // Takes counts. The kept frame stays.
    pub fn push_measured(self, first: Parity, measured: Option<Measured>) -> Pushed
        ensures detector_value { result.detector ≡ measured_detector self first measured }
        ensures answer_value { no_of result.answer ≡ measured_no self }
        ensures answer_value_2 { values_of result.answer ≡ when_done (measured_no self) (measured_cadence self first measured) }
    {
        let mut ring = self.lock.ring;
        let stepped = step(
            &mut ring,
            self.lock.course,
            self.last,
            first,
            seen_measured(self.last, first, measured),
        );
        Pushed {
            detector: Detector {
                lock: Lock {
                    ring,
                    course: stepped.course,
                },
                kept: self.kept,
                last: stepped.last,
            },
            answer: stepped.answer,
        }
    }

    // Takes a picture: compares it with the frame that the store keeps, and then keeps it there. Codes are
    // not shifted, and one above 2^depth - 1 counts as that: a biplanar luma deeper than 8 bits goes through
    // readback first.
    pub fn push(self, plane: &[u8], grid: Grid, first: Parity, store: &mut [u8]) -> Pushed
        ensures detector_value { result.detector ≡ push_detector self store.old plane.now (grid_shape grid) first }
        ensures answer_value { no_of result.answer ≡ push_no self (grid_shape grid) (length plane.now) (length store.old) }
        ensures answer_value_2 { values_of result.answer ≡ push_values self store.old plane.now (grid_shape grid) first }
        ensures store_after { store.new ≡ push_store self store.old plane.now (grid_shape grid) }
    {
        if let Err(refusal) = judge(self, grid, plane.len(), store.len()) {
            return Pushed {
                detector: self,
                answer: Err(refusal),
            };
        }
        let seen = seen_picture(self.kept, store, plane, grid, first);
        let mut ring = self.lock.ring;
        let Stepped {
            course,
            last,
            answer,
        } = step(&mut ring, self.lock.course, self.last, first, seen);
        // A picture that was taken can be kept.
        let _ = block::keep(store, plane, grid);
        Pushed {
            detector: Detector {
                lock: Lock { ring, course },
                kept: Kept {
                    held: true,
                    width: grid.width,
                    height: grid.height,
                    first,
                },
                last,
            },
            answer,
        }
    }
}
