// Copyright 2026 Till0196
// SPDX-License-Identifier: Apache-2.0
// Carried over from core/src/output/video/telecine.rs, and changed: `advance` is `Lock::push`, by value,
// and `push_apart`, on what was seen of a frame; the window is a ring of 15 numbers; no phase is phase 5;
// `classify_counts` takes the three counts that it reads; frames and looks ahead are bounded, and more are
// refused.
//
// The 2:3 pulldown in a sequence of frames, by what was seen of each: the symbol that block counts give,
// and the lock on the pattern of five frames. Of pictures, stores and parities nothing is known here.
#![tactic(auto)]

ghost use Rattle.std.specs.Prelude.{◌≡◌, cond, ℕ, ◌+◌, ◌%◌, ◌<◌, ◌≤◌, min, List, ltb, length};
ghost use Rattle.laws.specs.Refusal.{when_done, written};
ghost use Rattle.refusal.specs.Refusal.{no_of, values_of};
ghost use Rattle.pulldown.specs.Symbols.{symbol_of};
ghost use Rattle.pulldown.specs.Runs.{frame_of, step_of, still_or_expected, agrees, contradicts, cadence_by, foretold};
ghost use Rattle.pulldown.specs.Lock.{symbol_at, window, candidate_of, locked_by, stills_after, with_symbol, without_symbol, advance_of, fresh_lock, locked_of, lock_with, push_no, push_cadence, push_lock, predict_no, predict_cadence};
ghost use Rattle.pulldown.specs.Codes.{seen_code, seen_by, cadences_of, codes_no};
ghost use Rattle.pulldown.specs.Inner.{with_phase, phase_in};

use field::Cadence;
use refusal::Refusal;

// A field moved where this part of its blocks is busy, or more, and at least `MOVING_LEAST` are.
const MOVING_PART: u64 = 128;

const MOVING_LEAST: u64 = 4;

// A field repeats where this part of its blocks is busy, or less, and also where at most `QUIET_MOST` are:
// a repeat that was encoded anew is not without busy blocks.
const QUIET_PART: u64 = 1024;

const QUIET_MOST: u64 = 1;

// Three times the pattern: twice to judge by, and once more so that this does not grow old at once.
const WINDOW: usize = 15;

// Two repeats of either field and four moved frames.
const LEAST_HELD: usize = 8;

// So many stills in a row end a lock: an edit may lie among them.
const MOST_STILL: usize = 12;

// The phase number that stands for none.
const NO_PHASE: u8 = 5;

// How many frames are taken, and how far ahead is foretold; more is refused.
pub const MOST_FRAMES: u64 = 4000000000;

const MOST_AHEAD: u64 = 1000000;

// What is seen of a frame, each of its fields held against the same field of the frame before. A frame that
// cannot be compared with one before it has no symbol. The number is the one that stands in the ring.
#[derive(Clone, Copy, Debug, PartialEq, Eq)]
pub enum Symbol {
    Still = 0,
    Moved = 1,
    // The field that is shown first repeats.
    RepeatFirst = 2,
    RepeatSecond = 3,
}

// What is expected of a frame, by its step. Which field repeats tells the third frame from the fifth,
// so the phase is known.
const PATTERN: [Symbol; 5] = [
    Symbol::Moved,
    Symbol::Moved,
    Symbol::RepeatFirst,
    Symbol::Moved,
    Symbol::RepeatSecond,
];

const BECOMES: [Cadence; 5] = [
    Cadence::Whole,
    Cadence::Whole,
    Cadence::Drop,
    Cadence::Spanning,
    Cadence::Spanning,
];

// A lock without its ring.
#[derive(Clone, Copy, Debug, PartialEq, Eq)]
pub struct Course {
    // The place in the ring that the next symbol takes.
    pub next: usize,
    // How many of the ring's newest symbols are of this run.
    pub held: usize,
    // How many frames were taken since fresh or reset, which is the next frame's number.
    pub taken: u64,
    // 0 to 4, or 5 for none; no Option, since a host's state holds any byte here, and the exports' clauses
    // speak of every one.
    pub phase: u8,
    // The frame at which the phase was locked. Without a phase it says nothing.
    pub since: u64,
    // How many stills in a row end at the newest frame; 12 for any more.
    pub stills: usize,
}

#[derive(Clone, Copy, Debug, PartialEq, Eq)]
pub struct Lock {
    // The last symbols as numbers.
    pub ring: [u8; 15],
    pub course: Course,
}

#[derive(Clone, Copy, Debug, PartialEq, Eq)]
pub struct Pushed {
    pub lock: Lock,
    pub answer: Result<Cadence, Refusal>,
}

#[derive(Clone, Copy, Debug, PartialEq, Eq)]
pub struct Stepped {
    pub course: Course,
    pub answer: Result<Cadence, Refusal>,
}

// The symbol of a frame by its busy blocks: those of the leading field, that field's total, and those of
// the trailing one.
#[tactic(auto, unfolding(crate::specs::Symbols::symbol_of))]
pub fn classify_counts(first: u64, blocks: u64, second: u64) -> Symbol
    ensures { result ≡ symbol_of first blocks second }
{
    let moving = (blocks / MOVING_PART).max(MOVING_LEAST);
    let quiet = (blocks / QUIET_PART).max(QUIET_MOST);
    if (first <= quiet) & (moving <= second) {
        return Symbol::RepeatFirst;
    }
    if (second <= quiet) & (moving <= first) {
        return Symbol::RepeatSecond;
    }
    if (first < moving) & (second < moving) {
        return Symbol::Still;
    }
    Symbol::Moved
}

// The symbol that a number of the ring stands for: every number above 2 is the last symbol's.
fn symbol_of(number: u8) -> Symbol
    ensures { result ≡ symbol_at number }
{
    match number {
        0 => Symbol::Still,
        1 => Symbol::Moved,
        2 => Symbol::RepeatFirst,
        _ => Symbol::RepeatSecond,
    }
}

// The step of frame n: its place in both tables.
fn step_of(phase: u8, n: u64) -> usize
    requires { phase < 5 }
    ensures { (result ≡ step_of phase n) × (result < 5) }
{
    ((n % 5 + 5 - u64::from(phase)) % 5) as usize
}

#[tactic(auto, unfolding(crate::specs::Runs::still_or_expected))]
fn still_or_expected(phase: u8, n: u64, symbol: Symbol) -> bool
    requires { phase < 5 }
    ensures { result ≡ still_or_expected phase (frame_of n symbol) }
{
    (symbol == Symbol::Still) | (symbol == PATTERN[step_of(phase, n)])
}

// The newest `held` frames of a ring, the newest of which has number n and stands at `place`.
#[derive(Clone, Copy)]
struct Newest<'a> {
    ring: &'a [u8; 15],
    place: usize,
    n: u64,
    held: usize,
    ghost inside: { place < 15 },
    ghost few: { held ≤ 15 },
}

impl<'a> Newest<'a> {
    // Whether they agree with a phase.
    fn agrees(self, phase: u8) -> bool
        requires { phase < 5 }
        ensures { result ≡ agrees phase (window self.entry.ring.now self.entry.place self.entry.n self.entry.held) }
    {
        let mut at = self.place;
        let mut number = self.n;
        let mut firsts: usize = 0;
        let mut seconds: usize = 0;
        let mut moved: usize = 0;
        for _back in 0..self.held {
            let symbol = symbol_of(self.ring[at]);
            if !still_or_expected(phase, number, symbol) {
                return false;
            }
            firsts += usize::from(symbol == Symbol::RepeatFirst);
            seconds += usize::from(symbol == Symbol::RepeatSecond);
            moved += usize::from(symbol == Symbol::Moved);
            at = (at + (WINDOW - 1)) % WINDOW;
            number = number.saturating_sub(1);
        }
        (2 <= firsts) & (2 <= seconds) & (4 <= moved)
    }

    // The phase that they agree with. There is one at most, so the first is the only one.
    #[tactic(auto, using(crate::proofs::FirstPhase::first_here, crate::proofs::FirstPhase::first_none), unfolding(crate::specs::Lock::candidate_of))]
    fn candidate(self) -> u8
        ensures { result ≡ candidate_of (window self.entry.ring.now self.entry.place self.entry.n self.entry.held) }
    {
        for phase in 0..NO_PHASE {
            if self.agrees(phase) {
                return phase;
            }
        }
        NO_PHASE
    }

    // A phase is locked only at the head of the pattern, so that the first frame that is shown needs no
    // field of the frame before it.
    #[tactic(auto, unfolding(crate::specs::Lock::locked_by))]
    fn locked_by(self) -> u8
        ensures { result ≡ locked_by (window self.entry.ring.now self.entry.place self.entry.n self.entry.held) self.entry.n }
    {
        let phase = self.candidate();
        if phase < NO_PHASE && step_of(phase, self.n) < 2 {
            phase
        } else {
            NO_PHASE
        }
    }

    // The same as `locked_by`, and sooner where the frames are too few for the repeats and moves that a
    // phase asks.
    #[tactic(auto, using(crate::proofs::Few::few_locked))]
    fn locked_among(self) -> u8
        ensures { result ≡ locked_by (window self.entry.ring.now self.entry.place self.entry.n self.entry.held) self.entry.n }
    {
        if self.held < LEAST_HELD {
            NO_PHASE
        } else {
            self.locked_by()
        }
    }
}

#[tactic(auto, unfolding(crate::specs::Runs::contradicts))]
fn contradicts(phase: u8, n: u64, symbol: Symbol) -> bool
    ensures { result ≡ contradicts phase (frame_of n symbol) }
{
    if phase < NO_PHASE {
        !still_or_expected(phase, n, symbol)
    } else {
        false
    }
}

fn cadence_by(phase: u8, n: u64) -> Cadence
    ensures { result ≡ cadence_by phase n }
{
    if phase < NO_PHASE {
        BECOMES[step_of(phase, n)]
    } else {
        Cadence::None
    }
}

// What is left of the cycle in which the phase was locked is not foretold: it would lean on a field of
// the frame before.
#[tactic(auto, unfolding(crate::specs::Runs::foretold))]
fn foretell(phase: u8, since: u64, at: u64) -> Cadence
    ensures { result ≡ foretold phase since at }
{
    if NO_PHASE <= phase {
        return Cadence::None;
    }
    let step = step_of(phase, at);
    if at.saturating_sub(step as u64) <= since {
        Cadence::None
    } else {
        BECOMES[step]
    }
}

fn stills_after(stills: usize, symbol: Symbol) -> usize
    ensures { result ≡ stills_after stills symbol }
{
    if symbol == Symbol::Still {
        stills.saturating_add(1).min(MOST_STILL)
    } else {
        0
    }
}

// The phase before a frame, as the stills up to and with that frame leave it.
fn phase_left(stills: usize, phase: u8) -> u8
    ensures { result ≡ cond (ltb stills 12) phase 5 }
{
    if stills < MOST_STILL { phase } else { NO_PHASE }
}

// A symbol that contradicts leaves nothing in the window, not even itself.
fn held_after(broken: bool, held: usize) -> usize
    ensures { result ≡ cond broken 0 held }
{
    if broken { 0 } else { held }
}

fn phase_unless(broken: bool, phase: u8) -> u8
    ensures { result ≡ cond broken 5 phase }
{
    if broken { NO_PHASE } else { phase }
}

fn place_after(place: usize) -> usize
    requires { place < 15 }
    ensures { (result ≡ (place + 1) % 15) × (result < 15) }
{
    if place < WINDOW - 1 { place + 1 } else { 0 }
}

// Where no phase was held, one can be locked at frame n at the earliest.
fn since_after(holding: bool, since: u64, n: u64) -> u64
    ensures { result ≡ cond holding since n }
{
    if holding { since } else { n }
}

// Takes a frame that can be compared, the ring in place, all but the search: where this leaves no phase,
// `locked_among` looks for one. Without the search it is short enough to be compiled into a caller's loop.
fn enter(ring: &mut [u8; 15], course: Course, symbol: Symbol) -> Course
    requires { (course.next < 15) × (course.taken < 4000000000) }
    ensures { (lock_with ring.new (with_phase result (phase_in ring.new course result)) ≡ with_symbol (lock_with ring.old course) symbol) × (result.next < 15) × (result.held ≤ 15) }
{
    let n = course.taken;
    let place = course.next;
    ring[place] = symbol as u8;
    let held = course.held.saturating_add(1).min(WINDOW);
    let stills = stills_after(course.stills, symbol);
    let left = phase_left(stills, course.phase);
    let broken = contradicts(left, n, symbol);
    Course {
        next: place_after(place),
        held: held_after(broken, held),
        taken: n + 1,
        phase: phase_unless(broken, left),
        since: since_after(left < NO_PHASE, course.since, n),
        stills,
    }
}

// A frame that cannot be compared contradicts nothing. It ends the run.
fn end_run(course: Course) -> Course
    requires { course.taken < 4000000000 }
    ensures { (ring : List ℕ) → lock_with ring result ≡ without_symbol (lock_with ring course) }
{
    Course {
        held: 0,
        taken: course.taken + 1,
        phase: NO_PHASE,
        stills: 0,
        ..course
    }
}

// Brings the place into the ring. Every history leaves it there.
fn in_ring(course: Course) -> Course
    ensures { (result.next < 15) × (result.taken ≡ course.taken) × ((ring : List ℕ) (s : Symbol) → with_symbol (lock_with ring result) s ≡ with_symbol (lock_with ring course) s) }
{
    Course {
        next: course.next % WINDOW,
        ..course
    }
}

// Takes a frame that can be compared. Compiled into both callers: `take_code` stands in the loop of `cadences_of`.
#[inline(always)]
fn take_symbol(ring: &mut [u8; 15], course: Course, symbol: Symbol) -> Course
    requires { (course.next < 15) × (course.taken < 4000000000) }
    ensures { (lock_with ring.new result ≡ with_symbol (lock_with ring.old course) symbol) × (result.next < 15) }
{
    let after = enter(ring, course, symbol);
    if after.phase < NO_PHASE {
        return after;
    }
    let newest = Newest {
        ring,
        place: course.next,
        n: course.taken,
        held: after.held,
    };
    let found = newest.locked_among();
    Course {
        phase: found,
        ..after
    }
}

#[tactic(auto, using(crate::proofs::Step::ended), unfolding(crate::specs::Lock::advance_of))]
fn take_seen(ring: &mut [u8; 15], course: Course, seen: Option<Symbol>) -> Course
    requires { course.taken < 4000000000 }
    ensures { lock_with ring.new result ≡ advance_of (lock_with ring.old course) seen }
{
    match seen {
        None => end_run(course),
        Some(symbol) => take_symbol(ring, in_ring(course), symbol),
    }
}

// Takes a frame, the ring in place: every push of a lock is this step. A refusal changes nothing. The
// cadence is that of the phase which the frame leaves.
#[tactic(auto, unfolding(laws::specs::Refusal::lowest))]
pub fn push_apart(ring: &mut [u8; 15], course: Course, seen: Option<Symbol>) -> Stepped
    ensures course_after { lock_with ring.new result.course ≡ push_lock (lock_with ring.old course) seen }
    ensures answer_value { no_of result.answer ≡ push_no (lock_with ring.old course) }
    ensures answer_value_2 { values_of result.answer ≡ when_done (push_no (lock_with ring.old course)) (push_cadence (lock_with ring.old course) seen) }
{
    if MOST_FRAMES <= course.taken {
        return Stepped {
            course,
            answer: Err(Refusal::TooManyFrames),
        };
    }
    let after = take_seen(ring, course, seen);
    Stepped {
        course: after,
        answer: Ok(cadence_by(after.phase, course.taken)),
    }
}

impl Lock {
    pub fn new() -> Lock
        ensures { result ≡ fresh_lock }
    {
        Lock {
            ring: [0u8; 15],
            course: Course {
                next: 0,
                held: 0,
                taken: 0,
                phase: NO_PHASE,
                since: 0,
                stills: 0,
            },
        }
    }

    pub fn reset(self) -> Lock
        ensures { result ≡ fresh_lock }
    {
        Lock::new()
    }

    pub fn locked(self) -> bool
        ensures { result ≡ locked_of self }
    {
        self.course.phase < NO_PHASE
    }

    pub fn push(self, seen: Option<Symbol>) -> Pushed
        ensures { (result.lock ≡ push_lock self seen) × (no_of result.answer ≡ push_no self) × (values_of result.answer ≡ when_done (push_no self) (push_cadence self seen)) }
    {
        let mut ring = self.ring;
        let stepped = push_apart(&mut ring, self.course, seen);
        Pushed {
            lock: Lock {
                ring,
                course: stepped.course,
            },
            answer: stepped.answer,
        }
    }

    // The cadence of the frame that comes after `ahead` others, as far as the lock tells it.
    #[tactic(auto, unfolding(laws::specs::Refusal::lowest))]
    pub fn predict(self, ahead: u64) -> Result<Cadence, Refusal>
        ensures { (no_of result ≡ predict_no ahead) × (values_of result ≡ when_done (predict_no ahead) (predict_cadence self ahead)) }
    {
        Refusal::TooFarAhead.unless(ahead <= MOST_AHEAD)?;
        let at = self.course.taken.min(MOST_FRAMES) + ahead;
        Ok(foretell(self.course.phase, self.course.since, at))
    }
}

// ---- frames by their codes

// The number of a frame's symbol, and 4 for a frame that cannot be compared.
pub fn seen_code(seen: Option<Symbol>) -> u8
    ensures { result ≡ seen_code seen }
{
    match seen {
        None => 4,
        Some(symbol) => symbol as u8,
    }
}

// The step of `push_apart`, of a code and without its tests.
#[tactic(auto, using(crate::proofs::Step::ended), unfolding(crate::specs::Lock::advance_of))]
fn take_code(ring: &mut [u8; 15], course: Course, code: u8) -> Course
    requires { (course.next < 15) × (course.taken < 4000000000) }
    ensures { (lock_with ring.new result ≡ advance_of (lock_with ring.old course) (seen_by code)) × (result.next < 15) }
{
    if 3 < code {
        return end_run(course);
    }
    take_symbol(ring, course, symbol_of(code))
}

// Frames by what was seen of each, as a code: 0 to 3 for a symbol, any other for a frame that cannot be
// compared. Each code gives place to its frame's cadence, from a fresh lock: 0 None, 1 Whole, 2 Drop,
// 3 Spanning. Number 9.
#[tactic(auto, unfolding(laws::specs::Refusal::lowest))]
pub fn cadences_of(codes: &mut [u8]) -> Result<(), Refusal>
    ensures value { no_of result ≡ codes_no (length codes.old) }
    ensures codes_after { codes.new ≡ written (no_of result) (cadences_of codes.old) codes.old }
{
    Refusal::TooManyFrames.unless(codes.len() <= 4000000000)?;
    let lock = Lock::new();
    let mut ring = lock.ring;
    let mut course = lock.course;
    for code in codes.iter_mut() {
        let after = take_code(&mut ring, course, *code);
        *code = cadence_by(after.phase, course.taken).number();
        course = after;
    }
    Ok(())
}
