// What the capture desk's Rust host calls of the detector and of block counts, beside crate `desk` and
// in its manner: numbers and byte slices, the answer a number of docs/RULES.md, "What the desk gets
// back", a value to a lent place, which a refusal leaves as it was. Between calls the host keeps the
// detector in 96 bytes that it lends.
#![tactic(auto, unfolding(laws::specs::Refusal::lowest))]

ghost use Rattle.std.specs.Prelude.{◌≡◌, ◌≤◌, [], ◌∷◌, ◌++◌, length, replicate};
ghost use Rattle.laws.specs.Refusal.{lowest, when_done, written};
ghost use Rattle.refusal.specs.Refusal.{no_of, values_of};
ghost use Rattle.laws.specs.Rows.{over};
ghost use Rattle.field.specs.Field.{first_row_of, parity_named};
ghost use Rattle.plane.specs.Plane.{grid_shape};
ghost use Rattle.block.specs.Answer.{counts_of};
ghost use Rattle.telecine.specs.Detector.{nothing_kept, reset_of, measured_no, measured_detector, measured_cadence, push_cadence};
ghost use Rattle.entry.specs.Entry.{cadences_no, cadences_of};
ghost use Rattle.filmdesk.specs.Kept.{detector_in, detector_numbers, keeping, chosen_number, chosen_named};
ghost use Rattle.filmdesk.specs.Inner.{first_tests, detector_with};
ghost use Rattle.filmdesk.specs.Film.{picture_named, busy_no, new_no, state_no, predict_state_no, measured_named, measured_state_no, push_state_no};
ghost use Rattle.filmdesk.specs.Left.{new_state, reset_state, locked_byte, foretold_byte, measured_state, measured_byte, pushed_state, pushed_store, pushed_byte};

use block::Counts;
use field::{Cadence, Parity};
use numbers::GridNumbers;
use plane::{Grid, Shape};
use pulldown::{Course, Lock};
use refusal::Refusal;
use telecine::{Detector, Kept, Measured};

// What reads or writes a state asks for this length of a slice, and is lent no array: the exports' clauses
// speak of all that the host lends, which may be longer.
const STATE_BYTES: usize = 96;

// Where the ring stands in it, behind the numbers; the phase is the last byte.
const RING: usize = 80;

const PHASE: usize = 95;

// ---- a detector in the state's bytes

// 0 is none, 1 top and every other number bottom, so that all bytes are some detector. No `From`: neither
// type is of this crate.
fn chosen_in(number: u64) -> Option<Parity>
    ensures { result ≡ chosen_named number }
{
    match number {
        0 => None,
        1 => Some(Parity::Top),
        _ => Some(Parity::Bottom),
    }
}

#[tactic(auto, using(crate::proofs::Kept::ring_there))]
fn ring_in(state: &[u8]) -> [u8; 15]
    requires { 96 ≤ length state.now }
    ensures { result ≡ (detector_in state.now).lock.ring }
{
    let mut ring = [0u8; 15];
    ring.copy_from_slice(&state[RING..PHASE]);
    ring
}

// Of a part whose length is known, no number has to be tested for where the bytes end.
#[tactic(auto, using(crate::proofs::Kept::front_number), unfolding(crate::specs::Kept::detector_in))]
fn course_in(state: &[u8]) -> Course
    requires { 96 ≤ length state.now }
    ensures { result ≡ (detector_in state.now).lock.course }
{
    let bytes = &state[..STATE_BYTES];
    Course {
        next: packed::number_at(bytes, 0) as usize,
        held: packed::number_at(bytes, 1) as usize,
        taken: packed::number_at(bytes, 2),
        phase: state[PHASE],
        since: packed::number_at(bytes, 3),
        stills: packed::number_at(bytes, 4) as usize,
    }
}

#[tactic(auto, using(crate::proofs::Kept::front_number), unfolding(crate::specs::Kept::detector_in))]
fn kept_in(state: &[u8]) -> Kept
    requires { 96 ≤ length state.now }
    ensures { result ≡ (detector_in state.now).kept }
{
    let bytes = &state[..STATE_BYTES];
    Kept {
        held: packed::number_at(bytes, 5) != 0,
        width: packed::size_in(packed::number_at(bytes, 6)),
        height: packed::size_in(packed::number_at(bytes, 7)),
        first: Parity::named(packed::number_at(bytes, 8)),
    }
}

#[tactic(auto, using(crate::proofs::Kept::front_number), unfolding(crate::specs::Kept::detector_in))]
fn last_in(state: &[u8]) -> Option<Parity>
    requires { 96 ≤ length state.now }
    ensures { result ≡ (detector_in state.now).last }
{
    let bytes = &state[..STATE_BYTES];
    chosen_in(packed::number_at(bytes, 9))
}

fn detector_in(state: &[u8]) -> Detector
    requires { 96 ≤ length state.now }
    ensures { result ≡ detector_in state.now }
{
    Detector {
        lock: Lock {
            ring: ring_in(state),
            course: course_in(state),
        },
        kept: kept_in(state),
        last: last_in(state),
    }
}

// As much of it as `locked`, `predict` and `reset` look at. The rest is a fresh detector's.
fn outline_in(state: &[u8]) -> Detector
    requires { 96 ≤ length state.now }
    ensures { result ≡ detector_with (replicate 15 0) (detector_in state.now).lock.course nothing_kept (detector_in state.now).last }
{
    // It has a name since a wrong program forgets it, in a line that stands once.
    let last = last_in(state);
    let fresh = Detector::new();
    Detector {
        lock: Lock {
            course: course_in(state),
            ..fresh.lock
        },
        last,
        ..fresh
    }
}

// The detector after a reset.
fn reset_in(state: &[u8]) -> Detector
    requires { 96 ≤ length state.now }
    ensures { result ≡ reset_of (detector_in state.now) }
{
    outline_in(state).reset()
}

fn chosen_number(chosen: Option<Parity>) -> u64
    ensures { result ≡ chosen_number chosen }
{
    match chosen {
        Some(parity) => u64::from(parity.first_row()) + 1,
        None => 0,
    }
}

// In the order of the state's bytes, which is that of the definition `detector_numbers`.
fn numbers_of(detector: &Detector) -> [u64; 10]
    ensures { result ≡ detector_numbers detector.now }
{
    let Detector {
        lock: Lock { course, .. },
        kept,
        last,
    } = *detector;
    [
        course.next as u64,
        course.held as u64,
        course.taken,
        course.since,
        course.stills as u64,
        u64::from(kept.held),
        u64::from(kept.width),
        u64::from(kept.height),
        u64::from(kept.first.first_row()),
        chosen_number(last),
    ]
}

// The ring, and the phase behind it, into a place of just their bytes.
fn write_ring(to: &mut [u8], ring: &[u8; 15], phase: u8)
    requires { length to.old ≡ 16 }
    ensures { (to.new ≡ ring.now ++ (phase ∷ [])) × (length ring.now ≡ 15) }
{
    to[..15].copy_from_slice(ring);
    to[15] = phase;
}

// Writes a detector to a state that is long enough, so that the numbers have room. Compiled into each caller, so that
// what a caller knows of the detector, as that it is fresh, is written as it stands.
#[inline(always)]
fn keep(state: &mut [u8], detector: &Detector)
    requires { 96 ≤ length state.old }
    ensures { state.new ≡ keeping detector.now state.old }
{
    let numbers = numbers_of(detector);
    let _ = packed::write_numbers(&mut state[0..RING], &numbers);
    write_ring(
        &mut state[RING..STATE_BYTES],
        &detector.lock.ring,
        detector.lock.course.phase,
    );
}

// Takes counts: the detector is read from the state, and written back where it is not full. The ring stays
// in one place, which `Detector::push_measured` would copy twice.
fn push_counts(
    state: &mut [u8],
    first: Parity,
    measured: Option<Measured>,
) -> Result<Cadence, Refusal>
    requires { 96 ≤ length state.old }
    ensures result_value { no_of result ≡ measured_no (detector_in state.old) }
    ensures result_value_2 { values_of result ≡ when_done (measured_no (detector_in state.old)) (measured_cadence (detector_in state.old) first measured) }
    ensures state_after { state.new ≡ written (no_of result) (keeping (measured_detector (detector_in state.old) first measured) state.old) state.old }
{
    let mut ring = ring_in(state);
    let course = course_in(state);
    let kept = kept_in(state);
    let led = last_in(state);
    let seen = telecine::seen_measured(led, first, measured);
    let stepped = telecine::step(&mut ring, course, led, first, seen);
    let found = stepped.answer?;
    let detector = Detector {
        lock: Lock {
            ring,
            course: stepped.course,
        },
        kept,
        last: stepped.last,
    };
    keep(state, &detector);
    Ok(found)
}

// Counts as the host gives them: `present` 0 is none.
fn measured_named(
    present: u8,
    busy: u64,
    total: u64,
    other_busy: u64,
    other_total: u64,
) -> Option<Measured>
    ensures { result ≡ measured_named present busy total other_busy other_total }
{
    if present == 0 {
        return None;
    }
    let leading = Counts { busy, total };
    let trailing = Counts {
        busy: other_busy,
        total: other_total,
    };
    Some(Measured { leading, trailing })
}

// Counts by the host's numbers. Numbers 3, 4 and 6.
#[tactic(auto, using(crate::proofs::Calls::busy_number, crate::proofs::Calls::busy_values), unfolding(laws::specs::Refusal::lowest))]
fn busy_in(plane: &[u8], grid: GridNumbers, store: &[u8], parity: u8) -> Result<Counts, Refusal>
    ensures result_value { no_of result ≡ busy_no grid (length plane.now) (length store.now) parity }
    ensures result_value_2 { values_of result ≡ when_done (busy_no grid (length plane.now) (length store.now) parity) (counts_of plane.now (picture_named grid) store.now (first_row_of (parity_named parity))) }
{
    if 1 < parity {
        return Err(Refusal::Outside);
    }
    block::count(
        plane,
        numbers::grid_named(grid),
        store,
        Parity::named(u64::from(parity)),
    )
}

// What refuses a picture before the detector in the state is looked at.
fn judge(parity: u8, picture: Grid, given: usize) -> Result<(), Refusal>
    ensures { no_of result ≡ lowest (first_tests parity (grid_shape picture) given) }
{
    Refusal::Outside.unless(parity <= 1)?;
    Refusal::Shape.unless(Shape::from(picture).is_good())?;
    Refusal::ShortInput.unless(STATE_BYTES <= given)
}

// Takes a picture: the detector is read from the state, and written back where nothing is refused.
#[tactic(auto, using(crate::proofs::Calls::push_refused, crate::proofs::Calls::push_shape, crate::proofs::Calls::judged_room, crate::proofs::Calls::push_number), unfolding(laws::specs::Refusal::lowest))]
fn push_picture(
    state: &mut [u8],
    parity: u8,
    plane: &[u8],
    grid: GridNumbers,
    store: &mut [u8],
) -> Result<Cadence, Refusal>
    ensures result_value { no_of result ≡ push_state_no grid parity (length plane.now) (length store.old) (length state.old) (detector_in state.old) }
    ensures result_value_2 { values_of result ≡ when_done (push_state_no grid parity (length plane.now) (length store.old) (length state.old) (detector_in state.old)) (push_cadence (detector_in state.old) store.old plane.now (picture_named grid) (parity_named parity)) }
    ensures state_after { state.new ≡ pushed_state (no_of result) state.old store.old plane.now grid parity }
    ensures store_after { store.new ≡ pushed_store (no_of result) state.old store.old plane.now grid }
{
    let picture = numbers::grid_named(grid);
    judge(parity, picture, state.len())?;
    let detector = detector_in(state);
    let pushed = detector.push(plane, picture, Parity::named(u64::from(parity)), store);
    let seen = pushed.answer?;
    keep(state, &pushed.detector);
    Ok(seen)
}

// ---- the calls

// Each ends in a match that writes: of a place that a closure of `Result::map` wrote a proof knows nothing. An early
// return is no plainer with `?`: an inner function would take every parameter and clause a second time. What has a
// name and is used once is what a wrong program changes, in a line that stands once.

// Busy blocks and all blocks of a field, 0 top or 1 bottom, against the same field of the frame that
// `store` keeps as 8-bit samples, row by row. Codes are not shifted, and one above 2^depth - 1 counts as
// that: a biplanar luma deeper than 8 bits, whose codes stand in the high bits, goes through readback
// first. Numbers 3, 4 and 6.
#[unsafe(no_mangle)]
pub extern "C" fn desk_busy(
    plane: &[u8],
    grid: GridNumbers,
    store: &[u8],
    parity: u8,
    busy: &mut u64,
    total: &mut u64,
) -> u8
    ensures value { result ≡ busy_no grid (length plane.now) (length store.now) parity }
    ensures busy_after { busy.new ≡ written result (counts_of plane.now (picture_named grid) store.now (first_row_of (parity_named parity))).busy busy.old }
    ensures total_after { total.new ≡ written result (counts_of plane.now (picture_named grid) store.now (first_row_of (parity_named parity))).total total.old }
{
    match busy_in(plane, grid, store, parity) {
        Ok(counts) => {
            *busy = counts.busy;
            *total = counts.total;
            0
        }
        Err(refusal) => refusal.number(),
    }
}

// The cadence of each measured entry of twelve bytes from a fresh detector: 0 None, 1 Whole, 2 Drop,
// 3 Spanning. Numbers 3, 6, 7 and 9.
#[unsafe(no_mangle)]
pub extern "C" fn desk_cadences(entries: &[u8], out: &mut [u8]) -> u8
    ensures value { result ≡ cadences_no entries.now (length out.old) }
    ensures out_after { out.new ≡ written result (over (cadences_of entries.now) out.old) out.old }
{
    refusal::told(entry::cadences(out, entries))
}

// A fresh detector at the start of `state`. Number 7.
#[unsafe(no_mangle)]
pub extern "C" fn desk_detector_new(state: &mut [u8]) -> u8
    ensures value { result ≡ new_no (length state.old) }
    ensures state_after { state.new ≡ new_state result state.old }
{
    let room = state.len();
    if room < STATE_BYTES {
        return Refusal::ShortOutput.number();
    }
    keep(state, &Detector::new());
    0
}

// Starts the detector again; only which field led in the last frame is remembered. Number 6.
#[unsafe(no_mangle)]
pub extern "C" fn desk_detector_reset(state: &mut [u8]) -> u8
    ensures value { result ≡ state_no (length state.old) }
    ensures state_after { state.new ≡ reset_state result state.old }
{
    let given = state.len();
    if given < STATE_BYTES {
        return Refusal::ShortInput.number();
    }
    let fresh = reset_in(state);
    keep(state, &fresh);
    0
}

// Whether the detector is locked, 0 or 1. Number 6.
#[unsafe(no_mangle)]
pub extern "C" fn desk_detector_locked(state: &[u8], locked: &mut u8) -> u8
    ensures value { result ≡ state_no (length state.now) }
    ensures locked_after { locked.new ≡ locked_byte result state.now locked.old }
{
    let lent = state.len();
    if lent < STATE_BYTES {
        return Refusal::ShortInput.number();
    }
    let held = outline_in(state).locked();
    *locked = u8::from(held);
    0
}

// The cadence of the frame that comes after `ahead` others. Numbers 6 and 10.
#[unsafe(no_mangle)]
pub extern "C" fn desk_detector_predict(state: &[u8], ahead: u64, cadence: &mut u8) -> u8
    ensures value { result ≡ predict_state_no (length state.now) ahead }
    ensures cadence_after { cadence.new ≡ foretold_byte result state.now ahead cadence.old }
{
    if state.len() < STATE_BYTES {
        return Refusal::ShortInput.number();
    }
    match outline_in(state).predict(ahead) {
        Ok(foretold) => {
            *cadence = foretold.number();
            0
        }
        Err(refusal) => refusal.number(),
    }
}

// Takes counts of a frame led by the field `parity`, or none where `present` is 0: busy and all blocks
// of the leading field, then of the trailing. Numbers 3, 6 and 9.
#[unsafe(no_mangle)]
pub extern "C" fn desk_detector_push_measured(
    state: &mut [u8],
    parity: u8,
    present: u8,
    busy: u64,
    total: u64,
    other_busy: u64,
    other_total: u64,
    cadence: &mut u8,
) -> u8
    ensures value { result ≡ measured_state_no parity present (length state.old) (detector_in state.old) }
    ensures state_after { state.new ≡ measured_state result state.old parity (measured_named present busy total other_busy other_total) }
    ensures cadence_after { cadence.new ≡ measured_byte result state.old parity (measured_named present busy total other_busy other_total) cadence.old }
{
    let named = (parity <= 1) & (present <= 1);
    if !named {
        return Refusal::Outside.number();
    }
    if state.len() < STATE_BYTES {
        return Refusal::ShortInput.number();
    }
    let measured = measured_named(present, busy, total, other_busy, other_total);
    match push_counts(state, Parity::named(u64::from(parity)), measured) {
        Ok(found) => {
            *cadence = found.number();
            0
        }
        Err(refusal) => refusal.number(),
    }
}

// Takes a picture led by the field `parity`, compares it with the frame that the store keeps, and keeps
// it there. Codes are not shifted, and one above 2^depth - 1 counts as that: a biplanar luma deeper than
// 8 bits, whose codes stand in the high bits, goes through readback first. Numbers 3, 4, 6, 7 and 9.
#[unsafe(no_mangle)]
pub extern "C" fn desk_detector_push(
    state: &mut [u8],
    parity: u8,
    plane: &[u8],
    grid: GridNumbers,
    store: &mut [u8],
    cadence: &mut u8,
) -> u8
    ensures value { result ≡ push_state_no grid parity (length plane.now) (length store.old) (length state.old) (detector_in state.old) }
    ensures state_after { state.new ≡ pushed_state result state.old store.old plane.now grid parity }
    ensures store_after { store.new ≡ pushed_store result state.old store.old plane.now grid }
    ensures cadence_after { cadence.new ≡ pushed_byte result state.old store.old plane.now grid parity cadence.old }
{
    match push_picture(state, parity, plane, grid, store) {
        Ok(seen) => {
            *cadence = seen.number();
            0
        }
        Err(refusal) => refusal.number(),
    }
}
