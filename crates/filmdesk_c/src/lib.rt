// Made by tools/calls from the exports; not to be changed by hand.
// The archive of crate `filmdesk`: each of its calls under its own name, with the same clauses.
#![tactic(auto)]

ghost use Rattle.std.specs.Prelude.{◌≡◌, length};
ghost use Rattle.laws.specs.Refusal.{written};
ghost use Rattle.laws.specs.Rows.{over};
ghost use Rattle.field.specs.Field.{first_row_of, parity_named};
ghost use Rattle.block.specs.Answer.{counts_of};
ghost use Rattle.entry.specs.Entry.{cadences_no, cadences_of};
ghost use Rattle.filmdesk.specs.Kept.{detector_in};
ghost use Rattle.filmdesk.specs.Film.{picture_named, busy_no, new_no, state_no, predict_state_no, measured_named, measured_state_no, push_state_no};
ghost use Rattle.filmdesk.specs.Left.{new_state, reset_state, locked_byte, foretold_byte, measured_state, measured_byte, pushed_state, pushed_store, pushed_byte};

use numbers::GridNumbers;

// Busy blocks and all blocks of a field, 0 top or 1 bottom, against the same field of the frame that
// `store` keeps as 8-bit samples, row by row. Codes are not shifted, and one above 2^depth - 1 counts as
// that: a biplanar luma deeper than 8 bits, whose codes stand in the high bits, goes through readback
// first. Numbers 3, 4 and 6.
#[unsafe(no_mangle)]
pub extern "C" fn desk_busy(
    plane: &[u8],
    grid: GridNumbers,
    store: &[u8],
    parity: u8,
    busy: &mut u64,
    total: &mut u64,
) -> u8
    ensures value { result ≡ busy_no grid (length plane.now) (length store.now) parity }
    ensures busy_after { busy.new ≡ written result (counts_of plane.now (picture_named grid) store.now (first_row_of (parity_named parity))).busy busy.old }
    ensures total_after { total.new ≡ written result (counts_of plane.now (picture_named grid) store.now (first_row_of (parity_named parity))).total total.old }
{
    filmdesk::desk_busy(plane, grid, store, parity, busy, total)
}

// The cadence of each measured entry of twelve bytes from a fresh detector: 0 None, 1 Whole, 2 Drop,
// 3 Spanning. Numbers 3, 6, 7 and 9.
#[unsafe(no_mangle)]
pub extern "C" fn desk_cadences(entries: &[u8], out: &mut [u8]) -> u8
    ensures value { result ≡ cadences_no entries.now (length out.old) }
    ensures out_after { out.new ≡ written result (over (cadences_of entries.now) out.old) out.old }
{
    filmdesk::desk_cadences(entries, out)
}

// A fresh detector at the start of `state`. Number 7.
#[unsafe(no_mangle)]
pub extern "C" fn desk_detector_new(state: &mut [u8]) -> u8
    ensures value { result ≡ new_no (length state.old) }
    ensures state_after { state.new ≡ new_state result state.old }
{
    filmdesk::desk_detector_new(state)
}

// Starts the detector again; only which field led in the last frame is remembered. Number 6.
#[unsafe(no_mangle)]
pub extern "C" fn desk_detector_reset(state: &mut [u8]) -> u8
    ensures value { result ≡ state_no (length state.old) }
    ensures state_after { state.new ≡ reset_state result state.old }
{
    filmdesk::desk_detector_reset(state)
}

// Whether the detector is locked, 0 or 1. Number 6.
#[unsafe(no_mangle)]
pub extern "C" fn desk_detector_locked(state: &[u8], locked: &mut u8) -> u8
    ensures value { result ≡ state_no (length state.now) }
    ensures locked_after { locked.new ≡ locked_byte result state.now locked.old }
{
    filmdesk::desk_detector_locked(state, locked)
}

// The cadence of the frame that comes after `ahead` others. Numbers 6 and 10.
#[unsafe(no_mangle)]
pub extern "C" fn desk_detector_predict(state: &[u8], ahead: u64, cadence: &mut u8) -> u8
    ensures value { result ≡ predict_state_no (length state.now) ahead }
    ensures cadence_after { cadence.new ≡ foretold_byte result state.now ahead cadence.old }
{
    filmdesk::desk_detector_predict(state, ahead, cadence)
}

// Takes counts of a frame led by the field `parity`, or none where `present` is 0: busy and all blocks
// of the leading field, then of the trailing. Numbers 3, 6 and 9.
#[unsafe(no_mangle)]
pub extern "C" fn desk_detector_push_measured(
    state: &mut [u8],
    parity: u8,
    present: u8,
    busy: u64,
    total: u64,
    other_busy: u64,
    other_total: u64,
    cadence: &mut u8,
) -> u8
    ensures value { result ≡ measured_state_no parity present (length state.old) (detector_in state.old) }
    ensures state_after { state.new ≡ measured_state result state.old parity (measured_named present busy total other_busy other_total) }
    ensures cadence_after { cadence.new ≡ measured_byte result state.old parity (measured_named present busy total other_busy other_total) cadence.old }
{
    filmdesk::desk_detector_push_measured(
        state,
        parity,
        present,
        busy,
        total,
        other_busy,
        other_total,
        cadence,
    )
}

// Takes a picture led by the field `parity`, compares it with the frame that the store keeps, and keeps
// it there. Codes are not shifted, and one above 2^depth - 1 counts as that: a biplanar luma deeper than
// 8 bits, whose codes stand in the high bits, goes through readback first. Numbers 3, 4, 6, 7 and 9.
#[unsafe(no_mangle)]
pub extern "C" fn desk_detector_push(
    state: &mut [u8],
    parity: u8,
    plane: &[u8],
    grid: GridNumbers,
    store: &mut [u8],
    cadence: &mut u8,
) -> u8
    ensures value { result ≡ push_state_no grid parity (length plane.now) (length store.old) (length state.old) (detector_in state.old) }
    ensures state_after { state.new ≡ pushed_state result state.old store.old plane.now grid parity }
    ensures store_after { store.new ≡ pushed_store result state.old store.old plane.now grid }
    ensures cadence_after { cadence.new ≡ pushed_byte result state.old store.old plane.now grid parity cadence.old }
{
    filmdesk::desk_detector_push(state, parity, plane, grid, store, cadence)
}
