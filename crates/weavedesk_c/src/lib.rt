// Made by tools/calls from the exports; not to be changed by hand.
// The archive of crate `weavedesk`: each of its calls under its own name, with the same clauses.
#![tactic(auto)]

ghost use Rattle.std.specs.Prelude.{◌≡◌, length};
ghost use Rattle.laws.specs.Refusal.{written};
ghost use Rattle.numbers.specs.Numbers.{grid_named};
ghost use Rattle.weave.specs.Weave.{lent_field, weave_no_of, woven_after, line_no, woven_format};
ghost use Rattle.readback.specs.Readback.{luma_shape, cb_shape, cr_shape, cr_bytes_of, sizes_of, sizes_no_of, readback_no_of, copied_after};
ghost use Rattle.weavedesk.specs.Woven.{field_named, line_out_no, line_after, format_named, format_numbers, readback_named};
ghost use Rattle.weavedesk.specs.Push.{lent, offer, new_no, clear_no, emptied, push_no, state_after, store_after, luma_after, cb_after, cr_after, picture_after, timed_after, time_after};

use numbers::GridNumbers;
use weavedesk::{FieldNumbers, FormatNumbers, ReadbackNumbers};

// Two fields' lines in turn, the top field's first; each woven plane is tightly packed. Numbers 4 to 7.
#[unsafe(no_mangle)]
pub extern "C" fn desk_weave(
    top: FieldNumbers,
    top_luma: &[u8],
    top_cb: &[u8],
    top_cr: &[u8],
    bottom: FieldNumbers,
    bottom_luma: &[u8],
    bottom_cb: &[u8],
    bottom_cr: &[u8],
    out_luma: &mut [u8],
    out_cb: &mut [u8],
    out_cr: &mut [u8],
) -> u8
    ensures value { result ≡ weave_no_of (lent_field (field_named top) top_luma top_cb top_cr) (lent_field (field_named bottom) bottom_luma bottom_cb bottom_cr) out_luma out_cb out_cr }
    ensures out_luma_after { out_luma.new ≡ woven_after result top_luma.now (grid_named top.luma) bottom_luma.now (grid_named bottom.luma) out_luma.old }
    ensures out_cb_after { out_cb.new ≡ woven_after result top_cb.now (grid_named top.cb) bottom_cb.now (grid_named bottom.cb) out_cb.old }
    ensures out_cr_after { out_cr.new ≡ woven_after result top_cr.now (grid_named top.cr) bottom_cr.now (grid_named bottom.cr) out_cr.old }
{
    weavedesk::desk_weave(
        top,
        top_luma,
        top_cb,
        top_cr,
        bottom,
        bottom_luma,
        bottom_cb,
        bottom_cr,
        out_luma,
        out_cb,
        out_cr,
    )
}

// The number of a single woven line, from the lengths of the two planes, of fields with at most 2,176
// lines. Numbers 3 to 6.
#[unsafe(no_mangle)]
pub extern "C" fn desk_line_number(
    top: GridNumbers,
    top_bytes: u64,
    bottom: GridNumbers,
    bottom_bytes: u64,
    y: u32,
) -> u8
    ensures { result ≡ line_no (grid_named top) top_bytes (grid_named bottom) bottom_bytes y }
{
    weavedesk::desk_line_number(top, top_bytes, bottom, bottom_bytes, y)
}

// The bytes of a single woven line, copied out, of fields with at most 2,176 lines. Numbers 3 to 7.
#[unsafe(no_mangle)]
pub extern "C" fn desk_woven_line<'a>(
    top: &'a [u8],
    top_lines: GridNumbers,
    bottom: &'a [u8],
    bottom_lines: GridNumbers,
    y: u32,
    out: &mut [u8],
) -> u8
    ensures value { result ≡ line_out_no top_lines (length top.now) bottom_lines (length bottom.now) y (length out.old) }
    ensures out_after { out.new ≡ line_after result top.now top_lines bottom.now bottom_lines y out.old }
{
    weavedesk::desk_woven_line(top, top_lines, bottom, bottom_lines, y, out)
}

// The format of the frames woven from fields of a format. A flag other than 0 counts as 1. Refuses
// nothing.
#[unsafe(no_mangle)]
pub extern "C" fn desk_woven(field: FormatNumbers) -> FormatNumbers
    ensures { result ≡ format_numbers (woven_format (format_named field)) }
{
    weavedesk::desk_woven(field)
}

// How many bytes each output of `desk_readback_copy` needs for these planes. Of two planes the second
// has both chroma components, and the third is not looked at. Numbers 1, 2, 4 and 6.
#[unsafe(no_mangle)]
pub extern "C" fn desk_readback_sizes(
    about: ReadbackNumbers,
    luma: &[u8],
    second: &[u8],
    third: &[u8],
    luma_bytes: &mut u64,
    cb_bytes: &mut u64,
    cr_bytes: &mut u64,
) -> u8
    ensures value { result ≡ sizes_no_of (readback_named about) luma second third }
    ensures luma_bytes_after { luma_bytes.new ≡ written result (sizes_of (readback_named about)).luma luma_bytes.old }
    ensures cb_bytes_after { cb_bytes.new ≡ written result (sizes_of (readback_named about)).cb cb_bytes.old }
    ensures cr_bytes_after { cr_bytes.new ≡ written result (sizes_of (readback_named about)).cr cr_bytes.old }
{
    weavedesk::desk_readback_sizes(about, luma, second, third, luma_bytes, cb_bytes, cr_bytes)
}

// A frame read back, without padding, in three planes, each at the start of its output. Of two planes
// cb and cr are both read from the second. The planes are judged as for `desk_readback_sizes`, whether
// it was called or not. Numbers 1, 2, 4, 6 and 7.
#[unsafe(no_mangle)]
pub extern "C" fn desk_readback_copy(
    about: ReadbackNumbers,
    luma: &[u8],
    second: &[u8],
    third: &[u8],
    out_luma: &mut [u8],
    out_cb: &mut [u8],
    out_cr: &mut [u8],
) -> u8
    ensures value { result ≡ readback_no_of (readback_named about) luma second third out_luma out_cb out_cr }
    ensures out_luma_after { out_luma.new ≡ copied_after result luma.now (luma_shape (readback_named about)) out_luma.old }
    ensures out_cb_after { out_cb.new ≡ copied_after result second.now (cb_shape (readback_named about)) out_cb.old }
    ensures out_cr_after { out_cr.new ≡ copied_after result (cr_bytes_of (readback_named about) second.now third.now) (cr_shape (readback_named about)) out_cr.old }
{
    weavedesk::desk_readback_copy(about, luma, second, third, out_luma, out_cb, out_cr)
}

// A weaver with no field, at the start of `state`. Number 7.
#[unsafe(no_mangle)]
pub extern "C" fn desk_weaver_new(state: &mut [u8]) -> u8
    ensures value { result ≡ new_no (length state.old) }
    ensures state_after { state.new ≡ emptied result state.old }
{
    weavedesk::desk_weaver_new(state)
}

// Throws away the field that waits. Number 6.
#[unsafe(no_mangle)]
pub extern "C" fn desk_weaver_clear(state: &mut [u8]) -> u8
    ensures value { result ≡ clear_no (length state.old) }
    ensures state_after { state.new ≡ emptied result state.old }
{
    weavedesk::desk_weaver_clear(state)
}

// Takes a field of parity 0 top or 1 bottom; where `timed` is 1 it has the time `time`. `picture` gets 1
// where the outputs have a picture, else 0; `earlier_timed` and `earlier_time` get the earlier field's
// time where there is a picture and it has one, else 0. `store` keeps the field that waits, and comes
// back as it was left. Numbers 3 to 7.
#[unsafe(no_mangle)]
pub extern "C" fn desk_weaver_push(
    state: &mut [u8],
    parity: u8,
    timed: u8,
    time: i64,
    shape: FieldNumbers,
    luma: &[u8],
    cb: &[u8],
    cr: &[u8],
    store: &mut [u8],
    out_luma: &mut [u8],
    out_cb: &mut [u8],
    out_cr: &mut [u8],
    picture: &mut u8,
    earlier_timed: &mut u8,
    earlier_time: &mut i64,
) -> u8
    ensures value { result ≡ push_no (lent state store) (offer parity timed time shape luma cb cr out_luma out_cb out_cr) }
    ensures state_after { state.new ≡ state_after result (lent state store) (offer parity timed time shape luma cb cr out_luma out_cb out_cr) }
    ensures store_after { store.new ≡ store_after result (lent state store) (offer parity timed time shape luma cb cr out_luma out_cb out_cr) }
    ensures out_luma_after { out_luma.new ≡ luma_after result (lent state store) (offer parity timed time shape luma cb cr out_luma out_cb out_cr) out_luma.old }
    ensures out_cb_after { out_cb.new ≡ cb_after result (lent state store) (offer parity timed time shape luma cb cr out_luma out_cb out_cr) out_cb.old }
    ensures out_cr_after { out_cr.new ≡ cr_after result (lent state store) (offer parity timed time shape luma cb cr out_luma out_cb out_cr) out_cr.old }
    ensures picture_after { picture.new ≡ picture_after result (lent state store) (offer parity timed time shape luma cb cr out_luma out_cb out_cr) picture.old }
    ensures earlier_timed_after { earlier_timed.new ≡ timed_after result (lent state store) (offer parity timed time shape luma cb cr out_luma out_cb out_cr) earlier_timed.old }
    ensures earlier_time_after { earlier_time.new ≡ time_after result (lent state store) (offer parity timed time shape luma cb cr out_luma out_cb out_cr) earlier_time.old }
{
    weavedesk::desk_weaver_push(
        state,
        parity,
        timed,
        time,
        shape,
        luma,
        cb,
        cr,
        store,
        out_luma,
        out_cb,
        out_cr,
        picture,
        earlier_timed,
        earlier_time,
    )
}
