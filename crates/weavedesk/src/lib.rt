// What the capture desk's Rust host calls of weaving and readback, beside crate `desk` and in its
// manner: numbers and byte slices, the answer a number of docs/RULES.md, "What the desk gets back", a
// value to a lent place, which a refusal leaves as it was. Numbers are wider than a shape's own, so
// that none can wrap into the bounds. Between calls the host keeps the weaver in 56 bytes that it
// lends.
#![tactic(auto)]

ghost use Rattle.std.specs.Prelude.{◌≡◌, [], ◌∷◌, ◌≤◌, length};
ghost use Rattle.laws.specs.Refusal.{lowest, written};
ghost use Rattle.numbers.specs.Numbers.{grid_named};
ghost use Rattle.weave.specs.Weave.{lent_field, weave_no_of, woven_after, line_no, woven_format};
ghost use Rattle.readback.specs.Readback.{luma_shape, cb_shape, cr_shape, cr_bytes_of, sizes_of, sizes_no_of, readback_no_of, copied_after};
ghost use Rattle.weaver.specs.Weaver.{times_of};
ghost use Rattle.refusal.specs.Refusal.{no_of};
ghost use Rattle.weavedesk.specs.Woven.{field_named, line_out_no, line_after, format_named, format_numbers, readback_named};
ghost use Rattle.weavedesk.specs.Waiting.{keeping, waiting_in, weaver_in, weaver_numbers, time_of, whole_kind, whole_size, time_kind, time_size};
ghost use Rattle.weavedesk.specs.Push.{lent, offer, new_no, clear_no, emptied, time_named, push_no, state_after, store_after, luma_after, cb_after, cr_after, picture_number, timed_number, time_number, picture_after, timed_after, time_after};
ghost use Rattle.weavedesk.specs.Inner.{field_cut, readback_cut, first_tests};

use field::Parity;
use numbers::GridNumbers;
use readback::Readback;
use refusal::Refusal;
use weave::{Field, Format};
use weaver::{Paired, Waiting, Weaver};

// The three planes of a field, which has at most 2,176 lines.
#[repr(C)]
#[derive(Clone, Copy, Debug, PartialEq, Eq)]
pub struct FieldNumbers {
    pub luma: GridNumbers,
    pub cb: GridNumbers,
    pub cr: GridNumbers,
}

// What is said of a stream's pictures. The last three are 0 or 1.
#[repr(C)]
#[derive(Clone, Copy, Debug, PartialEq, Eq)]
pub struct FormatNumbers {
    pub width: u32,
    pub height: u32,
    pub depth: u32,
    pub rate_numerator: u32,
    pub rate_denominator: u32,
    pub field_pictures: u32,
    pub progressive: u32,
    pub woven: u32,
}

// What was read back: how many planes, the frame's size and depth, and each plane's bytes from one row
// to the next.
#[repr(C)]
#[derive(Clone, Copy, Debug, PartialEq, Eq)]
pub struct ReadbackNumbers {
    // 2 where the chroma components share a plane, or 3.
    pub planes: u32,
    pub width: u32,
    pub height: u32,
    pub depth: u32,
    pub luma_pitch: u32,
    pub second_pitch: u32,
    pub third_pitch: u32,
}

// Numbers narrowed for the crates beneath. One that is too large for its place becomes the largest
// there, which is out of bounds too, so that it is refused all the same: no `From`, which loses nothing.
fn field_cut(n: FieldNumbers) -> Field
    ensures { result ≡ field_cut n }
{
    Field {
        luma: numbers::grid_named(n.luma),
        cb: numbers::grid_named(n.cb),
        cr: numbers::grid_named(n.cr),
    }
}

// Each flag other than 0 counts as 1.
fn format_named(n: FormatNumbers) -> Format
    ensures { result ≡ format_named n }
{
    Format {
        width: n.width,
        height: n.height,
        depth: n.depth,
        rate_numerator: n.rate_numerator,
        rate_denominator: n.rate_denominator,
        field_pictures: n.field_pictures != 0,
        progressive: n.progressive != 0,
        woven: n.woven != 0,
    }
}

impl From<Format> for FormatNumbers {
    ghost from_gives = { λ format n. n ≡ format_numbers format };

    fn from(format: Format) -> FormatNumbers {
        FormatNumbers {
            width: format.width,
            height: format.height,
            depth: format.depth,
            rate_numerator: format.rate_numerator,
            rate_denominator: format.rate_denominator,
            field_pictures: u32::from(format.field_pictures),
            progressive: u32::from(format.progressive),
            woven: u32::from(format.woven),
        }
    }
}

fn readback_cut(n: ReadbackNumbers) -> Readback
    ensures { result ≡ readback_cut n }
{
    Readback {
        planes: numbers::at_most_255(n.planes),
        width: numbers::at_most_65535(n.width),
        height: numbers::at_most_65535(n.height),
        depth: numbers::at_most_255(n.depth),
        luma_pitch: n.luma_pitch,
        second_pitch: n.second_pitch,
        third_pitch: n.third_pitch,
    }
}

// ---- a weaver in the state's bytes

const STATE_BYTES: usize = 56;

// A time is two numbers here and no option: the state's bytes hold what they held (`FoundAgain`).
fn time_in(kind: u64, size: u64) -> Option<i64>
    ensures { result ≡ time_of kind size }
{
    let n = (size % 9223372036854775808) as i64;
    match kind {
        0 => None,
        1 => Some(n),
        _ => Some(-n - 1),
    }
}

// Of a parity 0 is top, and every other number bottom, so that all bytes are some weaver.
#[tactic(auto, unfolding(crate::specs::Waiting::waiting_in))]
fn waiting_in(state: &[u8]) -> Waiting
    ensures { result ≡ waiting_in state.now }
{
    Waiting {
        width: packed::size_in(packed::number_at(state, 1)),
        height: packed::size_in(packed::number_at(state, 2)),
        depth: packed::byte_in(packed::number_at(state, 3)),
        parity: Parity::named(packed::number_at(state, 4)),
        time: time_in(packed::number_at(state, 5), packed::number_at(state, 6)),
    }
}

// A field waits where the first number is not 0.
#[tactic(auto, unfolding(crate::specs::Waiting::weaver_in))]
fn weaver_in(state: &[u8]) -> Weaver
    ensures { result ≡ weaver_in state.now }
{
    let held = packed::number_at(state, 0) != 0;
    Weaver {
        waiting: held.then_some(waiting_in(state)),
    }
}

fn whole_kind(at: i64) -> u64
    ensures { result ≡ whole_kind at }
{
    if at < 0 { 2 } else { 1 }
}

fn whole_size(at: i64) -> u64
    ensures { result ≡ whole_size at }
{
    if at < 0 {
        (-(at + 1)) as u64
    } else {
        at as u64
    }
}

fn time_kind(time: Option<i64>) -> u64
    ensures { result ≡ time_kind time }
{
    match time {
        None => 0,
        Some(at) => whole_kind(at),
    }
}

fn time_size(time: Option<i64>) -> u64
    ensures { result ≡ time_size time }
{
    match time {
        None => 0,
        Some(at) => whole_size(at),
    }
}

fn numbers_of(weaver: Weaver) -> [u64; 7]
    ensures { result ≡ weaver_numbers weaver }
{
    match weaver.waiting {
        None => [0; 7],
        Some(kept) => [
            1,
            u64::from(kept.width),
            u64::from(kept.height),
            u64::from(kept.depth),
            u64::from(kept.parity.first_row()),
            time_kind(kept.time),
            time_size(kept.time),
        ],
    }
}

// Writes a weaver to a state that is long enough, which is therefore not refused.
fn keep(state: &mut [u8], weaver: Weaver)
    requires { 56 ≤ length state.old }
    ensures { state.new ≡ keeping weaver state.old }
{
    let _ = packed::write_numbers(state, &numbers_of(weaver));
}

// ---- what a push gives

fn time_named(timed: u8, at: i64) -> Option<i64>
    ensures { result ≡ time_named timed at }
{
    if timed == 0 { None } else { Some(at) }
}

// What is judged before the weaver takes a field. Numbers 3 to 6.
#[tactic(auto, unfolding(laws::specs::Refusal::lowest))]
fn readable(named: bool, field: Field, state: usize) -> Result<(), Refusal>
    ensures { no_of result ≡ lowest (first_tests named field state) }
{
    Refusal::Outside.unless(named)?;
    Refusal::Shape.unless(field.is_good())?;
    Refusal::Differ.unless(field.chroma_fits())?;
    Refusal::ShortInput.unless(STATE_BYTES <= state)
}

// 0 or 1, and below a time beside such a number: C's interface.
fn picture_in(pair: Paired) -> u8
    ensures { result ≡ picture_number (times_of pair) }
{
    match pair {
        Paired::Waits => 0,
        Paired::Picture(_) => 1,
    }
}

fn earlier_in(pair: Paired) -> Option<i64>
    ensures { (timed_number (result ∷ []) ≡ timed_number (times_of pair)) × (time_number (result ∷ []) ≡ time_number (times_of pair)) }
{
    match pair {
        Paired::Waits => None,
        Paired::Picture(at) => at,
    }
}

fn timed_number(earlier: Option<i64>) -> u8
    ensures { result ≡ timed_number (earlier ∷ []) }
{
    u8::from(earlier.is_some())
}

fn time_number(earlier: Option<i64>) -> i64
    ensures { result ≡ time_number (earlier ∷ []) }
{
    earlier.unwrap_or(0)
}

// ---- the calls

// Two fields' lines in turn, the top field's first; each woven plane is tightly packed. Numbers 4 to 7.
#[unsafe(no_mangle)]
pub extern "C" fn desk_weave(
    top: FieldNumbers,
    top_luma: &[u8],
    top_cb: &[u8],
    top_cr: &[u8],
    bottom: FieldNumbers,
    bottom_luma: &[u8],
    bottom_cb: &[u8],
    bottom_cr: &[u8],
    out_luma: &mut [u8],
    out_cb: &mut [u8],
    out_cr: &mut [u8],
) -> u8
    ensures value { result ≡ weave_no_of (lent_field (field_named top) top_luma top_cb top_cr) (lent_field (field_named bottom) bottom_luma bottom_cb bottom_cr) out_luma out_cb out_cr }
    ensures out_luma_after { out_luma.new ≡ woven_after result top_luma.now (grid_named top.luma) bottom_luma.now (grid_named bottom.luma) out_luma.old }
    ensures out_cb_after { out_cb.new ≡ woven_after result top_cb.now (grid_named top.cb) bottom_cb.now (grid_named bottom.cb) out_cb.old }
    ensures out_cr_after { out_cr.new ≡ woven_after result top_cr.now (grid_named top.cr) bottom_cr.now (grid_named bottom.cr) out_cr.old }
{
    refusal::told(weave::weave(
        out_luma,
        out_cb,
        out_cr,
        field_cut(top),
        top_luma,
        top_cb,
        top_cr,
        field_cut(bottom),
        bottom_luma,
        bottom_cb,
        bottom_cr,
    ))
}

// A line is outside by the height as given, which may be too large for its place. Where it is inside,
// line 0 is too, and the numbers behind 3 are the same of every line.
fn line_fits(
    top: GridNumbers,
    top_bytes: usize,
    bottom: GridNumbers,
    bottom_bytes: usize,
    y: u32,
) -> Result<(), Refusal>
    ensures { no_of result ≡ line_no (grid_named top) top_bytes (grid_named bottom) bottom_bytes y }
{
    if u64::from(top.height) * 2 <= u64::from(y) {
        return Err(Refusal::Outside);
    }
    weave::line_fits(
        numbers::grid_named(top),
        top_bytes,
        numbers::grid_named(bottom),
        bottom_bytes,
        0,
    )
}

// The number of a single woven line, from the lengths of the two planes, of fields with at most 2,176
// lines. Numbers 3 to 6.
#[unsafe(no_mangle)]
pub extern "C" fn desk_line_number(
    top: GridNumbers,
    top_bytes: u64,
    bottom: GridNumbers,
    bottom_bytes: u64,
    y: u32,
) -> u8
    ensures { result ≡ line_no (grid_named top) top_bytes (grid_named bottom) bottom_bytes y }
{
    let answer = line_fits(top, top_bytes as usize, bottom, bottom_bytes as usize, y);
    refusal::told(answer)
}

// The bytes of a single woven line, copied out, of fields with at most 2,176 lines. Numbers 3 to 7.
#[unsafe(no_mangle)]
pub extern "C" fn desk_woven_line<'a>(
    top: &'a [u8],
    top_lines: GridNumbers,
    bottom: &'a [u8],
    bottom_lines: GridNumbers,
    y: u32,
    out: &mut [u8],
) -> u8
    ensures value { result ≡ line_out_no top_lines (length top.now) bottom_lines (length bottom.now) y (length out.old) }
    ensures out_after { out.new ≡ line_after result top.now top_lines bottom.now bottom_lines y out.old }
{
    if let Err(refusal) = line_fits(top_lines, top.len(), bottom_lines, bottom.len(), y) {
        return refusal.number();
    }
    let line = weave::woven_line(
        top,
        numbers::grid_named(top_lines),
        bottom,
        numbers::grid_named(bottom_lines),
        y,
    );
    if out.len() < line.len() {
        return Refusal::ShortOutput.number();
    }
    copy::copy_front(out, line);
    0
}

// The format of the frames woven from fields of a format. A flag other than 0 counts as 1. Refuses
// nothing.
#[unsafe(no_mangle)]
pub extern "C" fn desk_woven(field: FormatNumbers) -> FormatNumbers
    ensures { result ≡ format_numbers (woven_format (format_named field)) }
{
    let named = format_named(field);
    let woven = weave::woven(named);
    FormatNumbers::from(woven)
}

// How many bytes each output of `desk_readback_copy` needs for these planes. Of two planes the second
// has both chroma components, and the third is not looked at. Numbers 1, 2, 4 and 6.
#[unsafe(no_mangle)]
pub extern "C" fn desk_readback_sizes(
    about: ReadbackNumbers,
    luma: &[u8],
    second: &[u8],
    third: &[u8],
    luma_bytes: &mut u64,
    cb_bytes: &mut u64,
    cr_bytes: &mut u64,
) -> u8
    ensures value { result ≡ sizes_no_of (readback_named about) luma second third }
    ensures luma_bytes_after { luma_bytes.new ≡ written result (sizes_of (readback_named about)).luma luma_bytes.old }
    ensures cb_bytes_after { cb_bytes.new ≡ written result (sizes_of (readback_named about)).cb cb_bytes.old }
    ensures cr_bytes_after { cr_bytes.new ≡ written result (sizes_of (readback_named about)).cr cr_bytes.old }
{
    match readback::readback_sizes(readback_cut(about), luma, second, third) {
        Ok(sizes) => {
            *luma_bytes = sizes.luma as u64;
            *cb_bytes = sizes.cb as u64;
            *cr_bytes = sizes.cr as u64;
            0
        }
        Err(refusal) => refusal.number(),
    }
}

// A frame read back, without padding, in three planes, each at the start of its output. Of two planes
// cb and cr are both read from the second. The planes are judged as for `desk_readback_sizes`, whether
// it was called or not. Numbers 1, 2, 4, 6 and 7.
#[unsafe(no_mangle)]
pub extern "C" fn desk_readback_copy(
    about: ReadbackNumbers,
    luma: &[u8],
    second: &[u8],
    third: &[u8],
    out_luma: &mut [u8],
    out_cb: &mut [u8],
    out_cr: &mut [u8],
) -> u8
    ensures value { result ≡ readback_no_of (readback_named about) luma second third out_luma out_cb out_cr }
    ensures out_luma_after { out_luma.new ≡ copied_after result luma.now (luma_shape (readback_named about)) out_luma.old }
    ensures out_cb_after { out_cb.new ≡ copied_after result second.now (cb_shape (readback_named about)) out_cb.old }
    ensures out_cr_after { out_cr.new ≡ copied_after result (cr_bytes_of (readback_named about) second.now third.now) (cr_shape (readback_named about)) out_cr.old }
{
    refusal::told(readback::readback_copy(
        out_luma,
        out_cb,
        out_cr,
        readback_cut(about),
        luma,
        second,
        third,
    ))
}

// A weaver with no field, at the start of `state`. Number 7.
#[unsafe(no_mangle)]
pub extern "C" fn desk_weaver_new(state: &mut [u8]) -> u8
    ensures value { result ≡ new_no (length state.old) }
    ensures state_after { state.new ≡ emptied result state.old }
{
    if state.len() < STATE_BYTES {
        return Refusal::ShortOutput.number();
    }
    keep(state, Weaver::new());
    0
}

// Throws away the field that waits. Number 6.
#[unsafe(no_mangle)]
pub extern "C" fn desk_weaver_clear(state: &mut [u8]) -> u8
    ensures value { result ≡ clear_no (length state.old) }
    ensures state_after { state.new ≡ emptied result state.old }
{
    if state.len() < STATE_BYTES {
        return Refusal::ShortInput.number();
    }
    let weaver = weaver_in(state);
    let cleared = weaver.clear();
    keep(state, cleared);
    0
}

// Takes a field of parity 0 top or 1 bottom; where `timed` is 1 it has the time `time`. `picture` gets 1
// where the outputs have a picture, else 0; `earlier_timed` and `earlier_time` get the earlier field's
// time where there is a picture and it has one, else 0. `store` keeps the field that waits, and comes
// back as it was left. Numbers 3 to 7.
#[unsafe(no_mangle)]
pub extern "C" fn desk_weaver_push(
    state: &mut [u8],
    parity: u8,
    timed: u8,
    time: i64,
    shape: FieldNumbers,
    luma: &[u8],
    cb: &[u8],
    cr: &[u8],
    store: &mut [u8],
    out_luma: &mut [u8],
    out_cb: &mut [u8],
    out_cr: &mut [u8],
    picture: &mut u8,
    earlier_timed: &mut u8,
    earlier_time: &mut i64,
) -> u8
    ensures value { result ≡ push_no (lent state store) (offer parity timed time shape luma cb cr out_luma out_cb out_cr) }
    ensures state_after { state.new ≡ state_after result (lent state store) (offer parity timed time shape luma cb cr out_luma out_cb out_cr) }
    ensures store_after { store.new ≡ store_after result (lent state store) (offer parity timed time shape luma cb cr out_luma out_cb out_cr) }
    ensures out_luma_after { out_luma.new ≡ luma_after result (lent state store) (offer parity timed time shape luma cb cr out_luma out_cb out_cr) out_luma.old }
    ensures out_cb_after { out_cb.new ≡ cb_after result (lent state store) (offer parity timed time shape luma cb cr out_luma out_cb out_cr) out_cb.old }
    ensures out_cr_after { out_cr.new ≡ cr_after result (lent state store) (offer parity timed time shape luma cb cr out_luma out_cb out_cr) out_cr.old }
    ensures picture_after { picture.new ≡ picture_after result (lent state store) (offer parity timed time shape luma cb cr out_luma out_cb out_cr) picture.old }
    ensures earlier_timed_after { earlier_timed.new ≡ timed_after result (lent state store) (offer parity timed time shape luma cb cr out_luma out_cb out_cr) earlier_timed.old }
    ensures earlier_time_after { earlier_time.new ≡ time_after result (lent state store) (offer parity timed time shape luma cb cr out_luma out_cb out_cr) earlier_time.old }
{
    let named = (parity <= 1) & (timed <= 1);
    let given = field_cut(shape);
    if let Err(refusal) = readable(named, given, state.len()) {
        return refusal.number();
    }
    let weaver = weaver_in(state);
    let pushed = weaver.push(
        given,
        luma,
        cb,
        cr,
        Parity::named(u64::from(parity)),
        time_named(timed, time),
        store,
        out_luma,
        out_cb,
        out_cr,
    );
    let pair = match pushed.answer {
        Ok(pair) => pair,
        Err(refusal) => return refusal.number(),
    };
    keep(state, pushed.weaver);
    let earlier = earlier_in(pair);
    *picture = picture_in(pair);
    *earlier_timed = timed_number(earlier);
    *earlier_time = time_number(earlier);
    0
}
