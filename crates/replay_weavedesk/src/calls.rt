// Made by tools/calls from the exports; not to be changed by hand.
// The calls of crate `weavedesk`.
use answers::lent;
use std::fmt;

// In the order of their numbers in the list.
#[derive(Clone, Copy, Debug, PartialEq, Eq)]
pub enum Call {
    Weave,
    LineNumber,
    WovenLine,
    Woven,
    ReadbackSizes,
    ReadbackCopy,
    WeaverNew,
    WeaverClear,
    WeaverPush,
}

impl TryFrom<u64> for Call {
    // A number of no call.
    type Error = u64;

    fn try_from(number: u64) -> Result<Call, u64> {
        match number {
            0 => Ok(Call::Weave),
            1 => Ok(Call::LineNumber),
            2 => Ok(Call::WovenLine),
            3 => Ok(Call::Woven),
            4 => Ok(Call::ReadbackSizes),
            5 => Ok(Call::ReadbackCopy),
            6 => Ok(Call::WeaverNew),
            7 => Ok(Call::WeaverClear),
            8 => Ok(Call::WeaverPush),
            _ => Err(number),
        }
    }
}

// Its name at the desk without `desk_`.
impl fmt::Display for Call {
    fn fmt<W: fmt::Write>(&self, f: &mut fmt::Formatter<W>) -> fmt::Result {
        f.write_str(match self {
            Call::Weave => "weave",
            Call::LineNumber => "line_number",
            Call::WovenLine => "woven_line",
            Call::Woven => "woven",
            Call::ReadbackSizes => "readback_sizes",
            Call::ReadbackCopy => "readback_copy",
            Call::WeaverNew => "weaver_new",
            Call::WeaverClear => "weaver_clear",
            Call::WeaverPush => "weaver_push",
        })
    }
}

impl Call {
    // How many there are.
    pub const COUNT: u64 = 9;

    // Makes the call again, and says whether all of it came as expected. `state` and `store` are lent from record to record.
    pub fn replayed(self, answer: &[u8], state: &mut [u8], store: &mut [u8]) -> bool {
        match self {
            Call::Weave => weave(answer),
            Call::LineNumber => line_number(answer),
            Call::WovenLine => woven_line(answer),
            Call::Woven => woven(answer),
            Call::ReadbackSizes => readback_sizes(answer),
            Call::ReadbackCopy => readback_copy(answer),
            Call::WeaverNew => weaver_new(answer, state),
            Call::WeaverClear => weaver_clear(answer, state),
            Call::WeaverPush => weaver_push(answer, state, store),
        }
    }
}

fn grid_numbers(answer: &[u8], k: u8) -> numbers::GridNumbers {
    numbers::GridNumbers {
        width: answers::word(answer, k),
        height: answers::word(answer, k.wrapping_add(1)),
        depth: answers::word(answer, k.wrapping_add(2)),
        stride: answers::word(answer, k.wrapping_add(3)),
    }
}

fn field_numbers(answer: &[u8], k: u8) -> weavedesk::FieldNumbers {
    weavedesk::FieldNumbers {
        luma: grid_numbers(answer, k),
        cb: grid_numbers(answer, k.wrapping_add(4)),
        cr: grid_numbers(answer, k.wrapping_add(8)),
    }
}

fn format_numbers(answer: &[u8], k: u8) -> weavedesk::FormatNumbers {
    weavedesk::FormatNumbers {
        width: answers::word(answer, k),
        height: answers::word(answer, k.wrapping_add(1)),
        depth: answers::word(answer, k.wrapping_add(2)),
        rate_numerator: answers::word(answer, k.wrapping_add(3)),
        rate_denominator: answers::word(answer, k.wrapping_add(4)),
        field_pictures: answers::word(answer, k.wrapping_add(5)),
        progressive: answers::word(answer, k.wrapping_add(6)),
        woven: answers::word(answer, k.wrapping_add(7)),
    }
}

fn readback_numbers(answer: &[u8], k: u8) -> weavedesk::ReadbackNumbers {
    weavedesk::ReadbackNumbers {
        planes: answers::word(answer, k),
        width: answers::word(answer, k.wrapping_add(1)),
        height: answers::word(answer, k.wrapping_add(2)),
        depth: answers::word(answer, k.wrapping_add(3)),
        luma_pitch: answers::word(answer, k.wrapping_add(4)),
        second_pitch: answers::word(answer, k.wrapping_add(5)),
        third_pitch: answers::word(answer, k.wrapping_add(6)),
    }
}

fn weave(answer: &[u8]) -> bool {
    let mut out_luma = [lent::BYTE; 4096];
    let n = answers::room(answers::bytes(answer, 25, 6), 4096);
    let out_luma = &mut out_luma[..n];
    let mut out_cb = [lent::BYTE; 4096];
    let n = answers::room(answers::bytes(answer, 25, 7), 4096);
    let out_cb = &mut out_cb[..n];
    let mut out_cr = [lent::BYTE; 4096];
    let n = answers::room(answers::bytes(answer, 25, 8), 4096);
    let out_cr = &mut out_cr[..n];
    let found = weavedesk::desk_weave(
        field_numbers(answer, 0),
        answers::bytes(answer, 25, 0),
        answers::bytes(answer, 25, 1),
        answers::bytes(answer, 25, 2),
        field_numbers(answer, 12),
        answers::bytes(answer, 25, 3),
        answers::bytes(answer, 25, 4),
        answers::bytes(answer, 25, 5),
        out_luma,
        out_cb,
        out_cr,
    );
    answers::whole(answer, 25, 9)
        & answers::same_byte(answer, 24, found)
        & check::same(out_luma, answers::bytes(answer, 25, 6))
        & check::same(out_cb, answers::bytes(answer, 25, 7))
        & check::same(out_cr, answers::bytes(answer, 25, 8))
}

fn line_number(answer: &[u8]) -> bool {
    let found = weavedesk::desk_line_number(
        grid_numbers(answer, 0),
        answers::number(answer, 4),
        grid_numbers(answer, 5),
        answers::number(answer, 9),
        answers::word(answer, 10),
    );
    answers::whole(answer, 12, 0) & answers::same_byte(answer, 11, found)
}

fn woven_line(answer: &[u8]) -> bool {
    let mut out = [lent::BYTE; 4096];
    let n = answers::room(answers::bytes(answer, 10, 2), 4096);
    let out = &mut out[..n];
    let found = weavedesk::desk_woven_line(
        answers::bytes(answer, 10, 0),
        grid_numbers(answer, 0),
        answers::bytes(answer, 10, 1),
        grid_numbers(answer, 4),
        answers::word(answer, 8),
        out,
    );
    answers::whole(answer, 10, 3)
        & answers::same_byte(answer, 9, found)
        & check::same(out, answers::bytes(answer, 10, 2))
}

fn woven(answer: &[u8]) -> bool {
    let found = weavedesk::desk_woven(format_numbers(answer, 0));
    answers::whole(answer, 16, 0)
        & answers::same_word(answer, 8, found.width)
        & answers::same_word(answer, 9, found.height)
        & answers::same_word(answer, 10, found.depth)
        & answers::same_word(answer, 11, found.rate_numerator)
        & answers::same_word(answer, 12, found.rate_denominator)
        & answers::same_word(answer, 13, found.field_pictures)
        & answers::same_word(answer, 14, found.progressive)
        & answers::same_word(answer, 15, found.woven)
}

fn readback_sizes(answer: &[u8]) -> bool {
    let mut luma_bytes = lent::NUMBER;
    let mut cb_bytes = lent::NUMBER;
    let mut cr_bytes = lent::NUMBER;
    let found = weavedesk::desk_readback_sizes(
        readback_numbers(answer, 0),
        answers::bytes(answer, 11, 0),
        answers::bytes(answer, 11, 1),
        answers::bytes(answer, 11, 2),
        &mut luma_bytes,
        &mut cb_bytes,
        &mut cr_bytes,
    );
    answers::whole(answer, 11, 3)
        & answers::same_byte(answer, 7, found)
        & answers::same(answer, 8, luma_bytes)
        & answers::same(answer, 9, cb_bytes)
        & answers::same(answer, 10, cr_bytes)
}

fn readback_copy(answer: &[u8]) -> bool {
    let mut out_luma = [lent::BYTE; 4096];
    let n = answers::room(answers::bytes(answer, 8, 3), 4096);
    let out_luma = &mut out_luma[..n];
    let mut out_cb = [lent::BYTE; 4096];
    let n = answers::room(answers::bytes(answer, 8, 4), 4096);
    let out_cb = &mut out_cb[..n];
    let mut out_cr = [lent::BYTE; 4096];
    let n = answers::room(answers::bytes(answer, 8, 5), 4096);
    let out_cr = &mut out_cr[..n];
    let found = weavedesk::desk_readback_copy(
        readback_numbers(answer, 0),
        answers::bytes(answer, 8, 0),
        answers::bytes(answer, 8, 1),
        answers::bytes(answer, 8, 2),
        out_luma,
        out_cb,
        out_cr,
    );
    answers::whole(answer, 8, 6)
        & answers::same_byte(answer, 7, found)
        & check::same(out_luma, answers::bytes(answer, 8, 3))
        & check::same(out_cb, answers::bytes(answer, 8, 4))
        & check::same(out_cr, answers::bytes(answer, 8, 5))
}

fn weaver_new(answer: &[u8], state: &mut [u8]) -> bool {
    let asked = answers::number(answer, 0);
    let there = asked <= state.len() as u64;
    let n = lent::part(asked, state.len());
    let state = &mut state[..n];
    let found = weavedesk::desk_weaver_new(state);
    answers::whole(answer, 2, 0) & there & answers::same_byte(answer, 1, found)
}

fn weaver_clear(answer: &[u8], state: &mut [u8]) -> bool {
    let asked = answers::number(answer, 0);
    let there = asked <= state.len() as u64;
    let n = lent::part(asked, state.len());
    let state = &mut state[..n];
    let found = weavedesk::desk_weaver_clear(state);
    answers::whole(answer, 2, 0) & there & answers::same_byte(answer, 1, found)
}

fn weaver_push(answer: &[u8], state: &mut [u8], store: &mut [u8]) -> bool {
    let asked = answers::number(answer, 0);
    let there = asked <= state.len() as u64;
    let n = lent::part(asked, state.len());
    let state = &mut state[..n];
    let n = answers::room(answers::bytes(answer, 20, 3), store.len());
    let store = &mut store[..n];
    let mut out_luma = [lent::BYTE; 4096];
    let n = answers::room(answers::bytes(answer, 20, 4), 4096);
    let out_luma = &mut out_luma[..n];
    let mut out_cb = [lent::BYTE; 4096];
    let n = answers::room(answers::bytes(answer, 20, 5), 4096);
    let out_cb = &mut out_cb[..n];
    let mut out_cr = [lent::BYTE; 4096];
    let n = answers::room(answers::bytes(answer, 20, 6), 4096);
    let out_cr = &mut out_cr[..n];
    let mut picture = lent::BYTE;
    let mut earlier_timed = lent::BYTE;
    let mut earlier_time = lent::LONG;
    let found = weavedesk::desk_weaver_push(
        state,
        answers::byte(answer, 1),
        answers::byte(answer, 2),
        answers::long(answer, 3),
        field_numbers(answer, 4),
        answers::bytes(answer, 20, 0),
        answers::bytes(answer, 20, 1),
        answers::bytes(answer, 20, 2),
        store,
        out_luma,
        out_cb,
        out_cr,
        &mut picture,
        &mut earlier_timed,
        &mut earlier_time,
    );
    answers::whole(answer, 20, 7)
        & there
        & answers::same_byte(answer, 16, found)
        & answers::same_byte(answer, 17, picture)
        & answers::same_byte(answer, 18, earlier_timed)
        & (earlier_time == answers::long(answer, 19))
        & check::same(store, answers::bytes(answer, 20, 3))
        & check::same(out_luma, answers::bytes(answer, 20, 4))
        & check::same(out_cb, answers::bytes(answer, 20, 5))
        & check::same(out_cr, answers::bytes(answer, 20, 6))
}
