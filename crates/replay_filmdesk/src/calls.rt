// Made by tools/calls from the exports; not to be changed by hand.
// The calls of crate `filmdesk`.
use answers::lent;
use std::fmt;

// In the order of their numbers in the list.
#[derive(Clone, Copy, Debug, PartialEq, Eq)]
pub enum Call {
    Busy,
    Cadences,
    DetectorNew,
    DetectorReset,
    DetectorLocked,
    DetectorPredict,
    DetectorPushMeasured,
    DetectorPush,
}

impl TryFrom<u64> for Call {
    // A number of no call.
    type Error = u64;

    fn try_from(number: u64) -> Result<Call, u64> {
        match number {
            0 => Ok(Call::Busy),
            1 => Ok(Call::Cadences),
            2 => Ok(Call::DetectorNew),
            3 => Ok(Call::DetectorReset),
            4 => Ok(Call::DetectorLocked),
            5 => Ok(Call::DetectorPredict),
            6 => Ok(Call::DetectorPushMeasured),
            7 => Ok(Call::DetectorPush),
            _ => Err(number),
        }
    }
}

// Its name at the desk without `desk_`.
impl fmt::Display for Call {
    fn fmt<W: fmt::Write>(&self, f: &mut fmt::Formatter<W>) -> fmt::Result {
        f.write_str(match self {
            Call::Busy => "busy",
            Call::Cadences => "cadences",
            Call::DetectorNew => "detector_new",
            Call::DetectorReset => "detector_reset",
            Call::DetectorLocked => "detector_locked",
            Call::DetectorPredict => "detector_predict",
            Call::DetectorPushMeasured => "detector_push_measured",
            Call::DetectorPush => "detector_push",
        })
    }
}

impl Call {
    // How many there are.
    pub const COUNT: u64 = 8;

    // Makes the call again, and says whether all of it came as expected. `state` and `store` are lent from record to record.
    pub fn replayed(self, answer: &[u8], state: &mut [u8], store: &mut [u8]) -> bool {
        match self {
            Call::Busy => busy(answer),
            Call::Cadences => cadences(answer),
            Call::DetectorNew => detector_new(answer, state),
            Call::DetectorReset => detector_reset(answer, state),
            Call::DetectorLocked => detector_locked(answer, state),
            Call::DetectorPredict => detector_predict(answer, state),
            Call::DetectorPushMeasured => detector_push_measured(answer, state),
            Call::DetectorPush => detector_push(answer, state, store),
        }
    }
}

fn grid_numbers(answer: &[u8], k: u8) -> numbers::GridNumbers {
    numbers::GridNumbers {
        width: answers::word(answer, k),
        height: answers::word(answer, k.wrapping_add(1)),
        depth: answers::word(answer, k.wrapping_add(2)),
        stride: answers::word(answer, k.wrapping_add(3)),
    }
}

fn busy(answer: &[u8]) -> bool {
    let mut busy = lent::NUMBER;
    let mut total = lent::NUMBER;
    let found = filmdesk::desk_busy(
        answers::bytes(answer, 8, 0),
        grid_numbers(answer, 0),
        answers::bytes(answer, 8, 1),
        answers::byte(answer, 4),
        &mut busy,
        &mut total,
    );
    answers::whole(answer, 8, 2)
        & answers::same_byte(answer, 5, found)
        & answers::same(answer, 6, busy)
        & answers::same(answer, 7, total)
}

fn cadences(answer: &[u8]) -> bool {
    let mut out = [lent::BYTE; 4096];
    let n = answers::room(answers::bytes(answer, 1, 1), 4096);
    let out = &mut out[..n];
    let found = filmdesk::desk_cadences(answers::bytes(answer, 1, 0), out);
    answers::whole(answer, 1, 2)
        & answers::same_byte(answer, 0, found)
        & check::same(out, answers::bytes(answer, 1, 1))
}

fn detector_new(answer: &[u8], state: &mut [u8]) -> bool {
    let asked = answers::number(answer, 0);
    let there = asked <= state.len() as u64;
    let n = lent::part(asked, state.len());
    let state = &mut state[..n];
    let found = filmdesk::desk_detector_new(state);
    answers::whole(answer, 2, 0) & there & answers::same_byte(answer, 1, found)
}

fn detector_reset(answer: &[u8], state: &mut [u8]) -> bool {
    let asked = answers::number(answer, 0);
    let there = asked <= state.len() as u64;
    let n = lent::part(asked, state.len());
    let state = &mut state[..n];
    let found = filmdesk::desk_detector_reset(state);
    answers::whole(answer, 2, 0) & there & answers::same_byte(answer, 1, found)
}

fn detector_locked(answer: &[u8], state: &[u8]) -> bool {
    let asked = answers::number(answer, 0);
    let there = asked <= state.len() as u64;
    let n = lent::part(asked, state.len());
    let state = &state[..n];
    let mut locked = lent::BYTE;
    let found = filmdesk::desk_detector_locked(state, &mut locked);
    answers::whole(answer, 3, 0)
        & there
        & answers::same_byte(answer, 1, found)
        & answers::same_byte(answer, 2, locked)
}

fn detector_predict(answer: &[u8], state: &[u8]) -> bool {
    let asked = answers::number(answer, 0);
    let there = asked <= state.len() as u64;
    let n = lent::part(asked, state.len());
    let state = &state[..n];
    let mut cadence = lent::BYTE;
    let found = filmdesk::desk_detector_predict(state, answers::number(answer, 1), &mut cadence);
    answers::whole(answer, 4, 0)
        & there
        & answers::same_byte(answer, 2, found)
        & answers::same_byte(answer, 3, cadence)
}

fn detector_push_measured(answer: &[u8], state: &mut [u8]) -> bool {
    let asked = answers::number(answer, 0);
    let there = asked <= state.len() as u64;
    let n = lent::part(asked, state.len());
    let state = &mut state[..n];
    let mut cadence = lent::BYTE;
    let found = filmdesk::desk_detector_push_measured(
        state,
        answers::byte(answer, 1),
        answers::byte(answer, 2),
        answers::number(answer, 3),
        answers::number(answer, 4),
        answers::number(answer, 5),
        answers::number(answer, 6),
        &mut cadence,
    );
    answers::whole(answer, 9, 0)
        & there
        & answers::same_byte(answer, 7, found)
        & answers::same_byte(answer, 8, cadence)
}

fn detector_push(answer: &[u8], state: &mut [u8], store: &mut [u8]) -> bool {
    let asked = answers::number(answer, 0);
    let there = asked <= state.len() as u64;
    let n = lent::part(asked, state.len());
    let state = &mut state[..n];
    let n = answers::room(answers::bytes(answer, 8, 1), store.len());
    let store = &mut store[..n];
    let mut cadence = lent::BYTE;
    let found = filmdesk::desk_detector_push(
        state,
        answers::byte(answer, 1),
        answers::bytes(answer, 8, 0),
        grid_numbers(answer, 2),
        store,
        &mut cadence,
    );
    answers::whole(answer, 8, 2)
        & there
        & answers::same_byte(answer, 6, found)
        & answers::same_byte(answer, 7, cadence)
        & check::same(store, answers::bytes(answer, 8, 1))
}
