// Made by tools/calls from the exports; not to be changed by hand.
// The calls of crate `picturedesk`.
use answers::lent;
use std::fmt;

// In the order of their numbers in the list.
#[derive(Clone, Copy, Debug, PartialEq, Eq)]
pub enum Call {
    Picture,
}

impl TryFrom<u64> for Call {
    // A number of no call.
    type Error = u64;

    fn try_from(number: u64) -> Result<Call, u64> {
        match number {
            0 => Ok(Call::Picture),
            _ => Err(number),
        }
    }
}

// Its name at the desk without `desk_`.
impl fmt::Display for Call {
    fn fmt<W: fmt::Write>(&self, f: &mut fmt::Formatter<W>) -> fmt::Result {
        f.write_str(match self {
            Call::Picture => "picture",
        })
    }
}

impl Call {
    // How many there are.
    pub const COUNT: u64 = 1;

    // Makes the call again, and says whether all of it came as expected. `state` and `store` are lent from record to record.
    pub fn replayed(self, answer: &[u8], state: &mut [u8], store: &mut [u8]) -> bool {
        match self {
            Call::Picture => picture(answer),
        }
    }
}

fn conversion(answer: &[u8], k: u8) -> colour::Conversion {
    colour::Conversion {
        luma_offset: answers::float(answer, k),
        luma_gain: answers::float(answer, k.wrapping_add(1)),
        chroma_offset: answers::float(answer, k.wrapping_add(2)),
        chroma_gain: answers::float(answer, k.wrapping_add(3)),
        kr: answers::float(answer, k.wrapping_add(4)),
        kb: answers::float(answer, k.wrapping_add(5)),
        luma_lift: answers::float(answer, k.wrapping_add(6)),
        chroma_cos: answers::float(answer, k.wrapping_add(7)),
        chroma_sin: answers::float(answer, k.wrapping_add(8)),
    }
}

fn plane_numbers(answer: &[u8], k: u8) -> numbers::PlaneNumbers {
    numbers::PlaneNumbers {
        width: answers::word(answer, k),
        height: answers::word(answer, k.wrapping_add(1)),
        depth: answers::word(answer, k.wrapping_add(2)),
        stride: answers::word(answer, k.wrapping_add(3)),
        layout: answers::word(answer, k.wrapping_add(4)),
    }
}

fn output_numbers(answer: &[u8], k: u8) -> picturedesk::OutputNumbers {
    picturedesk::OutputNumbers {
        field: answers::word(answer, k),
        weave: answers::word(answer, k.wrapping_add(1)),
        earlier: answers::word(answer, k.wrapping_add(2)),
        later: answers::word(answer, k.wrapping_add(3)),
    }
}

fn frame_numbers(answer: &[u8], k: u8) -> picturedesk::FrameNumbers {
    picturedesk::FrameNumbers {
        luma: plane_numbers(answer, k),
        cb: plane_numbers(answer, k.wrapping_add(5)),
        cr: plane_numbers(answer, k.wrapping_add(10)),
    }
}

fn picture(answer: &[u8]) -> bool {
    let mut out = [lent::BYTE; 4096];
    let n = answers::room(answers::bytes(answer, 60, 9), 4096);
    let out = &mut out[..n];
    let found = picturedesk::desk_picture(
        answers::byte(answer, 0),
        output_numbers(answer, 1),
        conversion(answer, 5),
        frame_numbers(answer, 14),
        answers::bytes(answer, 60, 0),
        answers::bytes(answer, 60, 1),
        answers::bytes(answer, 60, 2),
        frame_numbers(answer, 29),
        answers::bytes(answer, 60, 3),
        answers::bytes(answer, 60, 4),
        answers::bytes(answer, 60, 5),
        frame_numbers(answer, 44),
        answers::bytes(answer, 60, 6),
        answers::bytes(answer, 60, 7),
        answers::bytes(answer, 60, 8),
        out,
    );
    answers::whole(answer, 60, 10)
        & answers::same_byte(answer, 59, found)
        & check::same(out, answers::bytes(answer, 60, 9))
}
