// Made by tools/calls from the exports; not to be changed by hand.
// The calls of crate `desk`.
use answers::lent;
use std::fmt;

// In the order of their numbers in the list.
#[derive(Clone, Copy, Debug, PartialEq, Eq)]
pub enum Call {
    ToRgb,
    Quantise,
    Luma,
    Comb,
    CombRgba,
    FirstField,
    Edge,
    Sample,
    Plane,
    Code,
    At,
}

impl TryFrom<u64> for Call {
    // A number of no call.
    type Error = u64;

    fn try_from(number: u64) -> Result<Call, u64> {
        match number {
            0 => Ok(Call::ToRgb),
            1 => Ok(Call::Quantise),
            2 => Ok(Call::Luma),
            3 => Ok(Call::Comb),
            4 => Ok(Call::CombRgba),
            5 => Ok(Call::FirstField),
            6 => Ok(Call::Edge),
            7 => Ok(Call::Sample),
            8 => Ok(Call::Plane),
            9 => Ok(Call::Code),
            10 => Ok(Call::At),
            _ => Err(number),
        }
    }
}

// Its name at the desk without `desk_`.
impl fmt::Display for Call {
    fn fmt<W: fmt::Write>(&self, f: &mut fmt::Formatter<W>) -> fmt::Result {
        f.write_str(match self {
            Call::ToRgb => "to_rgb",
            Call::Quantise => "quantise",
            Call::Luma => "luma",
            Call::Comb => "comb",
            Call::CombRgba => "comb_rgba",
            Call::FirstField => "first_field",
            Call::Edge => "edge",
            Call::Sample => "sample",
            Call::Plane => "plane",
            Call::Code => "code",
            Call::At => "at",
        })
    }
}

impl Call {
    // How many there are.
    pub const COUNT: u64 = 11;

    // Makes the call again, and says whether all of it came as expected. `state` and `store` are lent from record to record.
    pub fn replayed(self, answer: &[u8], state: &mut [u8], store: &mut [u8]) -> bool {
        match self {
            Call::ToRgb => to_rgb(answer),
            Call::Quantise => quantise(answer),
            Call::Luma => luma(answer),
            Call::Comb => comb(answer),
            Call::CombRgba => comb_rgba(answer),
            Call::FirstField => first_field(answer),
            Call::Edge => edge(answer),
            Call::Sample => sample(answer),
            Call::Plane => plane(answer),
            Call::Code => code(answer),
            Call::At => at(answer),
        }
    }
}

fn conversion(answer: &[u8], k: u8) -> colour::Conversion {
    colour::Conversion {
        luma_offset: answers::float(answer, k),
        luma_gain: answers::float(answer, k.wrapping_add(1)),
        chroma_offset: answers::float(answer, k.wrapping_add(2)),
        chroma_gain: answers::float(answer, k.wrapping_add(3)),
        kr: answers::float(answer, k.wrapping_add(4)),
        kb: answers::float(answer, k.wrapping_add(5)),
        luma_lift: answers::float(answer, k.wrapping_add(6)),
        chroma_cos: answers::float(answer, k.wrapping_add(7)),
        chroma_sin: answers::float(answer, k.wrapping_add(8)),
    }
}

fn plane_numbers(answer: &[u8], k: u8) -> numbers::PlaneNumbers {
    numbers::PlaneNumbers {
        width: answers::word(answer, k),
        height: answers::word(answer, k.wrapping_add(1)),
        depth: answers::word(answer, k.wrapping_add(2)),
        stride: answers::word(answer, k.wrapping_add(3)),
        layout: answers::word(answer, k.wrapping_add(4)),
    }
}

fn to_rgb(answer: &[u8]) -> bool {
    let mut red = lent::value();
    let mut green = lent::value();
    let mut blue = lent::value();
    let found = desk::colours::desk_to_rgb(
        conversion(answer, 0),
        answers::float(answer, 9),
        answers::float(answer, 10),
        answers::float(answer, 11),
        &mut red,
        &mut green,
        &mut blue,
    );
    answers::whole(answer, 16, 0)
        & answers::same_byte(answer, 12, found)
        & answers::same_float(red, answers::number(answer, 13))
        & answers::same_float(green, answers::number(answer, 14))
        & answers::same_float(blue, answers::number(answer, 15))
}

fn quantise(answer: &[u8]) -> bool {
    let found = desk::colours::desk_quantise(answers::float(answer, 0));
    answers::whole(answer, 2, 0) & answers::same_byte(answer, 1, found)
}

fn luma(answer: &[u8]) -> bool {
    let mut red = lent::value();
    let mut green = lent::value();
    let mut blue = lent::value();
    let found = desk::colours::desk_luma(answers::byte(answer, 0), &mut red, &mut green, &mut blue);
    answers::whole(answer, 5, 0)
        & answers::same_byte(answer, 1, found)
        & answers::same_float(red, answers::number(answer, 2))
        & answers::same_float(green, answers::number(answer, 3))
        & answers::same_float(blue, answers::number(answer, 4))
}

fn comb(answer: &[u8]) -> bool {
    let mut total = lent::NUMBER;
    let found = desk::combs::desk_comb(
        answers::bytes(answer, 6, 0),
        answers::word(answer, 0),
        answers::word(answer, 1),
        answers::word(answer, 2),
        answers::word(answer, 3),
        &mut total,
    );
    answers::whole(answer, 6, 1)
        & answers::same_byte(answer, 4, found)
        & answers::same(answer, 5, total)
}

fn comb_rgba(answer: &[u8]) -> bool {
    let mut total = lent::NUMBER;
    let found = desk::combs::desk_comb_rgba(
        answers::bytes(answer, 4, 0),
        answers::word(answer, 0),
        answers::word(answer, 1),
        &mut total,
    );
    answers::whole(answer, 4, 1)
        & answers::same_byte(answer, 2, found)
        & answers::same(answer, 3, total)
}

fn first_field(answer: &[u8]) -> bool {
    let mut parity = lent::BYTE;
    let found = desk::fields::desk_first_field(
        answers::byte(answer, 0),
        answers::byte(answer, 1),
        &mut parity,
    );
    answers::whole(answer, 4, 0)
        & answers::same_byte(answer, 2, found)
        & answers::same_byte(answer, 3, parity)
}

fn edge(answer: &[u8]) -> bool {
    let mut slant = lent::SIGNED;
    let found = desk::filters::desk_edge(
        answers::bytes(answer, 9, 0),
        plane_numbers(answer, 0),
        answers::signed(answer, 5),
        answers::signed(answer, 6),
        &mut slant,
    );
    answers::whole(answer, 9, 1)
        & answers::same_byte(answer, 7, found)
        & (answers::number(answer, 8) <= 4294967295)
        & (slant == answers::signed(answer, 8))
}

fn sample(answer: &[u8]) -> bool {
    let mut value = lent::value();
    let found = desk::filters::desk_sample(
        answers::byte(answer, 0),
        answers::bytes(answer, 22, 0),
        plane_numbers(answer, 1),
        answers::bytes(answer, 22, 1),
        plane_numbers(answer, 6),
        answers::bytes(answer, 22, 2),
        plane_numbers(answer, 11),
        answers::word(answer, 16),
        answers::word(answer, 17),
        answers::signed(answer, 18),
        answers::signed(answer, 19),
        &mut value,
    );
    answers::whole(answer, 22, 3)
        & answers::same_byte(answer, 20, found)
        & answers::same_float(value, answers::number(answer, 21))
}

fn plane(answer: &[u8]) -> bool {
    let mut out = [lent::value(); 512];
    let n = answers::room(answers::bytes(answer, 18, 3), 4096) / 8;
    let out = &mut out[..n];
    let found = desk::filters::desk_plane(
        answers::byte(answer, 0),
        answers::byte(answer, 1),
        answers::bytes(answer, 18, 0),
        plane_numbers(answer, 2),
        answers::bytes(answer, 18, 1),
        plane_numbers(answer, 7),
        answers::bytes(answer, 18, 2),
        plane_numbers(answer, 12),
        out,
    );
    answers::whole(answer, 18, 4)
        & answers::same_byte(answer, 17, found)
        & answers::same_floats(out, answers::bytes(answer, 18, 3))
}

fn code(answer: &[u8]) -> bool {
    let mut code = lent::CODE;
    let found = desk::planes::desk_code(
        answers::bytes(answer, 9, 0),
        plane_numbers(answer, 0),
        answers::signed(answer, 5),
        answers::signed(answer, 6),
        &mut code,
    );
    answers::whole(answer, 9, 1)
        & answers::same_byte(answer, 7, found)
        & answers::same(answer, 8, u64::from(code))
}

fn at(answer: &[u8]) -> bool {
    let mut value = lent::value();
    let found = desk::planes::desk_at(
        answers::bytes(answer, 9, 0),
        plane_numbers(answer, 0),
        answers::signed(answer, 5),
        answers::signed(answer, 6),
        &mut value,
    );
    answers::whole(answer, 9, 1)
        & answers::same_byte(answer, 7, found)
        & answers::same_float(value, answers::number(answer, 8))
}
