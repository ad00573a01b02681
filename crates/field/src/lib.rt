// Copyright 2026 Till0196
// SPDX-License-Identifier: Apache-2.0
// Carried over from core/src/output/video/field.rs, and changed: `first_field` takes the two values that it
// read from `About`, and the schedule from a cadence to outputs stays behind.
//
// Which field of a frame is which, and the words for what is shown of a frame.
#![tactic(auto)]

ghost use Rattle.std.specs.Prelude.{◌≡◌};
ghost use Rattle.field.specs.Field.{first_row_of, other_of, parity_named, cadence_number, first_field_of};

// The two fields of a frame. The top one has the even rows, the bottom one the odd.
#[derive(Clone, Copy, Debug, PartialEq, Eq)]
pub enum Parity {
    Top = 0,
    Bottom = 1,
}

impl Parity {
    // The row that a field starts at, which is also the number by which files and the desk name it.
    pub fn first_row(self) -> u32
        ensures { result ≡ first_row_of self }
    {
        self as u32
    }

    pub fn other(self) -> Parity
        ensures { result ≡ other_of self }
    {
        match self {
            Parity::Top => Parity::Bottom,
            Parity::Bottom => Parity::Top,
        }
    }

    // The field that a number names: 0 is top, every other number bottom. Callers refuse a number above 1
    // that the host gives.
    pub fn named(first_row: u64) -> Parity
        ensures { result ≡ parity_named first_row }
    {
        if first_row == 0 {
            Parity::Top
        } else {
            Parity::Bottom
        }
    }
}

// Which of the three frames at hand a field is taken from.
#[derive(Clone, Copy, Debug, PartialEq, Eq)]
pub enum Source {
    Previous,
    Current,
    Next,
}

// What the detector finds of a frame. No flag of the stream says it.
// Its number is the one by which the desk gets it.
#[derive(Clone, Copy, Debug, PartialEq, Eq)]
pub enum Cadence {
    None = 0,
    // Both fields show one film picture: weave them.
    Whole = 1,
    // The frame has no film picture of its own.
    Drop = 2,
    // The first field and the previous frame's second show one film picture.
    Spanning = 3,
}

impl Cadence {
    pub fn number(self) -> u8
        ensures { result ≡ cadence_number self }
    {
        self as u8
    }
}

#[derive(Clone, Copy, Debug, PartialEq, Eq)]
pub struct Output {
    // The field that is shown; none where the frame is shown whole.
    pub field: Option<Parity>,
    // The field whose rows come from the frame `before` when film is put together again.
    pub weave: Option<Parity>,
    pub before: Source,
    pub after: Source,
    // Shown at `at` parts of the frame's time, which has `of` parts.
    pub at: u8,
    pub of: u8,
    // A flag for the shader, which was left behind. Nothing here reads it.
    pub matched: bool,
}

// How a picture was coded: both fields together, or one alone.
#[derive(Clone, Copy, Debug, PartialEq, Eq)]
pub enum Structure {
    Frame,
    Top,
    Bottom,
}

// The field that comes first in time. A picture of one field has `top_field_first` fixed at 0, so
// there its structure alone decides.
pub fn first_field(structure: Structure, top_field_first: bool) -> Parity
    ensures { result ≡ first_field_of structure top_field_first }
{
    match structure {
        Structure::Frame if top_field_first => Parity::Top,
        Structure::Frame => Parity::Bottom,
        Structure::Top => Parity::Top,
        Structure::Bottom => Parity::Bottom,
    }
}
