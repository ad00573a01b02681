// What lent places hold before a call, so that what a call writes, and what it leaves, both show: the
// byte 165 in each of their bytes.
ghost use Rattle.std.specs.Prelude.{◌≡◌, min};
ghost use Rattle.std.specs.Float.{binary32};
ghost use Rattle.std.specs.Float.Ieee.{of_bits};

use crate::float_of;

pub const BYTE: u8 = 0xa5;

pub const CODE: u16 = 0xa5a5;

pub const NUMBER: u64 = 0xa5a5_a5a5_a5a5_a5a5;

// Those of its bits that are not set, and from there on down.
pub const SIGNED: i32 = -0x5a5a_5a5a - 1;

pub const LONG: i64 = -0x5a5a_5a5a_5a5a_5a5a - 1;

pub fn value() -> f32
    ensures { result ≡ of_bits binary32 2779096485 }
{
    float_of(0xa5a5_a5a5)
}

// As much of a state or a store as a record lends, or all that there is.
pub fn part(asked: u64, all: usize) -> usize
    ensures { result ≡ min asked all }
{
    asked.min(all as u64) as usize
}
