// The host's numbers, as every archive takes them. They are wider than the places of the code, so that
// none can wrap into the bounds. One too large for its place counts as the largest there, which is out
// of bounds too, so that no number of a call changes by it.
#![tactic(auto)]

ghost use Rattle.std.specs.Prelude.{◌≡◌, min};
ghost use Rattle.numbers.specs.Numbers.{layout_named, shape_named, grid_named};
ghost use Rattle.numbers.specs.Inner.{cut, cut_grid};

use plane::{Grid, Layout, Shape};

// A plane's shape as the host gives it. The numbers are wider than a shape's own, so that none can wrap
// into the bounds; a call refuses those outside.
#[repr(C)]
#[derive(Clone, Copy, Debug, PartialEq, Eq)]
pub struct PlaneNumbers {
    // Samples of one component in a row.
    pub width: u32,
    pub height: u32,
    // Bits of a sample.
    pub depth: u32,
    // Bytes from one row to the next.
    pub stride: u32,
    // 0 planar, 1 the luma of a biplanar frame, 2 and 3 the first and the second of two components that
    // share a plane.
    pub layout: u32,
}

// The shape of a plane whose codes are not shifted: of a picture, or of a field, whose rows are
// its lines. The numbers are wider than a shape's own too.
#[repr(C)]
#[derive(Clone, Copy, Debug, PartialEq, Eq)]
pub struct GridNumbers {
    // Samples in a row.
    pub width: u32,
    pub height: u32,
    // Bits of a sample.
    pub depth: u32,
    // Bytes from one row to the next.
    pub stride: u32,
}

fn layout_named(code: u32) -> Layout
    ensures { result ≡ layout_named code }
{
    match code {
        0 => Layout::Planar,
        1 => Layout::Luma,
        2 => Layout::First,
        _ => Layout::Second,
    }
}

// One function for each width, since other crates call both by name.
pub fn at_most_65535(n: u32) -> u16
    ensures { result ≡ min n 65535 }
{
    u16::try_from(n).unwrap_or(u16::MAX)
}

pub fn at_most_255(n: u32) -> u8
    ensures { result ≡ min n 255 }
{
    u8::try_from(n).unwrap_or(u8::MAX)
}

pub fn shape_named(numbers: PlaneNumbers) -> Shape
    ensures { result ≡ cut (shape_named numbers) }
{
    let PlaneNumbers {
        width,
        height,
        depth,
        stride,
        layout,
    } = numbers;
    Shape {
        width: at_most_65535(width),
        height: at_most_65535(height),
        depth: at_most_255(depth),
        stride,
        layout: layout_named(layout),
    }
}

pub fn grid_named(numbers: GridNumbers) -> Grid
    ensures { result ≡ cut_grid (grid_named numbers) }
{
    Grid {
        width: at_most_65535(numbers.width),
        height: at_most_65535(numbers.height),
        depth: at_most_255(numbers.depth),
        stride: numbers.stride,
    }
}
