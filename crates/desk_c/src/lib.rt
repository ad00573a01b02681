// Made by tools/calls from the exports; not to be changed by hand.
// The archive of crate `desk`: each of its calls under its own name, with the same clauses.
#![tactic(auto)]

ghost use Rattle.std.specs.Prelude.{◌≡◌, length, nat_abs};
ghost use Rattle.laws.specs.Refusal.{written};
ghost use Rattle.colour.specs.Colour.{converted_of, quantise_of, luma_weights};
ghost use Rattle.colour.specs.Answer.{to_rgb_no};
ghost use Rattle.desk.specs.Colours.{primaries_named, luma_no};
ghost use Rattle.comb.specs.Comb.{plane_comb, rgba_comb};
ghost use Rattle.comb.specs.Answer.{comb_no, rgba_no};
ghost use Rattle.desk.specs.Fields.{first_field_no, first_field_number};
ghost use Rattle.laws.specs.Rows.{over};
ghost use Rattle.plane.specs.Plane.{value_of, code_of};
ghost use Rattle.filter.specs.Filter.{edge_of};
ghost use Rattle.numbers.specs.Numbers.{shape_named};
ghost use Rattle.desk.specs.Filters.{rows_named, edge_no, sample_no, sample_named, plane_no, plane_named};
ghost use Rattle.desk.specs.Planes.{code_no, at_no};

use numbers::PlaneNumbers;

// Y'CbCr to red, green and blue. Number 8.
#[unsafe(no_mangle)]
pub extern "C" fn desk_to_rgb(
    conversion: colour::Conversion,
    y: f32,
    cb: f32,
    cr: f32,
    red: &mut f32,
    green: &mut f32,
    blue: &mut f32,
) -> u8
    ensures value { result ≡ to_rgb_no conversion y cb cr }
    ensures red_after { red.new ≡ written (to_rgb_no conversion y cb cr) (converted_of conversion y cb cr).red red.old }
    ensures green_after { green.new ≡ written (to_rgb_no conversion y cb cr) (converted_of conversion y cb cr).green green.old }
    ensures blue_after { blue.new ≡ written (to_rgb_no conversion y cb cr) (converted_of conversion y cb cr).blue blue.old }
{
    desk::colours::desk_to_rgb(conversion, y, cb, cr, red, green, blue)
}

// A value as a byte, of every float; a NaN gives 0. Refuses nothing.
#[unsafe(no_mangle)]
pub extern "C" fn desk_quantise(value: f32) -> u8
    ensures { result ≡ quantise_of value }
{
    desk::colours::desk_quantise(value)
}

// The weights of red, green and blue in luma, by the code of the primaries: 0 BT.709, 1 BT.2020. Number 3.
#[unsafe(no_mangle)]
pub extern "C" fn desk_luma(primaries: u8, red: &mut f32, green: &mut f32, blue: &mut f32) -> u8
    ensures value { result ≡ luma_no primaries }
    ensures red_after { red.new ≡ written (luma_no primaries) (luma_weights (primaries_named primaries)).red red.old }
    ensures green_after { green.new ≡ written (luma_no primaries) (luma_weights (primaries_named primaries)).green green.old }
    ensures blue_after { blue.new ≡ written (luma_no primaries) (luma_weights (primaries_named primaries)).blue blue.old }
{
    desk::colours::desk_luma(primaries, red, green, blue)
}

// The comb of a plane. Its codes are not shifted, and one above 2^depth - 1 counts as that. The luma of a
// biplanar frame deeper than 8 bits has its codes in the high bits, where nearly every one counts so: it
// goes through readback first. Numbers 4 and 6.
#[unsafe(no_mangle)]
pub extern "C" fn desk_comb(
    plane: &[u8],
    width: u32,
    height: u32,
    depth: u32,
    stride: u32,
    total: &mut u64,
) -> u8
    ensures value { result ≡ comb_no width height depth stride (length plane.now) }
    ensures total_after { total.new ≡ written (comb_no width height depth stride (length plane.now)) (plane_comb plane.now width height depth stride) total.old }
{
    desk::combs::desk_comb(plane, width, height, depth, stride, total)
}

// The comb of the green of an RGBA picture. Numbers 4 and 6.
#[unsafe(no_mangle)]
pub extern "C" fn desk_comb_rgba(rgba: &[u8], width: u32, height: u32, total: &mut u64) -> u8
    ensures value { result ≡ rgba_no width height (length rgba.now) }
    ensures total_after { total.new ≡ written (rgba_no width height (length rgba.now)) (rgba_comb rgba.now width height) total.old }
{
    desk::combs::desk_comb_rgba(rgba, width, height, total)
}

// The field that comes first in time, 0 top or 1 bottom, of a picture whose structure is 0 frame,
// 1 top or 2 bottom and whose flag is 0 or 1. Number 3.
#[unsafe(no_mangle)]
pub extern "C" fn desk_first_field(structure: u8, top_field_first: u8, parity: &mut u8) -> u8
    ensures value { result ≡ first_field_no structure top_field_first }
    ensures parity_after { parity.new ≡ written (first_field_no structure top_field_first) (first_field_number structure top_field_first) parity.old }
{
    desk::fields::desk_first_field(structure, top_field_first, parity)
}

// How the edge runs at a place of a missing row, from -2 to 2. Numbers 3, 4 and 6.
#[unsafe(no_mangle)]
pub extern "C" fn desk_edge(cur: &[u8], shape: PlaneNumbers, x: i32, y: i32, slant: &mut i32) -> u8
    ensures value { result ≡ edge_no shape (length cur.now) x y }
    ensures slant_after { slant.new ≡ written (edge_no shape (length cur.now) x y) (edge_of (value_of cur.now (shape_named shape)) x y) slant.old }
{
    desk::filters::desk_edge(cur, shape, x, y, slant)
}

// The value at a place, by the quality's code: 0 Weave, 1 Bob, 2 Yadif, 3 Bwdif. `first` is 0 or 1 and
// `mate` 0, 1 or 2 for none. Numbers 3 to 6.
#[unsafe(no_mangle)]
pub extern "C" fn desk_sample(
    quality: u8,
    before: &[u8],
    before_shape: PlaneNumbers,
    cur: &[u8],
    cur_shape: PlaneNumbers,
    after: &[u8],
    after_shape: PlaneNumbers,
    first: u32,
    mate: u32,
    x: i32,
    y: i32,
    value: &mut f32,
) -> u8
    ensures value { result ≡ sample_no quality (rows_named first mate) before_shape cur_shape after_shape (length before.now) (length cur.now) (length after.now) x y }
    ensures value_after { value.new ≡ written result (sample_named quality (rows_named first mate) before_shape cur_shape after_shape before cur after x y) value.old }
{
    desk::filters::desk_sample(
        quality,
        before,
        before_shape,
        cur,
        cur_shape,
        after,
        after_shape,
        first,
        mate,
        x,
        y,
        value,
    )
}

// The samples of a whole plane, row by row, of which the rows `first`, 0 or 1, are shown. Numbers 3 to 7.
#[unsafe(no_mangle)]
pub extern "C" fn desk_plane(
    quality: u8,
    first: u8,
    before: &[u8],
    before_shape: PlaneNumbers,
    cur: &[u8],
    cur_shape: PlaneNumbers,
    after: &[u8],
    after_shape: PlaneNumbers,
    out: &mut [f32],
) -> u8
    ensures value { result ≡ plane_no quality first before_shape cur_shape after_shape (length before.now) (length cur.now) (length after.now) (length out.old) }
    ensures out_after { out.new ≡ written result (over (plane_named quality first before_shape cur_shape after_shape before cur after) out.old) out.old }
{
    desk::filters::desk_plane(
        quality,
        first,
        before,
        before_shape,
        cur,
        cur_shape,
        after,
        after_shape,
        out,
    )
}

// The code at a place inside the plane, at most 2^depth - 1. Numbers 3, 4 and 6.
#[unsafe(no_mangle)]
pub extern "C" fn desk_code(plane: &[u8], shape: PlaneNumbers, x: i32, y: i32, code: &mut u16) -> u8
    ensures value { result ≡ code_no shape (length plane.now) x y }
    ensures code_after { code.new ≡ written (code_no shape (length plane.now) x y) (code_of plane.now (shape_named shape) (nat_abs x) (nat_abs y)) code.old }
{
    desk::planes::desk_code(plane, shape, x, y, code)
}

// The value, from 0 to 1, at coordinates from -65,536 to 65,536, each clamped to the plane. Numbers 3, 4
// and 6.
#[unsafe(no_mangle)]
pub extern "C" fn desk_at(plane: &[u8], shape: PlaneNumbers, x: i32, y: i32, value: &mut f32) -> u8
    ensures value { result ≡ at_no shape (length plane.now) x y }
    ensures value_after { value.new ≡ written (at_no shape (length plane.now) x y) (value_of plane.now (shape_named shape) x y) value.old }
{
    desk::planes::desk_at(plane, shape, x, y, value)
}
