// The rows a field lacks, by number.
// An early return is no plainer with `?`: an inner function would take every parameter and clause a second time.
// Each export ends in a match that writes: of a place that a closure of `Result::map` wrote a proof knows nothing.
ghost use Rattle.std.specs.Prelude.{◌≡◌, length};
ghost use Rattle.laws.specs.Refusal.{written};
ghost use Rattle.laws.specs.Rows.{over};
ghost use Rattle.plane.specs.Plane.{value_of};
ghost use Rattle.filter.specs.Filter.{edge_of};
ghost use Rattle.numbers.specs.Numbers.{shape_named};
ghost use Rattle.desk.specs.Filters.{rows_named, making_named, all_named, edge_no, sample_no, sample_named, plane_no, plane_named};
ghost use Rattle.desk.specs.Inner.{cut_planes};

use crate::planes;
use numbers::PlaneNumbers;
use refusal::Refusal;

// How the edge runs at a place of a missing row, from -2 to 2. Numbers 3, 4 and 6.
#[unsafe(no_mangle)]
pub extern "C" fn desk_edge(cur: &[u8], shape: PlaneNumbers, x: i32, y: i32, slant: &mut i32) -> u8
    ensures value { result ≡ edge_no shape (length cur.now) x y }
    ensures slant_after { slant.new ≡ written (edge_no shape (length cur.now) x y) (edge_of (value_of cur.now (shape_named shape)) x y) slant.old }
{
    if !planes::is_named(shape) {
        return Refusal::Outside.number();
    }
    match filter::edge(cur, numbers::shape_named(shape), x, y) {
        Ok(found) => {
            *slant = found;
            0
        }
        Err(refusal) => refusal.number(),
    }
}

// What the numbers name, with shapes as `numbers` has them.
fn making_named(
    quality: u8,
    rows: filter::Rows,
    before: PlaneNumbers,
    cur: PlaneNumbers,
    after: PlaneNumbers,
) -> filter::Making
    ensures { result ≡ cut_planes (making_named quality rows before cur after) }
{
    filter::Making {
        quality: filter::Quality::named(quality),
        rows,
        before: numbers::shape_named(before),
        cur: numbers::shape_named(cur),
        after: numbers::shape_named(after),
    }
}

// The codes are numbers up to here: the definitions `rows_named` and `quality_named`, by which the exports' clauses
// speak, give an answer to every number.
fn all_named(quality: u8, before: PlaneNumbers, cur: PlaneNumbers, after: PlaneNumbers) -> bool
    ensures { result ≡ all_named quality before cur after }
{
    (quality <= 3) & planes::is_named(before) & planes::is_named(cur) & planes::is_named(after)
}

// The value at a place, by the quality's code: 0 Weave, 1 Bob, 2 Yadif, 3 Bwdif. `first` is 0 or 1 and
// `mate` 0, 1 or 2 for none. Numbers 3 to 6.
#[unsafe(no_mangle)]
pub extern "C" fn desk_sample(
    quality: u8,
    before: &[u8],
    before_shape: PlaneNumbers,
    cur: &[u8],
    cur_shape: PlaneNumbers,
    after: &[u8],
    after_shape: PlaneNumbers,
    first: u32,
    mate: u32,
    x: i32,
    y: i32,
    value: &mut f32,
) -> u8
    ensures value { result ≡ sample_no quality (rows_named first mate) before_shape cur_shape after_shape (length before.now) (length cur.now) (length after.now) x y }
    ensures value_after { value.new ≡ written result (sample_named quality (rows_named first mate) before_shape cur_shape after_shape before cur after x y) value.old }
{
    if !all_named(quality, before_shape, cur_shape, after_shape) {
        return Refusal::Outside.number();
    }
    let rows = filter::Rows { first, mate };
    let making = making_named(quality, rows, before_shape, cur_shape, after_shape);
    match filter::sample(making, before, cur, after, x, y) {
        Ok(found) => {
            *value = found;
            0
        }
        Err(refusal) => refusal.number(),
    }
}

// The samples of a whole plane, row by row, of which the rows `first`, 0 or 1, are shown. Numbers 3 to 7.
#[unsafe(no_mangle)]
pub extern "C" fn desk_plane(
    quality: u8,
    first: u8,
    before: &[u8],
    before_shape: PlaneNumbers,
    cur: &[u8],
    cur_shape: PlaneNumbers,
    after: &[u8],
    after_shape: PlaneNumbers,
    out: &mut [f32],
) -> u8
    ensures value { result ≡ plane_no quality first before_shape cur_shape after_shape (length before.now) (length cur.now) (length after.now) (length out.old) }
    ensures out_after { out.new ≡ written result (over (plane_named quality first before_shape cur_shape after_shape before cur after) out.old) out.old }
{
    let named = all_named(quality, before_shape, cur_shape, after_shape) & (first <= 1);
    if !named {
        return Refusal::Outside.number();
    }
    let rows = filter::Rows::field(u32::from(first));
    let making = making_named(quality, rows, before_shape, cur_shape, after_shape);
    refusal::told(fill::plane(out, making, before, cur, after))
}
