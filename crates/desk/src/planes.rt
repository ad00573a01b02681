// The reads of one sample, by number.
// Each export ends in a match that writes: of a place that a closure of `Result::map` wrote a proof knows nothing.
ghost use Rattle.std.specs.Prelude.{◌≡◌, leb, nat_abs, length};
ghost use Rattle.laws.specs.Refusal.{written};
ghost use Rattle.refusal.specs.Refusal.{no_of};
ghost use Rattle.plane.specs.Plane.{code_of, value_of};
ghost use Rattle.plane.specs.Coordinates.{inside};
ghost use Rattle.numbers.specs.Numbers.{shape_named};
ghost use Rattle.desk.specs.Planes.{code_no, at_no};

use numbers::PlaneNumbers;
use refusal::Refusal;

// Whether the layout's code names one.
pub(crate) fn is_named(shape: PlaneNumbers) -> bool
    ensures { result ≡ leb shape.layout 3 }
{
    shape.layout <= 3
}

// Whether a coordinate lies in a plane of this size, as large as the host says it is.
fn is_inside(x: i32, size: u64) -> bool
    ensures { result ≡ inside size x }
{
    0 <= x && (x as u64) < size
}

// Whether `desk_code` can be done. Its coordinates are judged before the shape, so by the sizes as given.
fn readable(shape: PlaneNumbers, bytes: usize, x: i32, y: i32) -> Result<(), Refusal>
    ensures { no_of result ≡ code_no shape bytes x y }
{
    let held = numbers::shape_named(shape);
    let inner = is_inside(x, u64::from(shape.width)) & is_inside(y, u64::from(shape.height));
    Refusal::Outside.unless(is_named(shape) & inner)?;
    Refusal::Shape.unless(held.is_good())?;
    Refusal::ShortInput.unless(held.bytes() <= bytes)
}

// The code at a place inside the plane, at most 2^depth - 1. Numbers 3, 4 and 6.
#[unsafe(no_mangle)]
pub extern "C" fn desk_code(plane: &[u8], shape: PlaneNumbers, x: i32, y: i32, code: &mut u16) -> u8
    ensures value { result ≡ code_no shape (length plane.now) x y }
    ensures code_after { code.new ≡ written (code_no shape (length plane.now) x y) (code_of plane.now (shape_named shape) (nat_abs x) (nat_abs y)) code.old }
{
    match readable(shape, plane.len(), x, y) {
        Ok(()) => {
            // A value of its own, since a wrong program drops it where it is written.
            let found = plane::code_at(plane, numbers::shape_named(shape), x as u16, y as u16);
            *code = found;
            0
        }
        Err(refusal) => refusal.number(),
    }
}

// The value, from 0 to 1, at coordinates from -65,536 to 65,536, each clamped to the plane. Numbers 3, 4
// and 6.
#[unsafe(no_mangle)]
pub extern "C" fn desk_at(plane: &[u8], shape: PlaneNumbers, x: i32, y: i32, value: &mut f32) -> u8
    ensures value { result ≡ at_no shape (length plane.now) x y }
    ensures value_after { value.new ≡ written (at_no shape (length plane.now) x y) (value_of plane.now (shape_named shape) x y) value.old }
{
    // An early return is no plainer with `?`: an inner function would take every parameter and clause a second time.
    if !is_named(shape) {
        return Refusal::Outside.number();
    }
    match plane::at(plane, numbers::shape_named(shape), x, y) {
        Ok(found) => {
            *value = found;
            0
        }
        Err(refusal) => refusal.number(),
    }
}
