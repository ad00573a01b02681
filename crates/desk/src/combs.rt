// Comb by number. What is cut has a name before each call, since a wrong program gives the call another number.
// Each export ends in a match that writes: of a place that a closure of `Result::map` wrote a proof knows nothing.
ghost use Rattle.std.specs.Prelude.{◌≡◌, length};
ghost use Rattle.laws.specs.Refusal.{written};
ghost use Rattle.comb.specs.Comb.{plane_comb, rgba_comb};
ghost use Rattle.comb.specs.Answer.{comb_no, rgba_no};

// The comb of a plane. Its codes are not shifted, and one above 2^depth - 1 counts as that. The luma of a
// biplanar frame deeper than 8 bits has its codes in the high bits, where nearly every one counts so: it
// goes through readback first. Numbers 4 and 6.
#[unsafe(no_mangle)]
pub extern "C" fn desk_comb(
    plane: &[u8],
    width: u32,
    height: u32,
    depth: u32,
    stride: u32,
    total: &mut u64,
) -> u8
    ensures value { result ≡ comb_no width height depth stride (length plane.now) }
    ensures total_after { total.new ≡ written (comb_no width height depth stride (length plane.now)) (plane_comb plane.now width height depth stride) total.old }
{
    let columns = numbers::at_most_65535(width);
    let rows = numbers::at_most_65535(height);
    let bits = numbers::at_most_255(depth);
    match comb::comb(plane, columns, rows, bits, stride) {
        Ok(found) => {
            *total = found;
            0
        }
        Err(refusal) => refusal.number(),
    }
}

// The comb of the green of an RGBA picture. Numbers 4 and 6.
#[unsafe(no_mangle)]
pub extern "C" fn desk_comb_rgba(rgba: &[u8], width: u32, height: u32, total: &mut u64) -> u8
    ensures value { result ≡ rgba_no width height (length rgba.now) }
    ensures total_after { total.new ≡ written (rgba_no width height (length rgba.now)) (rgba_comb rgba.now width height) total.old }
{
    let columns = numbers::at_most_65535(width);
    let rows = numbers::at_most_65535(height);
    match comb::comb_rgba(rgba, columns, rows) {
        Ok(green) => {
            *total = green;
            0
        }
        Err(refusal) => refusal.number(),
    }
}
