// Made by tools/calls from the exports; not to be changed by hand.
// The archive of crate `picturedesk`: each of its calls under its own name, with the same clauses.
#![tactic(auto)]

ghost use Rattle.std.specs.Prelude.{◌≡◌};
ghost use Rattle.picturedesk.specs.Pictures.{named_no, named_out};

use colour::Conversion;
use picturedesk::{FrameNumbers, OutputNumbers};

// A picture of four bytes a pixel, red, green, blue and 255. The quality is 0 Weave, 1 Bob, 2 Yadif,
// 3 Bwdif. Numbers 3 to 8.
#[unsafe(no_mangle)]
pub extern "C" fn desk_picture<'a>(
    quality: u8,
    output: OutputNumbers,
    conversion: Conversion,
    previous: FrameNumbers,
    previous_luma: &'a [u8],
    previous_cb: &'a [u8],
    previous_cr: &'a [u8],
    current: FrameNumbers,
    current_luma: &'a [u8],
    current_cb: &'a [u8],
    current_cr: &'a [u8],
    next: FrameNumbers,
    next_luma: &'a [u8],
    next_cb: &'a [u8],
    next_cr: &'a [u8],
    out: &mut [u8],
) -> u8
    ensures value { result ≡ named_no quality output conversion previous current next previous_luma previous_cb previous_cr current_luma current_cb current_cr next_luma next_cb next_cr out }
    ensures out_after { out.new ≡ named_out result quality output conversion previous current next previous_luma previous_cb previous_cr current_luma current_cb current_cr next_luma next_cb next_cr out }
{
    picturedesk::desk_picture(
        quality,
        output,
        conversion,
        previous,
        previous_luma,
        previous_cb,
        previous_cr,
        current,
        current_luma,
        current_cb,
        current_cr,
        next,
        next_luma,
        next_cb,
        next_cr,
        out,
    )
}
