// What the capture desk's Rust host calls of pictures, beside crate `desk` and in its manner: numbers
// and byte slices, the answer a number of docs/RULES.md, "What the desk gets back".
#![tactic(auto)]

ghost use Rattle.std.specs.Prelude.{◌≡◌, leb};
ghost use Rattle.picturedesk.specs.Inner.{cut_planes, cut_asked};
ghost use Rattle.picturedesk.specs.Pictures.{chosen_named, source_named, output_named, planes_named, layouts_named, output_good, all_named, asked_named, named_no, named_out};

use colour::Conversion;
use field::{Output, Parity, Source};
use filter::Quality;
use numbers::PlaneNumbers;
use picture::Asked;
use plane::Planes;
use refusal::Refusal;

// The shapes of a frame's three planes. Where two components share a plane, both name it, and the same
// bytes are lent twice.
#[repr(C)]
#[derive(Clone, Copy, Debug, PartialEq, Eq)]
pub struct FrameNumbers {
    pub luma: PlaneNumbers,
    pub cb: PlaneNumbers,
    pub cr: PlaneNumbers,
}

// What is shown of three frames.
#[repr(C)]
#[derive(Clone, Copy, Debug, PartialEq, Eq)]
pub struct OutputNumbers {
    // The field: 0 top, 1 bottom, 2 neither, which is Weave whatever the quality.
    pub field: u32,
    // The field whose rows come from the earlier frame when film is put together again, likewise.
    pub weave: u32,
    // The frame that serves as earlier: 0 the previous one, 1 the current one, 2 the next.
    pub earlier: u32,
    // The frame that serves as later, likewise.
    pub later: u32,
}

// Every number has an answer here, as in the definitions `chosen_named` and `source_named`, by which the export's
// clauses speak; `all_named` refuses a code that names nothing.
fn chosen_named(code: u32) -> Option<Parity>
    ensures { result ≡ chosen_named code }
{
    match code {
        0..=1 => Some(Parity::named(u64::from(code))),
        _ => None,
    }
}

fn source_named(code: u32) -> Source
    ensures { result ≡ source_named code }
{
    match code {
        0 => Source::Previous,
        1 => Source::Current,
        _ => Source::Next,
    }
}

fn output_named(n: OutputNumbers) -> Output
    ensures { result ≡ output_named n }
{
    Output {
        field: chosen_named(n.field),
        weave: chosen_named(n.weave),
        before: source_named(n.earlier),
        after: source_named(n.later),
        at: 0,
        of: 1,
        matched: false,
    }
}

fn output_good(n: OutputNumbers) -> bool
    ensures { result ≡ output_good n }
{
    (n.field <= 2) & (n.weave <= 2) & (n.earlier <= 2) & (n.later <= 2)
}

fn planes_named(n: FrameNumbers) -> Planes
    ensures { result ≡ cut_planes (planes_named n) }
{
    Planes {
        luma: numbers::shape_named(n.luma),
        cb: numbers::shape_named(n.cb),
        cr: numbers::shape_named(n.cr),
    }
}

// Whether the layout's code names one.
fn is_named(shape: PlaneNumbers) -> bool
    ensures { result ≡ leb shape.layout 3 }
{
    shape.layout <= 3
}

fn layouts_named(n: FrameNumbers) -> bool
    ensures { result ≡ layouts_named n }
{
    is_named(n.luma) & is_named(n.cb) & is_named(n.cr)
}

fn all_named(
    quality: u8,
    output: OutputNumbers,
    previous: FrameNumbers,
    current: FrameNumbers,
    next: FrameNumbers,
) -> bool
    ensures { result ≡ all_named quality output previous current next }
{
    (quality <= 3)
        & output_good(output)
        & layouts_named(previous)
        & layouts_named(current)
        & layouts_named(next)
}

// What the numbers name, with shapes as `numbers::shape_named` has them.
fn asked_named(
    quality: u8,
    output: OutputNumbers,
    conversion: Conversion,
    previous: FrameNumbers,
    current: FrameNumbers,
    next: FrameNumbers,
) -> Asked
    ensures { result ≡ cut_asked (asked_named quality output conversion previous current next) }
{
    Asked {
        quality: Quality::named(quality),
        output: output_named(output),
        conversion,
        previous: planes_named(previous),
        current: planes_named(current),
        next: planes_named(next),
    }
}

// A picture of four bytes a pixel, red, green, blue and 255. The quality is 0 Weave, 1 Bob, 2 Yadif,
// 3 Bwdif. Numbers 3 to 8.
#[unsafe(no_mangle)]
pub extern "C" fn desk_picture<'a>(
    quality: u8,
    output: OutputNumbers,
    conversion: Conversion,
    previous: FrameNumbers,
    previous_luma: &'a [u8],
    previous_cb: &'a [u8],
    previous_cr: &'a [u8],
    current: FrameNumbers,
    current_luma: &'a [u8],
    current_cb: &'a [u8],
    current_cr: &'a [u8],
    next: FrameNumbers,
    next_luma: &'a [u8],
    next_cb: &'a [u8],
    next_cr: &'a [u8],
    out: &mut [u8],
) -> u8
    ensures value { result ≡ named_no quality output conversion previous current next previous_luma previous_cb previous_cr current_luma current_cb current_cr next_luma next_cb next_cr out }
    ensures out_after { out.new ≡ named_out result quality output conversion previous current next previous_luma previous_cb previous_cr current_luma current_cb current_cr next_luma next_cb next_cr out }
{
    // No plainer with `?`: an inner function would take every parameter and clause a second time.
    if !all_named(quality, output, previous, current, next) {
        return Refusal::Outside.number();
    }
    let asked = asked_named(quality, output, conversion, previous, current, next);
    refusal::told(picture::picture_of(
        out,
        asked,
        previous_luma,
        previous_cb,
        previous_cr,
        current_luma,
        current_cb,
        current_cr,
        next_luma,
        next_cb,
        next_cr,
    ))
}
