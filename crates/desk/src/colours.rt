// Colour by number.
// Each export ends in a match that writes: of a place that a closure of `Result::map` wrote a proof knows nothing.
ghost use Rattle.std.specs.Prelude.{◌≡◌};
ghost use Rattle.laws.specs.Refusal.{when_done, written};
ghost use Rattle.refusal.specs.Refusal.{no_of, values_of};
ghost use Rattle.colour.specs.Colour.{converted_of, quantise_of, luma_weights};
ghost use Rattle.colour.specs.Answer.{to_rgb_no};
ghost use Rattle.desk.specs.Colours.{primaries_named, luma_no};

use refusal::Refusal;

// Y'CbCr to red, green and blue. Number 8.
#[unsafe(no_mangle)]
pub extern "C" fn desk_to_rgb(
    conversion: colour::Conversion,
    y: f32,
    cb: f32,
    cr: f32,
    red: &mut f32,
    green: &mut f32,
    blue: &mut f32,
) -> u8
    ensures value { result ≡ to_rgb_no conversion y cb cr }
    ensures red_after { red.new ≡ written (to_rgb_no conversion y cb cr) (converted_of conversion y cb cr).red red.old }
    ensures green_after { green.new ≡ written (to_rgb_no conversion y cb cr) (converted_of conversion y cb cr).green green.old }
    ensures blue_after { blue.new ≡ written (to_rgb_no conversion y cb cr) (converted_of conversion y cb cr).blue blue.old }
{
    match colour::to_rgb(conversion, y, cb, cr) {
        Ok(found) => {
            *red = found.red;
            *green = found.green;
            *blue = found.blue;
            0
        }
        Err(refusal) => refusal.number(),
    }
}

// A value as a byte, of every float; a NaN gives 0. Refuses nothing.
#[unsafe(no_mangle)]
pub extern "C" fn desk_quantise(value: f32) -> u8
    ensures { result ≡ quantise_of value }
{
    colour::quantise(value)
}

// The weights of red, green and blue in luma, by the code of the primaries: 0 BT.709, 1 BT.2020. Number 3.
#[unsafe(no_mangle)]
pub extern "C" fn desk_luma(primaries: u8, red: &mut f32, green: &mut f32, blue: &mut f32) -> u8
    ensures value { result ≡ luma_no primaries }
    ensures red_after { red.new ≡ written (luma_no primaries) (luma_weights (primaries_named primaries)).red red.old }
    ensures green_after { green.new ≡ written (luma_no primaries) (luma_weights (primaries_named primaries)).green green.old }
    ensures blue_after { blue.new ≡ written (luma_no primaries) (luma_weights (primaries_named primaries)).blue blue.old }
{
    match primaries_named(primaries) {
        Ok(named) => {
            let weights = named.luma();
            *red = weights.red;
            *green = weights.green;
            *blue = weights.blue;
            0
        }
        Err(refusal) => refusal.number(),
    }
}

fn primaries_named(code: u8) -> Result<colour::Primaries, Refusal>
    ensures { (no_of result ≡ luma_no code) × (values_of result ≡ when_done (luma_no code) (primaries_named code)) }
{
    match code {
        0 => Ok(colour::Primaries::Bt709),
        1 => Ok(colour::Primaries::Bt2020),
        _ => Err(Refusal::Outside),
    }
}
