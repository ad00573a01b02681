// Fields by number.
// Each export ends in a match that writes: of a place that a closure of `Result::map` wrote a proof knows nothing.
ghost use Rattle.std.specs.Prelude.{◌≡◌, ◌==◌, cond, leb, [], ◌∷◌};
ghost use Rattle.laws.specs.Refusal.{when_done, written};
ghost use Rattle.refusal.specs.Refusal.{no_of, values_of};
ghost use Rattle.field.specs.Field.{first_field_of};
ghost use Rattle.desk.specs.Fields.{structure_named_of, first_field_no, first_field_number};

use refusal::Refusal;

// The field that comes first in time, 0 top or 1 bottom, of a picture whose structure is 0 frame,
// 1 top or 2 bottom and whose flag is 0 or 1. Number 3.
#[unsafe(no_mangle)]
pub extern "C" fn desk_first_field(structure: u8, top_field_first: u8, parity: &mut u8) -> u8
    ensures value { result ≡ first_field_no structure top_field_first }
    ensures parity_after { parity.new ≡ written (first_field_no structure top_field_first) (first_field_number structure top_field_first) parity.old }
{
    match first_field(structure, top_field_first) {
        Ok(first) => {
            *parity = first as u8;
            0
        }
        Err(refusal) => refusal.number(),
    }
}

fn first_field(structure: u8, top_field_first: u8) -> Result<field::Parity, Refusal>
    ensures { (no_of result ≡ first_field_no structure top_field_first) × (values_of result ≡ when_done (first_field_no structure top_field_first) (first_field_of (structure_named_of structure) (top_field_first == 1))) }
{
    let named = structure_named(structure)?;
    Refusal::Outside.unless(top_field_first <= 1)?;
    Ok(field::first_field(named, top_field_first == 1))
}

fn structure_named(code: u8) -> Result<field::Structure, Refusal>
    ensures { (no_of result ≡ cond (leb code 2) 0 3) × (values_of result ≡ cond (leb code 2) (structure_named_of code ∷ []) []) }
{
    match code {
        0 => Ok(field::Structure::Frame),
        1 => Ok(field::Structure::Top),
        2 => Ok(field::Structure::Bottom),
        _ => Err(Refusal::Outside),
    }
}
