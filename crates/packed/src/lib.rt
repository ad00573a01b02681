// Whole numbers in lent bytes, eight bytes each, low byte first: how the desk keeps a state between
// calls.
#![tactic(auto)]

ghost use Rattle.std.specs.Prelude.{◌≡◌, ◌%◌, length};
ghost use Rattle.laws.specs.Refusal.{written};
ghost use Rattle.laws.specs.Rows.{over};
ghost use Rattle.refusal.specs.Refusal.{no_of};
ghost use Rattle.packed.specs.Packed.{packed_of, number_at, pack_no};

use refusal::Refusal;

// The number `place` of the bytes, which count as 0 past their end.
#[tactic(auto, unfolding(crate::specs::Packed::number_at, laws::specs::Sums::sum_over))]
pub fn number_at(bytes: &[u8], place: u16) -> u64
    ensures { result ≡ number_at bytes.now place }
{
    let start = 8 * usize::from(place);
    let byte = |i: usize| bytes.get(start + i).copied().unwrap_or(0);
    u64::from_le_bytes([
        byte(0),
        byte(1),
        byte(2),
        byte(3),
        byte(4),
        byte(5),
        byte(6),
        byte(7),
    ])
}

// The low two bytes of a number, and its low byte; what stands above them is dropped.
pub fn size_in(number: u64) -> u16
    ensures { result ≡ number % 65536 }
{
    (number % 65536) as u16
}

pub fn byte_in(number: u64) -> u8
    ensures { result ≡ number % 256 }
{
    (number % 256) as u8
}

// The numbers, one after another from the front of the bytes. What lies behind stays. Number 7.
#[tactic(auto, unfolding(laws::specs::Refusal::lowest))]
pub fn write_numbers(bytes: &mut [u8], numbers: &[u64]) -> Result<(), Refusal>
    ensures value { no_of result ≡ pack_no (length numbers.now) (length bytes.old) }
    ensures bytes_after { bytes.new ≡ written (no_of result) (over (packed_of numbers.now) bytes.old) bytes.old }
{
    Refusal::ShortOutput.unless(8 * numbers.len() <= bytes.len())?;
    for (k, number) in numbers.iter().enumerate() {
        let start = k * 8;
        bytes[start..start + 8].copy_from_slice(&number.to_le_bytes());
    }
    Ok(())
}
