// Measured entries as a reel file lays them out (docs/RULES.md, "Reel file and listing"), and their
// cadences from a fresh detector. The desk and the reel's reader stand on the same entry.
#![tactic(auto)]

ghost use Rattle.std.specs.Prelude.{◌≡◌, ◌+◌, ◌*◌, ◌<◌, ◌≤◌, length, get_or};
ghost use Rattle.laws.specs.Refusal.{written};
ghost use Rattle.refusal.specs.Refusal.{no_of};
ghost use Rattle.laws.specs.Rows.{listed, over};
ghost use Rattle.field.specs.Field.{parity_named};
ghost use Rattle.entry.specs.Entry.{word_at, entry_of, good_entry, measured_in, entry_at, cadence_at, every_below, cadences_no, cadences_of};
ghost use Rattle.entry.specs.Inner.{code_at, EntriesReady};

use block::Counts;
use field::Parity;
use refusal::Refusal;
use telecine::Measured;

// So many bytes has an entry.
const ENTRY_BYTES: usize = 12;

// The numbers of an entry as they stand in the file, which may be others than an entry's; `good` says. Parity and
// present are numbers here, no Parity and no bool: `entry_of` and `good_entry` hold of any two.
#[derive(Clone, Copy, Debug, PartialEq, Eq)]
pub struct Entry {
    pub parity: u16,
    pub present: u16,
    pub leading: Counts,
    pub trailing: Counts,
}

fn byte_at(bytes: &[u8], i: usize) -> u16
    ensures { (result ≡ get_or bytes.now i 0) × (result < 256) }
{
    match bytes.get(i) {
        Some(byte) => u16::from(*byte),
        None => 0,
    }
}

// The number at a place of a unit: 16 bits, low byte first. A byte past the end counts as 0, which
// no from_le_bytes gives.
pub fn word_at(bytes: &[u8], i: u8) -> u16
    ensures { result ≡ word_at bytes.now i }
{
    let at = usize::from(i);
    byte_at(bytes, at) + 256 * byte_at(bytes, at + 1)
}

// The entry at the front of some bytes, which count as 0 past their end.
#[tactic(auto, unfolding(crate::specs::Entry::entry_of))]
pub fn entry_of(bytes: &[u8]) -> Entry
    ensures { result ≡ entry_of bytes.now }
{
    Entry {
        parity: word_at(bytes, 0),
        present: word_at(bytes, 2),
        leading: Counts {
            busy: u64::from(word_at(bytes, 4)),
            total: u64::from(word_at(bytes, 6)),
        },
        trailing: Counts {
            busy: u64::from(word_at(bytes, 8)),
            total: u64::from(word_at(bytes, 10)),
        },
    }
}

impl Entry {
    pub fn good(self) -> bool
        ensures { result ≡ good_entry self }
    {
        self.parity <= 1 && self.present <= 1
    }

    // The field that leads.
    pub fn first(self) -> Parity
        ensures { result ≡ parity_named self.parity }
    {
        Parity::named(u64::from(self.parity))
    }

    pub fn measured(self) -> Option<Measured>
        ensures { result ≡ measured_in self }
    {
        if self.present == 0 {
            None
        } else {
            Some(Measured {
                leading: self.leading,
                trailing: self.trailing,
            })
        }
    }
}

// ---- entries one after another, each by its number: so the clauses have it (`entry_at`, `every_below`, `listed`)

// Where the part's length is known, `entry_of` tests nothing at run time.
#[tactic(auto, using(crate::proofs::Entries::entry_there))]
fn entry_at(entries: &[u8], k: usize) -> Entry
    requires { 12 * k + 12 ≤ length entries.now }
    ensures { result ≡ entry_at entries.now k }
{
    let at = ENTRY_BYTES * k;
    entry_of(&entries[at..at + ENTRY_BYTES])
}

// Whether each of n entries names what it must.
#[tactic(auto, using(crate::proofs::Entries::one_more, crate::proofs::Entries::none_yet))]
fn all_good(entries: &[u8], n: usize) -> bool
    requires { 12 * n ≤ length entries.now }
    ensures { result ≡ every_below n (λ k. good_entry (entry_at entries.now k)) }
{
    let mut good = true;
    for judged in 0..n {
        good &= entry_at(entries, judged).good();
    }
    good
}

// Whether some bytes are entries that a fresh detector takes, with room for their cadences.
#[tactic(auto, unfolding(laws::specs::Refusal::lowest))]
fn judge(entries: &[u8], room: usize) -> Result<(), Refusal>
    ensures { no_of result ≡ cadences_no entries.now room }
{
    let n = entries.len() / ENTRY_BYTES;
    Refusal::Outside.unless(all_good(entries, n))?;
    Refusal::ShortInput.unless(entries.len() % ENTRY_BYTES == 0)?;
    Refusal::ShortOutput.unless(n <= room)?;
    Refusal::TooManyFrames.unless(n as u64 <= pulldown::MOST_FRAMES)
}

// What is seen of each of n entries that were judged, as a code. Codes are numbers from 0 to 4 that are written in
// place, where C reads the cadences afterwards.
#[tactic(auto, using(laws::proofs::Rows::over_none, laws::proofs::Rows::over_more, crate::proofs::Entries::code_given, crate::proofs::Entries::last_left), unfolding(crate::specs::Entry::earlier_than))]
fn write_codes(out: &mut [u8], entries: &[u8], n: usize)
    requires { EntriesReady n (length entries.now) (length out.old) }
    ensures { out.new ≡ over (listed n (code_at entries.now)) out.old }
{
    let mut last: Option<Parity> = None;
    for k in 0..n {
        let entry = entry_at(entries, k);
        let first = entry.first();
        let seen = telecine::seen_measured(last, first, entry.measured());
        out[k] = pulldown::seen_code(seen);
        last = Some(first);
    }
}

// The cadences of n entries that were judged. What lies behind them in the output stays.
#[tactic(auto, using(crate::proofs::Entries::none_refused, crate::proofs::Entries::all_written))]
fn write_cadences(out: &mut [u8], entries: &[u8], n: usize) -> Result<(), Refusal>
    requires { EntriesReady n (length entries.now) (length out.old) }
    ensures done { no_of result ≡ 0 }
    ensures out_after { out.new ≡ over (listed n (cadence_at entries.now)) out.old }
{
    write_codes(out, entries, n);
    pulldown::cadences_of(&mut out[..n])
}

// The cadence of each entry, from a fresh detector: 0 None, 1 Whole, 2 Drop, 3 Spanning. Refused with
// 3, 6, 7 and 9.
#[tactic(auto, using(laws::proofs::Refusal::written_done, laws::proofs::Refusal::stays, crate::proofs::Judged::passed))]
pub fn cadences(out: &mut [u8], entries: &[u8]) -> Result<(), Refusal>
    ensures value { no_of result ≡ cadences_no entries.now (length out.old) }
    ensures out_after { out.new ≡ written (no_of result) (over (cadences_of entries.now) out.old) out.old }
{
    judge(entries, out.len())?;
    write_cadences(out, entries, entries.len() / ENTRY_BYTES)
}
