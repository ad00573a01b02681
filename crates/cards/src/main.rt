// Program `cards`: runs the bench cards of docs/RULES.md. Standard input is the list of what that page
// says of each, a line `NAME: ANSWER` (crates/cards/stdin). Of each card a line is printed, `NAME: ok`, or
// what came and the list's line in its place; at the end, how many were run and how many differ. Those
// that are proved (specs/Cards.antt) are run too.
#![tactic(auto)]

ghost use Rattle.std.specs.Prelude.{◌≡◌, ◌≤◌, ℕ, List, ◌∷◌, Some};
ghost use Rattle.telecine.specs.History.{Call};
ghost use Rattle.cards.specs.Cards.{measured_busy, entry, to_entry0, to_entry9, detector_after};

use block::Counts;
use field::{Cadence, Parity};
use plane::{Grid, Layout, Shape};
use pulldown::{Lock, Symbol};
use refusal::Refusal;
use telecine::{Detector, Measured};

// ---- lines

const REFUSED: &[u8] = b"a refusal";

// Where to print, what is left of the list, whose next line is the next card's, and how many cards were run and differ.
#[derive(Drop)]
struct Bench<'a, P> {
    out: &'a P,
    list: &'a [u8],
    run: u64,
    differ: u64,
}

// These words and a symbol's are what `{:?}` prints, as bytes to compare with the list's: with no heap, printed text cannot be held.
fn cadence_word(cadence: Cadence) -> &'static [u8] {
    match cadence {
        Cadence::None => b"None",
        Cadence::Whole => b"Whole",
        Cadence::Drop => b"Drop",
        Cadence::Spanning => b"Spanning",
    }
}

fn symbol_word(symbol: Symbol) -> &'static [u8] {
    match symbol {
        Symbol::Still => b"Still",
        Symbol::Moved => b"Moved",
        Symbol::RepeatFirst => b"RepeatFirst",
        Symbol::RepeatSecond => b"RepeatSecond",
    }
}

impl<'a, P: Print> Bench<'a, P> {
    fn next_line(&mut self) -> &'a [u8] {
        let list = self.list;
        match list.iter().position(|byte| *byte == b'\n') {
            Some(end) => {
                self.list = &list[end + 1..];
                &list[..end]
            }
            None => {
                self.list = &list[list.len()..];
                list
            }
        }
    }

    // What cannot be written is left out, and the next is tried: nobody is left to be told.
    fn tell(&mut self, name: &str, came: &[u8]) {
        let line = self.next_line();
        let says = line
            .strip_prefix(name.as_bytes())
            .and_then(|rest| rest.strip_prefix(b": "));
        self.run = self.run.saturating_add(1);
        if says == Some(came) {
            let _ = println!(self.out; "{name}: ok");
            return;
        }
        self.differ = self.differ.saturating_add(1);
        let _ = print!(self.out; "{name}: ");
        let _ = self.out.write_all(came);
        let _ = print!(self.out; ", expected '");
        // A line of the list need not be text.
        let _ = self.out.write_all(line);
        let _ = println!(self.out; "'");
    }

    fn tell_number(&mut self, name: &str, came: u64) {
        // Room for any number, since there is no heap to print it to.
        let mut text = [0u8; 20];
        let n = io::decimal(came, &mut text);
        self.tell(name, &text[..n]);
    }

    fn tell_answer(&mut self, name: &str, came: Result<Cadence, Refusal>) {
        self.tell(name, came.map_or(REFUSED, cadence_word));
    }

    fn tell_all(&mut self) {
        if !self.list.is_empty() {
            let _ = println!(self.out; "the list goes on after the last card");
        }
        let _ = println!(self.out; "{} cards, {} differ", self.run, self.differ);
    }
}

// ---- the detector

// What is left after some stills, and after how many of them there was a lock.
#[derive(Clone, Copy, Debug, PartialEq, Eq)]
struct Stills {
    detector: Detector,
    kept: u64,
}

fn busy(first: u64, second: u64) -> Option<Measured>
    ensures { result ≡ measured_busy first second }
{
    Some(Measured {
        leading: Counts {
            busy: first,
            total: 1350,
        },
        trailing: Counts {
            busy: second,
            total: 1350,
        },
    })
}

// Takes one entry more.
#[tactic(auto, unfolding(crate::specs::Cards::detector_after))]
fn entry(detector: Detector, first: u64, second: u64) -> Detector
    ensures { (calls : List Call) → detector ≡ detector_after calls → result ≡ detector_after (entry first second ∷ calls) }
{
    detector
        .push_measured(Parity::Top, busy(first, second))
        .detector
}

#[tactic(auto, unfolding(crate::specs::Cards::detector_after))]
fn after_entry_0() -> Detector
    ensures { result ≡ detector_after to_entry0 }
{
    Detector::new().push_measured(Parity::Top, None).detector
}

fn after_entry_9() -> Detector
    ensures { result ≡ detector_after to_entry9 }
{
    // One by one, since what each ensures adds one call to the theorem's list; over an array that would take an invariant of its own.
    let detector = entry(after_entry_0(), 0, 40);
    let detector = entry(detector, 40, 40);
    let detector = entry(detector, 40, 0);
    let detector = entry(detector, 40, 40);
    let detector = entry(detector, 40, 40);
    let detector = entry(detector, 0, 40);
    let detector = entry(detector, 40, 40);
    let detector = entry(detector, 40, 0);
    entry(detector, 40, 40)
}

// So many stills after entry 9, which is a moved frame with the lock on it.
fn after_stills(n: u64) -> Stills
    ensures { result.kept ≤ n }
{
    let mut detector = after_entry_9();
    let mut kept = 0;
    for _taken in 0..n {
        detector = entry(detector, 0, 0);
        kept += u64::from(detector.locked());
    }
    Stills { detector, kept }
}

impl<P: Print> Bench<'_, P> {
    fn ahead_cards(&mut self) {
        let detector = after_entry_9();
        self.tell_answer("after entry 9, ahead 0", detector.predict(0));
        self.tell_answer("after entry 9, ahead 4", detector.predict(4));
        self.tell_answer("after entry 9, ahead 6", detector.predict(6));
    }

    fn still_cards(&mut self) {
        self.tell_number(
            "stills that keep a lock on a moved frame",
            after_stills(12).kept,
        );
        let twelfth = after_stills(11)
            .detector
            .push_measured(Parity::Top, busy(0, 0));
        self.tell_answer("the twelfth still", twelfth.answer);
    }
}

// ---- the clean pattern

const PATTERN: [Symbol; 5] = [
    Symbol::Moved,
    Symbol::Moved,
    Symbol::RepeatFirst,
    Symbol::Moved,
    Symbol::RepeatSecond,
];

// Frame n of the pattern that starts at a step.
fn pattern(step: u64, n: u64) -> Symbol {
    PATTERN[((step % 5 + n % 5) % 5) as usize]
}

// At which of 15 frames of the pattern a fresh lock is locked first, counted from 1.
fn locks_from(step: u64) -> Option<u64>
    ensures { (n : ℕ) → result ≡ Some n → n ≤ 15 }
{
    let mut lock = Lock::new();
    for n in 0..15 {
        lock = lock.push(Some(pattern(step, n))).lock;
        if lock.locked() {
            return Some(n + 1);
        }
    }
    None
}

// The cards of the five steps, in their order.
const PATTERN_CARDS: [&str; 5] = [
    "frame at which the clean pattern from step 0 locks",
    "frame at which the clean pattern from step 1 locks",
    "frame at which the clean pattern from step 2 locks",
    "frame at which the clean pattern from step 3 locks",
    "frame at which the clean pattern from step 4 locks",
];

impl<P: Print> Bench<'_, P> {
    // Of none, 0 is told.
    fn pattern_cards(&mut self) {
        for (step, name) in PATTERN_CARDS.iter().enumerate() {
            self.tell_number(name, locks_from(step as u64).unwrap_or(0));
        }
    }
}

// ---- blocks

// The busy blocks of the top field of a frame with one block in each field. The first n of the field's
// 128 samples are 9, and the kept frame is blank.
fn busy_with(n: usize) -> Result<Counts, Refusal>
    requires { n ≤ 128 }
{
    let mut frame = [0u8; 256];
    for i in 0..n {
        frame[i / 16 * 32 + i % 16] = 9;
    }
    let grid = Grid {
        width: 16,
        height: 16,
        depth: 8,
        stride: 16,
    };
    block::count(&frame, grid, &[0u8; 256], Parity::Top)
}

fn busy_word(counts: Counts) -> &'static [u8] {
    if counts.busy == 0 {
        b"not busy"
    } else {
        b"busy"
    }
}

impl<P: Print> Bench<'_, P> {
    fn busy_cards(&mut self) {
        self.tell("33 of 128 differ", busy_with(33).map_or(REFUSED, busy_word));
        self.tell("32 of 128 differ", busy_with(32).map_or(REFUSED, busy_word));
    }
}

// ---- symbols

// The least count of the second field with which the first, itself at 0, repeats.
fn moving_of(blocks: u64) -> u64 {
    (0..blocks)
        .find(|n| pulldown::classify_counts(0, blocks, *n) == Symbol::RepeatFirst)
        .unwrap_or(blocks)
}

// The largest count of the first field with which it repeats where all of the second are busy.
fn quiet_of(blocks: u64) -> u64 {
    (0..blocks)
        .find(|n| pulldown::classify_counts(*n + 1, blocks, blocks) != Symbol::RepeatFirst)
        .unwrap_or(blocks)
}

impl<P: Print> Bench<'_, P> {
    fn symbol_cards(&mut self) {
        self.tell(
            "100 blocks, counts 1 and 4",
            symbol_word(pulldown::classify_counts(1, 100, 4)),
        );
        self.tell(
            "100 blocks, counts 2 and 4",
            symbol_word(pulldown::classify_counts(2, 100, 4)),
        );
        self.tell(
            "100 blocks, counts 3 and 3",
            symbol_word(pulldown::classify_counts(3, 100, 3)),
        );
    }

    fn threshold_cards(&mut self) {
        self.tell_number("8160 blocks, moving", moving_of(8160));
        self.tell_number("8160 blocks, quiet", quiet_of(8160));
    }
}

// ---- samples

// One sample of ten bits.
fn ten_bits(layout: Layout) -> Shape {
    Shape {
        width: 1,
        height: 1,
        depth: 10,
        stride: 2,
        layout,
    }
}

fn value_word(value: f32) -> &'static [u8] {
    if value == 1.0 {
        b"1.0"
    } else {
        b"another value"
    }
}

impl<P: Print> Bench<'_, P> {
    fn comb_card(&mut self) {
        let name = "10, 20, 10 in one column, comb";
        match comb::comb(&[10u8, 20, 10], 1, 3, 8, 1) {
            Ok(total) => self.tell_number(name, total),
            Err(_) => self.tell(name, REFUSED),
        }
    }

    fn value_card(&mut self) {
        let value = plane::at(&[255u8, 3], ten_bits(Layout::Planar), 0, 0);
        self.tell(
            "ten bits, bytes FF 03 read",
            value.map_or(REFUSED, value_word),
        );
    }

    fn code_card(&mut self) {
        let name = "ten bits, bytes C0 FF shifted by 6";
        match plane::code(&[192u8, 255], ten_bits(Layout::Luma), 0, 0) {
            Ok(code) => self.tell_number(name, u64::from(code)),
            Err(_) => self.tell(name, REFUSED),
        }
    }

    fn quantise_cards(&mut self) {
        self.tell_number("quantise 0.5", u64::from(colour::quantise(0.5)));
        self.tell_number("quantise 1.0", u64::from(colour::quantise(1.0)));
    }
}

fn run(out: &(impl Print + Drop), list: &[u8]) {
    let mut bench = Bench {
        out,
        list,
        run: 0,
        differ: 0,
    };
    bench.busy_cards();
    bench.symbol_cards();
    bench.pattern_cards();
    bench.comb_card();
    bench.ahead_cards();
    bench.still_cards();
    bench.threshold_cards();
    bench.value_card();
    bench.code_card();
    bench.quantise_cards();
    bench.tell_all();
}

fn main(rt: HostRuntime) {
    // Room for the longest list that is read, since there is no heap for it.
    let mut buffer = io::buffer();
    let n = io::read_full(0, &mut buffer);
    run(&rt, &buffer[..n]);
}
