// What a reel file says, as text (docs/RULES.md, "Reel file and listing"), and the program `cadence` a
// step at a time.
#![tactic(auto)]

ghost use Rattle.std.specs.Prelude.{◌≡◌, ◌++◌, ◌+◌, ◌≤◌, max, length};
ghost use Rattle.listing.specs.Listing.{decimal_of, cadence_word, lock_end, text_of, put_line, line_ends};
ghost use Rattle.listing.specs.Lines.{Room, Wrote, WroteLine};
ghost use Rattle.listing.specs.Steps.{reel_machine, start_lister, came_lister, program_of, ask_from, step_from};
ghost use Rattle.pages.specs.declared.Ask.TheVariants.{Unit};
ghost use Rattle.pages.specs.Run.{stepped_by};

use field::Cadence;
use pages::{Ask, Held};
use reel::{Reel, Said, Tally};

// No line is longer.
const LONGEST_LINE: usize = 128;

fn cadence_word(cadence: Cadence) -> &'static [u8]
    ensures { (result.now ≡ cadence_word cadence) × (length result.now ≤ 10) }
{
    match cadence {
        Cadence::None => b" none ",
        Cadence::Whole => b" whole ",
        Cadence::Drop => b" drop ",
        Cadence::Spanning => b" spanning ",
    }
}

fn lock_end(locked: bool) -> &'static [u8]
    ensures { (result.now ≡ lock_end locked) × (length result.now ≡ 2) }
{
    if locked { b"1\n" } else { b"0\n" }
}

// A lent buffer, and the place in it where the next text goes.
#[derive(Drop)]
struct Page<'a> {
    out: &'a mut [u8],
    at: usize,
}

impl Page<'_> {
    #[tactic(auto, unfolding(pages::specs::Pages::put))]
    fn add(&mut self, text: &[u8])
        requires { Room self.old (length text.now) }
        ensures { Wrote self.old self.new text.now }
    {
        let end = self.at + text.len();
        self.out[self.at..end].copy_from_slice(text);
        self.at = end;
    }

    // The digits have a length beside them: `io::decimal` gives them so.
    #[tactic(auto, using(crate::proofs::Decimal::spelled, crate::proofs::Decimal::few))]
    fn add_number(&mut self, n: u64)
        requires { Room self.old 20 }
        ensures { Wrote self.old self.new (decimal_of n) × (self.new.at ≤ self.old.at + 20) }
    {
        let mut digits = [0u8; 20];
        let k = io::decimal(n, &mut digits);
        self.add(&digits[..k]);
    }

    // A word, and a number.
    fn add_part(&mut self, word: &[u8], n: u64)
        requires { Room self.old (length word.now + 20) }
        ensures { Wrote self.old self.new (word.now ++ decimal_of n) × (self.new.at ≤ self.old.at + length word.now + 20) }
    {
        self.add(word);
        self.add_number(n);
    }

    fn frame_line(&mut self, n: u64, cadence: Cadence, locked: bool)
        requires { Room self.old 128 }
        ensures { WroteLine self.old self.new (Said.Frame n cadence locked) }
    {
        self.add_number(n);
        self.add(cadence_word(cadence));
        self.add(lock_end(locked));
    }

    fn fault_line(&mut self, no: u8)
        requires { Room self.old 128 }
        ensures { WroteLine self.old self.new (Said.Fault no) }
    {
        self.add_part(b"refused ", u64::from(no));
        self.add(b"\n");
    }

    fn totals_line(&mut self, tally: Tally)
        requires { Room self.old 128 }
        ensures { WroteLine self.old self.new (Said.Totals tally) }
    {
        self.add_part(b"whole ", tally.whole);
        self.add_part(b" drop ", tally.drop);
        self.add_part(b" spanning ", tally.spanning);
        self.add_part(b" none ", tally.none);
        self.add(b"\n");
    }

    #[tactic(auto, using(crate::proofs::Texts::wrote_nothing))]
    fn line(&mut self, said: Said)
        requires { Room self.old 128 }
        ensures { WroteLine self.old self.new said }
    {
        match said {
            Said::Quiet => {}
            Said::Frame(n, cadence, locked) => self.frame_line(n, cadence, locked),
            Said::Totals(tally) => self.totals_line(tally),
            Said::Fault(no) => self.fault_line(no),
        }
    }
}

// Puts the text of what was said at a place of a lent buffer, and answers where it ends. Where fewer
// than 128 bytes are left, nothing is written, and the place is the answer. No line is longer, so that
// the answer lies in the buffer if the place does.
pub fn write(out: &mut [u8], at: usize, said: Said) -> usize
    ensures value { result ≡ line_ends out.old at said }
    ensures out_after { out.new ≡ put_line out.old at said }
    ensures upper_bound { result ≤ max at (length out.old) }
{
    let room = out.len();
    if LONGEST_LINE <= room.saturating_sub(at) {
        let mut page = Page { out, at };
        page.line(said);
        page.at
    } else {
        at
    }
}

// ---- the program, a step at a time

// What the program `cadence` has between two steps, beside its buffer, its store and its page. Those are lent at each
// step, since there is no heap; what is held and what is used are kept here for them.
#[derive(Clone, Copy, Debug, PartialEq, Eq)]
pub struct Lister {
    pub reel: Reel,
    // What of the buffer is held.
    pub held: Held,
    // How much of the page is used.
    pub used: usize,
    // Whether the input has ended.
    pub ended: bool,
}

// What a step leaves, and what has to be done before the next one.
#[derive(Clone, Copy, Debug, PartialEq, Eq)]
pub struct Step {
    pub lister: Lister,
    pub ask: Ask,
}

impl Lister {
    pub fn start() -> Self
        ensures { result ≡ start_lister }
    {
        Self {
            reel: Reel::start(),
            held: Held::nothing(),
            used: 0,
            ended: false,
        }
    }

    // After a read put n bytes into the buffer, behind what is held; where none came, the input has ended.
    pub fn came(self, buffer: &[u8], n: usize) -> Self
        ensures { result ≡ came_lister self (length buffer.now) n }
    {
        Self {
            held: self.held.came(buffer, n),
            ended: n == 0,
            ..self
        }
    }

    // The next unit is read, and its line written.
    fn unit(self, buffer: &[u8], store: &mut [u8], page: &mut [u8]) -> Self
        requires { self.used + 128 ≤ length page.old }
        ensures { program_of result buffer.now store.new page.new ≡ stepped_by reel_machine Unit (program_of self buffer.now store.old page.old) }
    {
        let want = self.reel.want() as usize;
        let next = self.reel.next(store, self.held.unit(buffer, want));
        let mut lines = Page {
            out: page,
            at: self.used,
        };
        lines.line(next.said);
        Self {
            reel: next.reel,
            held: self.held.without(want),
            used: lines.at,
            ..self
        }
    }

    // One step: a unit is read and its line written, or what is held moves to the front for a read, or
    // the page is given out to be written.
    #[tactic(auto, using(pages::proofs::Parts::unit_room))]
    pub fn step(self, buffer: &mut [u8], store: &mut [u8], page: &mut [u8]) -> Step
        ensures ask_value { result.ask ≡ ask_from self buffer.old store.old page.old }
        ensures page_after { program_of result.lister buffer.new store.new page.new ≡ step_from self buffer.old store.old page.old }
    {
        let have = self.held.count(buffer);
        let want = self.reel.want() as usize;
        let ask = pages::next(have, self.ended, want, self.used, LONGEST_LINE, page.len());
        match ask {
            Ask::Unit => Step {
                lister: self.unit(buffer, store, page),
                ask,
            },
            Ask::Read(_) => {
                let front = self.held.front(buffer);
                Step {
                    lister: Self {
                        held: front,
                        ..self
                    },
                    ask,
                }
            }
            Ask::Write(_) => Step {
                lister: Self { used: 0, ..self },
                ask,
            },
            Ask::Stop => Step { lister: self, ask },
        }
    }
}
