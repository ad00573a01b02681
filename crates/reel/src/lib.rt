// The reel file (docs/RULES.md, "Reel file and listing"), read a unit at a time: each count, the shape,
// each entry and picture, and the end. A unit says at most one thing, and nothing is written here.
#![tactic(auto)]

ghost use Rattle.std.specs.Prelude.{◌≡◌, [], ◌∷◌, ◌<◌, leb};
ghost use Rattle.laws.specs.Refusal.{lowest};
ghost use Rattle.refusal.specs.Refusal.{no_of};
ghost use Rattle.plane.specs.Plane.{good_shape, grid_shape};
ghost use Rattle.numbers.specs.Inner.{cut_grid};
ghost use Rattle.reel.specs.Reel.{shape_in, picture_bytes, picture_count_tests};
ghost use Rattle.reel.specs.Machine.{start_of, want_of, on_to, close, tallied_in, shape_count_of, shape_numbers_of, entry_count_of, entry_unit_of, picture_count_of, picture_unit_of, picture_store, end_of, next_of, store_after};
ghost use Rattle.reel.specs.Inner.{cut_pictured, closed, pushed_as};

use entry::word_at;
use field::{Cadence, Parity};
use numbers::GridNumbers;
use plane::{Grid, Shape};
use refusal::Refusal;
use telecine::{Detector, Pushed};

// What the file's pictures look like.
#[derive(Clone, Copy, Debug, PartialEq, Eq)]
pub struct Pictured {
    pub shape: Grid,
    // The field that leads.
    pub first: Parity,
}

// How many frames had each cadence.
#[derive(Clone, Copy, Debug, Default, PartialEq, Eq)]
pub struct Tally {
    pub whole: u64,
    pub drop: u64,
    pub spanning: u64,
    pub none: u64,
}

// What is read next: after the last entry the count of pictures, after the last picture the end.
#[derive(Clone, Copy, Debug, PartialEq, Eq)]
pub enum Stage {
    ShapeCount,
    ShapeNumbers,
    EntryCount,
    Entries(u16),
    Pictures(u16),
    Done,
}

#[derive(Clone, Copy, Debug, PartialEq, Eq)]
pub struct Reel {
    pub stage: Stage,
    // Nothing where no shape is given, and as long as none was read.
    pub pictured: Option<Pictured>,
    pub detector: Detector,
    pub tally: Tally,
}

// What a unit leads to: nothing; a frame, with its number, its cadence, and whether there is a lock;
// the totals; or a fault.
#[derive(Clone, Copy, Debug, PartialEq, Eq)]
pub enum Said {
    Quiet,
    Frame(u64, Cadence, bool),
    Totals(Tally),
    // A number, and no `Refusal`: `listing::write` takes any, and `TellsWhatWasSaid` of `cadence` speaks of 0 to 9.
    Fault(u8),
}

#[derive(Clone, Copy, Debug, PartialEq, Eq)]
pub struct Next {
    pub reel: Reel,
    pub said: Said,
}

#[tactic(auto, unfolding(crate::specs::Reel::shape_in))]
fn shape_in(unit: &[u8]) -> Grid
    ensures { result ≡ cut_grid (shape_in unit.now) }
{
    numbers::grid_named(GridNumbers {
        width: u32::from(word_at(unit, 0)),
        height: u32::from(word_at(unit, 2)),
        depth: u32::from(word_at(unit, 4)),
        stride: u32::from(word_at(unit, 6)),
    })
}

fn pictured_in(unit: &[u8]) -> Pictured
    ensures { result ≡ cut_pictured unit.now }
{
    Pictured {
        shape: shape_in(unit),
        first: Parity::named(u64::from(word_at(unit, 8))),
    }
}

// None where no shape is given.
fn picture_bytes(pictured: Option<Pictured>) -> u64
    ensures { result ≡ picture_bytes pictured }
{
    pictured.map_or(0, |p| u64::from(p.shape.height) * u64::from(p.shape.stride))
}

#[tactic(auto, unfolding(laws::specs::Refusal::lowest))]
fn judge_shape(shape: Grid, parity: u16) -> Result<(), Refusal>
    ensures { no_of result ≡ lowest ((3, leb parity 1) ∷ (4, good_shape (grid_shape shape)) ∷ []) }
{
    Refusal::Outside.unless(parity <= 1)?;
    Refusal::Shape.unless(Shape::from(shape).is_good())
}

#[tactic(auto, unfolding(laws::specs::Refusal::lowest))]
fn judge_picture_count(pictured: Option<Pictured>, n: u16) -> Result<(), Refusal>
    ensures { no_of result ≡ lowest (picture_count_tests pictured n) }
{
    let none = n == 0;
    let small = picture_bytes(pictured) <= 16384;
    Refusal::Outside.unless(none || pictured.is_some())?;
    Refusal::ShortOutput.unless(none || small)
}

impl Tally {
    fn add(self, cadence: Cadence) -> Self
        ensures { result ≡ tallied_in cadence self }
    {
        match cadence {
            Cadence::Whole => Self {
                whole: self.whole.saturating_add(1),
                ..self
            },
            Cadence::Drop => Self {
                drop: self.drop.saturating_add(1),
                ..self
            },
            Cadence::Spanning => Self {
                spanning: self.spanning.saturating_add(1),
                ..self
            },
            Cadence::None => Self {
                none: self.none.saturating_add(1),
                ..self
            },
        }
    }
}

impl Reel {
    pub fn start() -> Self
        ensures { result ≡ start_of }
    {
        Self {
            stage: Stage::ShapeCount,
            pictured: None,
            detector: Detector::new(),
            tally: Tally::default(),
        }
    }

    // How many bytes the next unit has; 0 once the file has been judged.
    #[tactic(auto, unfolding(crate::specs::Machine::want_of))]
    pub fn want(self) -> u64
        ensures { result ≡ want_of self }
    {
        match self.stage {
            Stage::ShapeCount => 2,
            Stage::ShapeNumbers => 10,
            Stage::EntryCount => 2,
            Stage::Entries(0) => 2,
            Stage::Entries(_) => 12,
            Stage::Pictures(0) => 1,
            Stage::Pictures(_) => picture_bytes(self.pictured),
            Stage::Done => 0,
        }
    }

    fn on_to(self, stage: Stage) -> Next
        ensures { result ≡ on_to self stage }
    {
        Next {
            reel: Self { stage, ..self },
            said: Said::Quiet,
        }
    }

    fn close(self, said: Said) -> Next
        ensures { result ≡ close self said }
    {
        Next {
            reel: Self {
                stage: Stage::Done,
                ..self
            },
            said,
        }
    }

    // After a frame was pushed. A refusal would close the file too, but no file of bytes meets one
    // (proofs/Known.antt).
    #[tactic(auto, unfolding(crate::specs::Inner::pushed_as))]
    fn pushed(self, stage: Stage, pushed: Pushed) -> Result<Next, Refusal>
        ensures { closed self result ≡ pushed_as self stage pushed }
    {
        let cadence = pushed.answer?;
        Ok(Next {
            reel: Self {
                stage,
                detector: pushed.detector,
                tally: self.tally.add(cadence),
                ..self
            },
            said: Said::Frame(
                self.detector.lock.course.taken,
                cadence,
                pushed.detector.locked(),
            ),
        })
    }

    // ---- a unit of each stage; `next` closes the file where one is refused

    #[tactic(auto, unfolding(crate::specs::Machine::shape_count_of, laws::specs::Refusal::lowest))]
    fn shape_count(self, unit: &[u8]) -> Result<Next, Refusal>
        ensures { closed self result ≡ shape_count_of self unit.now }
    {
        Refusal::ShortInput.unless(2 <= unit.len())?;
        match word_at(unit, 0) {
            0 => Ok(self.on_to(Stage::EntryCount)),
            5 => Ok(self.on_to(Stage::ShapeNumbers)),
            _ => Err(Refusal::Outside),
        }
    }

    #[tactic(auto, using(crate::proofs::Pushes::closes, crate::proofs::Pushes::goes_on, crate::proofs::Cut::judged_cut, crate::proofs::Cut::uncut), unfolding(crate::specs::Machine::shape_numbers_of))]
    fn shape_numbers(self, unit: &[u8]) -> Result<Next, Refusal>
        ensures { closed self result ≡ shape_numbers_of self unit.now }
    {
        Refusal::ShortInput.unless(10 <= unit.len())?;
        let pictured = pictured_in(unit);
        judge_shape(pictured.shape, word_at(unit, 8))?;
        let reel = Self {
            pictured: Some(pictured),
            ..self
        };
        Ok(reel.on_to(Stage::EntryCount))
    }

    #[tactic(auto, unfolding(crate::specs::Machine::entry_count_of))]
    fn entry_count(self, unit: &[u8]) -> Result<Next, Refusal>
        ensures { closed self result ≡ entry_count_of self unit.now }
    {
        Refusal::ShortInput.unless(2 <= unit.len())?;
        Ok(self.on_to(Stage::Entries(word_at(unit, 0))))
    }

    // The first of n entries. Counts leave the store alone, and what it holds does not matter.
    #[tactic(auto, using(crate::proofs::Pushes::entry_leads), unfolding(crate::specs::Machine::entry_unit_of, laws::specs::Refusal::lowest))]
    fn entry_unit(self, n: u16, unit: &[u8]) -> Result<Next, Refusal>
        requires { 0 < n }
        ensures { closed self result ≡ entry_unit_of self n [] unit.now }
    {
        Refusal::ShortInput.unless(12 <= unit.len())?;
        let entry = entry::entry_of(unit);
        Refusal::Outside.unless(entry.good())?;
        let pushed = self.detector.push_measured(entry.first(), entry.measured());
        self.pushed(Stage::Entries(n - 1), pushed)
    }

    #[tactic(auto, using(crate::proofs::Pushes::closes, crate::proofs::Pushes::goes_on), unfolding(crate::specs::Machine::picture_count_of))]
    fn picture_count(self, unit: &[u8]) -> Result<Next, Refusal>
        ensures { closed self result ≡ picture_count_of self unit.now }
    {
        Refusal::ShortInput.unless(2 <= unit.len())?;
        let n = word_at(unit, 0);
        judge_picture_count(self.pictured, n)?;
        Ok(self.on_to(Stage::Pictures(n)))
    }

    // The first of n pictures. Where no shape is given none is counted; one that came all the same would have
    // a shape of 0 rows.
    #[tactic(auto, using(crate::proofs::Pushes::picture_leads, crate::proofs::Pushes::picture_kept, crate::proofs::Pushes::short_closes, crate::proofs::Pushes::short_keeps, crate::proofs::Pushes::shapeless_closes, crate::proofs::Pushes::shapeless_keeps))]
    fn picture_unit(self, n: u16, store: &mut [u8], unit: &[u8]) -> Result<Next, Refusal>
        requires { 0 < n }
        ensures value { closed self result ≡ picture_unit_of self n store.old unit.now }
        ensures store_after { store.new ≡ picture_store self store.old unit.now }
    {
        let Some(pictured) = self.pictured else {
            return Err(Refusal::Shape);
        };
        Refusal::ShortInput.unless(picture_bytes(self.pictured) <= unit.len() as u64)?;
        let pushed = self
            .detector
            .push(unit, pictured.shape, pictured.first, store);
        self.pushed(Stage::Pictures(n - 1), pushed)
    }

    #[tactic(auto, unfolding(crate::specs::Machine::end_of))]
    fn end(self, unit: &[u8]) -> Result<Next, Refusal>
        ensures { closed self result ≡ end_of self unit.now }
    {
        Refusal::Outside.unless(unit.is_empty())?;
        Ok(self.close(Said::Totals(self.tally)))
    }

    #[tactic(auto, using(crate::proofs::Pushes::any_store), unfolding(crate::specs::Machine::next_of, crate::specs::Machine::store_after))]
    fn unit(self, store: &mut [u8], unit: &[u8]) -> Result<Next, Refusal>
        ensures value { closed self result ≡ next_of self store.old unit.now }
        ensures store_after { store.new ≡ store_after self store.old unit.now }
    {
        match self.stage {
            Stage::ShapeCount => self.shape_count(unit),
            Stage::ShapeNumbers => self.shape_numbers(unit),
            Stage::EntryCount => self.entry_count(unit),
            Stage::Entries(0) => self.picture_count(unit),
            Stage::Entries(n) => self.entry_unit(n, unit),
            Stage::Pictures(0) => self.end(unit),
            Stage::Pictures(n) => self.picture_unit(n, store, unit),
            Stage::Done => Ok(Next {
                reel: self,
                said: Said::Quiet,
            }),
        }
    }

    // What a unit leads to: as many bytes as are wanted, or what is left of the file. The store keeps
    // the last picture.
    pub fn next(self, store: &mut [u8], unit: &[u8]) -> Next
        ensures { (result ≡ next_of self store.old unit.now) × (store.new ≡ store_after self store.old unit.now) }
    {
        self.unit(store, unit)
            .unwrap_or_else(|refusal| self.close(Said::Fault(refusal.number())))
    }
}
