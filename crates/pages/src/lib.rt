// What a program needs that reads a file by units and writes pages: what it holds of the file in a lent
// buffer, how that is moved to the front and a unit is cut off, and what has to be done next. It knows
// nothing of what a unit means.
#![tactic(auto)]

ghost use Rattle.std.specs.Prelude.{◌≡◌, ◌+◌, ◌-◌, ◌≤◌, min, leb, length, take, drop};
ghost use Rattle.laws.specs.Rows.{over};
ghost use Rattle.pages.specs.Pages.{nothing_held, held_of, front_of, came_of, without_of, ask_of};

// What was read and not yet used lies from one place of the buffer up to another.
#[derive(Clone, Copy, Debug, PartialEq, Eq)]
pub struct Held {
    pub from: usize,
    pub to: usize,
}

// What has to be done next: a unit can be read; more has to come into the buffer from a place on; so
// much of the page has to be written out; or nothing is left to do.
#[derive(Clone, Copy, Debug, PartialEq, Eq)]
pub enum Ask {
    Unit,
    Read(usize),
    Write(usize),
    Stop,
}

impl Held {
    pub fn nothing() -> Self
        ensures { result ≡ nothing_held }
    {
        Self { from: 0, to: 0 }
    }

    // How many bytes are held.
    pub fn count(self, buffer: &[u8]) -> usize
        ensures { result ≡ length (held_of self buffer.now) }
    {
        self.to.min(buffer.len()).saturating_sub(self.from)
    }

    // Moves what is held to the front of the buffer. What lies behind stays.
    #[tactic(auto, using(crate::proofs::Parts::fronted))]
    pub fn front(self, buffer: &mut [u8]) -> Self
        ensures value { result ≡ front_of self buffer.old }
        ensures buffer_after { buffer.new ≡ over (held_of self buffer.old) buffer.old }
    {
        let end = self.to.min(buffer.len());
        let start = self.from.min(end);
        buffer.copy_within(start..end, 0);
        Self {
            from: 0,
            to: end - start,
        }
    }

    // After n bytes came into the buffer, behind what is held; no more than there was room for.
    pub fn came(self, buffer: &[u8], n: usize) -> Self
        ensures { result ≡ came_of self (length buffer.now) n }
    {
        let room = buffer.len().saturating_sub(self.to);
        Self {
            to: self.to + n.min(room),
            ..self
        }
    }

    // A unit of n bytes, or all that is held.
    pub fn unit<'a>(self, buffer: &'a [u8], n: usize) -> &'a [u8]
        ensures { result.now ≡ take n (held_of self buffer.now) }
    {
        let end = self.to.min(buffer.len());
        let held = &buffer[self.from.min(end)..end];
        &held[..n.min(held.len())]
    }

    // What is held after a unit of n bytes was used.
    pub fn without(self, n: usize) -> Self
        ensures { result ≡ without_of self n }
    {
        let held = self.to.saturating_sub(self.from);
        Self {
            from: self.from + n.min(held),
            ..self
        }
    }
}

// Whether so many bytes more have room in a page.
pub fn has_room(page: usize, used: usize, most: usize) -> bool
    ensures { result ≡ leb (used + most) page }
{
    used <= page && most <= page - used
}

// What has to be done next: `have` bytes are held, the input has `ended` or not, the next unit has
// `want` bytes, 0 for none, and `used` bytes of a page stand there, to which a unit adds at most `most`.
#[tactic(auto, unfolding(crate::specs::Pages::ask_of))]
pub fn next(have: usize, ended: bool, want: usize, used: usize, most: usize, page: usize) -> Ask
    ensures { result ≡ ask_of have ended want used most page }
{
    if want == 0 {
        if used == 0 {
            return Ask::Stop;
        }
        return Ask::Write(used);
    }
    if has_room(page, used, most) {
        if ended | (want <= have) {
            return Ask::Unit;
        }
        return Ask::Read(have);
    }
    Ask::Write(used)
}
