// Made by tools/calls of the file in crates/replay_desk; not to be changed by hand. A copy and not a library: a public
// function has a contract that settles its answer, and none can speak of what is read and printed.
// The list: its records one after another, off standard input.
use crate::calls::Call;
use pages::Held;

// The bytes of a record's head, and of the longest record.
const HEAD: usize = 32;

const LONGEST: usize = 65536;

// What was read of the list, and what of that is not yet used.
#[derive(Drop)]
pub struct List {
    buffer: [u8; LONGEST],
    held: Held,
}

#[derive(Clone, Copy, Debug, PartialEq, Eq)]
pub struct Record<'a> {
    pub call: Call,
    pub answer: &'a [u8],
}

// Why a list cannot be read on.
#[derive(Clone, Copy, Debug, PartialEq, Eq)]
pub enum Fault {
    // It ends inside a record of this size.
    Cut { size: usize, came: usize },
    // A record has a size, by its head, that none has.
    Size(u64),
    // A record names no call.
    Call(u64),
}

impl List {
    pub fn new() -> List {
        List {
            buffer: [0; LONGEST],
            held: Held::nothing(),
        }
    }

    // Reads until n bytes are held, or all that is left of the list, and answers how many are.
    fn hold(&mut self, n: usize) -> usize {
        let have = self.held.count(&self.buffer);
        if have < n {
            self.held = self.held.front(&mut self.buffer);
            let came = io::read_full(0, &mut self.buffer[have..]);
            self.held = self.held.came(&self.buffer, came);
        }
        self.held.count(&self.buffer)
    }

    // Takes the next record, whose head says its size. The list may end here, with none.
    pub fn take(&mut self) -> Result<Option<Record<'_>>, Fault> {
        let came = self.hold(HEAD);
        if came == 0 {
            return Ok(None);
        }
        if came < HEAD {
            return Err(Fault::Cut { size: HEAD, came });
        }
        let size = packed::number_at(self.held.unit(&self.buffer, HEAD), 0);
        if !(HEAD as u64..=LONGEST as u64).contains(&size) {
            return Err(Fault::Size(size));
        }
        let size = size as usize;
        let came = self.hold(size);
        if came < size {
            return Err(Fault::Cut { size, came });
        }
        let held = self.held;
        self.held = held.without(size);
        let answer = held.unit(&self.buffer, size);
        let call = Call::try_from(packed::number_at(answer, 1)).map_err(Fault::Call)?;
        Ok(Some(Record { call, answer }))
    }
}
