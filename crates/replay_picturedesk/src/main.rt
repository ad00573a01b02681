// Made by tools/calls of the file in crates/replay_desk; not to be changed by hand. A copy and not a library: a public
// function has a contract that settles its answer, and none can speak of what is read and printed.
// Program `replay_picturedesk`: makes every call of a list of answers again, and prints how many were compared and
// how many differ. The list is standard input, a record after another; `answers` says what a record is, and
// host/differ/src/answers.rs made the list from the original. A record that differs is told at once, and a
// list that is cut or names no call ends the run with a line that says so. Records are counted from 1. The
// last line is the count of a list that was read to its end; of a list that is empty or broken it says that
// nothing is shown.
#![tactic(auto)]

mod calls;
mod list;

use calls::Call;
use list::{Fault, List, Record};
use std::fmt;

// ---- lines

// How many records were compared, and how many of them differ.
#[derive(Clone, Copy, Debug, PartialEq, Eq)]
struct Count {
    compared: u64,
    differ: u64,
}

// The record at which the list cannot be read on, and why.
#[derive(Clone, Copy, Debug, PartialEq, Eq)]
struct Broken {
    record: u64,
    fault: Fault,
}

impl fmt::Display for Count {
    fn fmt<W: fmt::Write>(&self, f: &mut fmt::Formatter<W>) -> fmt::Result {
        let Count { compared, differ } = *self;
        write!(f, "{compared} compared, {differ} differ")
    }
}

impl fmt::Display for Broken {
    fn fmt<W: fmt::Write>(&self, f: &mut fmt::Formatter<W>) -> fmt::Result {
        let record = self.record;
        match self.fault {
            Fault::Cut { size, came } => {
                write!(
                    f,
                    "the list ends inside record {record}; expected {size} bytes, {came} came"
                )
            }
            Fault::Size(size) => {
                write!(
                    f,
                    "record {record} has {size} bytes by its head; expected 32 to 65536"
                )
            }
            Fault::Call(number) => {
                let calls = Call::COUNT;
                write!(
                    f,
                    "record {record} names call {number}; expected one below {calls}"
                )
            }
        }
    }
}

// The last lines of a list that was read to its end. Where it had no record, nothing is shown. What cannot be written
// is left out, here and below, and the next is tried: nobody is left to be told.
fn tell_end(rt: &impl Print, count: Count) {
    let _ = println!(rt; "{count}");
    if count.compared == 0 {
        let _ = println!(rt;
            "not passed: the list is empty; expected a record for each of the {} calls",
            Call::COUNT
        );
    }
}

// And of one that was not.
fn tell_broken(rt: &impl Print, count: Count, broken: Broken) {
    let _ = println!(rt; "{broken}");
    let _ = println!(rt; "{count}");
    let _ = println!(rt;
        "not passed: the list is broken at record {}",
        broken.record
    );
}

// ---- the calls

fn run(rt: &impl Print) {
    let mut list = List::new();
    let mut state = [165u8; 256];
    let mut store = [165u8; 8192];
    let mut differ: u64 = 0;
    // No list is as long as is counted up to here.
    for compared in 0..u64::MAX {
        let record = compared + 1;
        match list.take() {
            Ok(Some(Record { call, answer })) => {
                if !call.replayed(answer, &mut state, &mut store) {
                    let _ = println!(rt; "differs: {call}, record {record}");
                    differ = differ.saturating_add(1);
                }
            }
            Ok(None) => return tell_end(rt, Count { compared, differ }),
            Err(fault) => {
                return tell_broken(rt, Count { compared, differ }, Broken { record, fault });
            }
        }
    }
}

fn main(rt: HostRuntime) {
    run(&rt);
}
