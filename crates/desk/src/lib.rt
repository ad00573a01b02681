// What the capture desk's Rust host calls: functions on numbers and byte slices, exported by their
// plain names. Each answers with the number of docs/RULES.md, "What the desk gets back"; a value goes
// to a lent place, which a refusal leaves as it was. host/desk declares them for Rust; tools/calls makes
// the declarations from these files, and its --check holds them to these.
#![tactic(auto, unfolding(laws::specs::Refusal::lowest))]

pub mod colours;
pub mod combs;
pub mod fields;
pub mod filters;
pub mod planes;
