// Document 01, "Running, counting, folding": runs, counts, and the masks and flips that the wires hold.
#![tactic(auto)]

mod counter;
mod runner;
mod walker;

pub use counter::{count, count_gates, scored};
pub use runner::run;
pub use walker::{held_at, invert, mix, own_held, pass};

// The most wires that a circuit has.
pub const WIRES: usize = 10;

// As many masks as that many wires can hold: 2^10.
pub const MASKS: usize = 1024;

// What a run answers: the end state and the total phase.
#[derive(Clone, Copy, PartialEq, Eq)]
pub struct Ran {
    pub state: u16,
    pub phase: u16,
}

// What the count answers.
#[derive(Clone, Copy, PartialEq, Eq)]
pub struct Counted {
    pub cnots: usize,
    pub phases: usize,
    pub score: usize,
    pub inverters: usize,
}
