// Document 01, "Coefficients and verdict": whether two circuits, or a circuit and a table, do the same.
#![tactic(auto)]

// both sides summed up
mod comparer;

// one side summed up
mod summary;

// two summaries judged
mod summaries;

// the lowest place where they differ
mod scan;

pub use comparer::{compare, judge};

#[derive(Clone, Copy, PartialEq, Eq)]
pub enum Verdict {
    Same,
    Different {
        state: u16,
        first: u16,
        second: u16,
        phase: u16,
    },
}
