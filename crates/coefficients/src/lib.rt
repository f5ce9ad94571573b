// Document 01, "Coefficients and verdict": one side summed up, a circuit or the ideal of a table. What it gives is the
// side's coefficients, set by set, and where the listed starts end: start 0, then each wire's own.
#![tactic(auto)]

ghost use Rattle.std.specs.Prelude.{◌≡◌, replicate};
ghost use Rattle.running.specs.Masks.{most_masks};

use running::MASKS;

// a circuit summed up
mod summary;

// the ideal of a table summed up
mod ideal;

// the constant, and what each mask has
mod signs;

// sums over sets
mod sums;

// and their weights
mod weights;

pub use ideal::summarise_ideal;
pub use summary::summarise;

// The most starts whose ends a summary lists: start 0, and each of ten wires' own.
pub const STARTS: usize = 11;

// A row for the sets of ten wires, with nothing in it.
pub(crate) fn empty() -> [u16; MASKS]
    ensures { result ≡ replicate most_masks 0 }
{
    [0u16; MASKS]
}
