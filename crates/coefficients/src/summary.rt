// A circuit summed up.
ghost use Rattle.std.specs.Prelude.{◌≡◌, ℕ, ◌+◌, ◌^◌, ◌<◌, ◌≤◌, true, length};
ghost use Rattle.numbers.specs.Sums.{list};
ghost use Rattle.circuit.specs.Bytes.{put_at};
ghost use Rattle.running.specs.Masks.{most_wires, most_masks};
ghost use Rattle.coefficients.specs.Summaries.{Summarises};
ghost use Rattle.coefficients.specs.Working.{gathered, weighed, column, listed_column};

use crate::empty;
use crate::signs::add_gates;
use crate::sums::gather;
use crate::weights::weigh;
use circuit::{Circuit, Header};
use refusal::Refusal;

// A file's wires and gate count as the reader says them, its circuit's coefficients and the ends of its listed starts,
// each at the front of a slice where they fit, or the refusal of the file.
pub fn summarise(
    file: &[u8],
    side: u8,
    row: &mut [u16],
    ends: &mut [u16],
) -> Result<Header, Refusal>
    ensures { Summarises side file.now row.old ends.old result row.new ends.new }
{
    let circuit = Circuit::read(file, side)?;
    let wires = circuit.wires();
    let mut held = running::own_held();
    let mut signed = empty();
    let constant = add_gates(&circuit, &mut held, &mut signed);
    put_coefficients(&mut signed[..numbers::power(wires)], constant, row);
    put_ends(&held[..wires as usize], ends);
    Ok(Header {
        wires,
        gates: circuit.gate_count(),
    })
}

// From what each mask has to the coefficient of each set, and the constant at the empty one.
fn put_coefficients(signed: &mut [u16], constant: u16, row: &mut [u16])
    requires { length signed.old ≤ most_masks }
    ensures { (n : ℕ) → length signed.old ≡ 2 ^ n → row.new ≡ put_at (list (2 ^ n) (weighed constant (gathered true n signed.old))) 0 row.old }
{
    gather(signed, true);
    weigh(signed, constant, row);
}

// Where each listed start ends, at the front of `ends`; where they do not fit, nothing is written.
fn put_ends(held: &[u16], ends: &mut [u16])
    requires { length held.now ≤ most_wires }
    ensures { ends.new ≡ put_at (list (length held.now + 1) (listed_column held.now)) 0 ends.old }
{
    let starts = held.len() + 1;
    if starts <= ends.len() {
        for (i, end) in ends[..starts].iter_mut().enumerate() {
            *end = end_of(held, i);
        }
    }
}

// Where the i-th listed start ends: start 0 with a bit for each flip, the start 2^(i-1) with those turned that hold its wire.
fn end_of(held: &[u16], i: usize) -> u16
    requires { (length held.now ≤ most_wires) × (i < 16) }
    ensures { result ≡ listed_column held.now i }
{
    let flips = column_of(held, 0);
    if i == 0 {
        return flips;
    }
    column_of(held, i) ^ flips
}

// Bit j of the answer is bit i of what wire j holds.
fn column_of(held: &[u16], i: usize) -> u16
    requires { (length held.now ≤ most_wires) × (i < 16) }
    ensures { result ≡ column held.now i }
{
    let mut state: u16 = 0;
    for (j, number) in held.iter().enumerate() {
        state += ((*number >> i) % 2) << j;
    }
    state
}
