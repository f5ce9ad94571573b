// The three parts of the construction, over one block writer.
ghost use Rattle.std.specs.Prelude.{◌≡◌, ◌+◌, ◌^◌, ◌<◌, ◌≤◌, [], ◌∷◌, length, slice_index};
ghost use Rattle.circuit.specs.Working.{Wrote};
ghost use Rattle.circuit.specs.Gates.{bytes_of};
ghost use Rattle.circuit.specs.declared.Gate.TheVariants.{Cnot, Phase};
ghost use Rattle.build.specs.Gray.{turned as Gray·turned};
ghost use Rattle.build.specs.Construction.{block as gatesOfBlock, variables as gatesOfVariables, first_quarter};

use circuit::{Gate, Writer};

pub(crate) fn first_quarter(n: u8, writer: &mut Writer)
    requires { writer.old.at + length (bytes_of (first_quarter n)) ≤ length writer.old.out.now }
    ensures wrote { Wrote (bytes_of (first_quarter n)) writer.old.at writer.old.out.now writer.new.at writer.new.out.now }
    ensures same_reference { writer.new.out.ghost_name ≡ writer.old.out.ghost_name }
{
    put(
        Gate::Phase {
            wire: n,
            angle: 16384,
        },
        writer,
    );
}

// The blocks of wires 0 to n - 1, each with the angles from 2^i on. Wire 0 has one word, and no CNOT.
pub(crate) fn variables(n: u8, angles: &[u16], writer: &mut Writer)
    requires n_nonzero { 0 < n }
    requires n_bound { n ≤ 8 }
    requires angles_enough { 2 ^ n ≤ length angles.now }
    requires room { writer.old.at + length (bytes_of (gatesOfVariables n (λ k. slice_index angles.now k))) ≤ length writer.old.out.now }
    ensures wrote { Wrote (bytes_of (gatesOfVariables n (λ k. slice_index angles.now k))) writer.old.at writer.old.out.now writer.new.at writer.new.out.now }
    ensures same_reference { writer.new.out.ghost_name ≡ writer.old.out.ghost_name }
{
    put(
        Gate::Phase {
            wire: 0,
            angle: angles[1],
        },
        writer,
    );
    for i in 1..n {
        block(i, &angles[numbers::power(i)..], writer);
    }
}

// Wire i's block: for each Gray word a phase by the word's angle, then a CNOT from the bit that turns.
pub(crate) fn block(i: u8, angles: &[u16], writer: &mut Writer)
    requires i_nonzero { 0 < i }
    requires i_bound { i ≤ 8 }
    requires angles_enough { 2 ^ i ≤ length angles.now }
    requires room { writer.old.at + length (bytes_of (gatesOfBlock i (λ v. slice_index angles.now v))) ≤ length writer.old.out.now }
    ensures wrote { Wrote (bytes_of (gatesOfBlock i (λ v. slice_index angles.now v))) writer.old.at writer.old.out.now writer.new.at writer.new.out.now }
    ensures same_reference { writer.new.out.ghost_name ≡ writer.old.out.ghost_name }
{
    let mut word = 0;
    for k in 0..numbers::power(i) {
        let bit = turned(i, k);
        put_pair(i, angles[word], bit, writer);
        word ^= numbers::power(bit);
    }
}

// A phase on wire i, then a CNOT to it.
fn put_pair(i: u8, angle: u16, control: u8, writer: &mut Writer)
    requires { writer.old.at + length (bytes_of (Phase i angle ∷ Cnot control i ∷ [])) ≤ length writer.old.out.now }
    ensures wrote { Wrote (bytes_of (Phase i angle ∷ Cnot control i ∷ [])) writer.old.at writer.old.out.now writer.new.at writer.new.out.now }
    ensures same_reference { writer.new.out.ghost_name ≡ writer.old.out.ghost_name }
{
    put(Gate::Phase { wire: i, angle }, writer);
    put(Gate::Cnot { control, target: i }, writer);
}

fn put(gate: Gate, writer: &mut Writer)
    requires { writer.old.at + 4 ≤ length writer.old.out.now }
    ensures wrote { Wrote (bytes_of (gate ∷ [])) writer.old.at writer.old.out.now writer.new.at writer.new.out.now }
    ensures same_reference { writer.new.out.ghost_name ≡ writer.old.out.ghost_name }
{
    writer.put_gate(gate);
}

// d_k: the trailing zeros of k + 1, except that the last is i - 1.
fn turned(i: u8, k: usize) -> u8
    requires i_nonzero { 0 < i }
    requires i_bound { i ≤ 8 }
    requires k_bound { k < 2 ^ i }
    ensures { result ≡ Gray·turned i k }
{
    let zeros = (k + 1).trailing_zeros() as u8;
    if zeros < i { zeros } else { i - 1 }
}
