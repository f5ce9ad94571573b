// The gates of a file, by position.
ghost use Rattle.std.specs.Prelude.{◌≡◌, true, false, ◌+◌, ◌*◌, ◌≤◌, ◌<◌, length, Some, IfSome};
ghost use Rattle.circuit.specs.File.{gate_at};
ghost use Rattle.circuit.specs.Working.{four_at, said_at, said_gates};
ghost use Rattle.std.specs.Iterator.{YieldsFirst, item_count, at_most, UpTo};
ghost use Rattle.std.specs.Iterator.SizeHint.{IsWithinCount};

use crate::decoder::{decode, gate_of, sixteen_bits};
use crate::{Gate, Placed};
use refusal::Reason;

// Whether the bytes of the gate at position `i` lie in the file.
fn lies_inside(file: &[u8], i: usize) -> bool
    ensures { (result ≡ true → 12 + 4 * i ≤ length file.now) × (result ≡ false → length file.now < 12 + 4 * i) }
{
    if file.len() < 12 {
        return false;
    }
    i <= (file.len() - 12) / 4
}

// The four bytes of the gate at position `i`.
pub(crate) fn four_at(file: &[u8], i: usize) -> [u8; 4]
    requires { 12 + 4 * i ≤ length file.now }
    ensures { result ≡ four_at file.now i }
{
    let at = 8 + 4 * i;
    [file[at], file[at + 1], file[at + 2], file[at + 3]]
}

// The gate at position `i`, or why it is bad; where its bytes do not all lie in the file it has no kind.
pub fn gate_at(file: &[u8], i: usize) -> Result<Placed, Reason>
    ensures { result ≡ gate_at file.now i }
{
    if !lies_inside(file, i) {
        return Err(Reason::Kind);
    }
    let [kind, a, b, c] = four_at(file, i);
    let version = sixteen_bits(file[3], file[4]);
    decode(version, file[5], i, kind, a, b, c)
}

// The gate at position `i` of a file that has passed; a phase of 0 where its bytes do not all lie in the file.
pub fn good_gate(file: &[u8], i: usize) -> Gate
    ensures { result ≡ said_at file.now i }
{
    if !lies_inside(file, i) {
        return Gate::Phase { wire: 0, angle: 0 };
    }
    let [kind, a, b, c] = four_at(file, i);
    gate_of(kind, a, b, c)
}

// The gates that bytes say, four a gate.
#[derive(Clone, Copy)]
pub struct Gates<'a> {
    pub(crate) left: &'a [u8],
}

impl<'a> Iterator for Gates<'a> {
    type Item = Gate;

    ghost next_gives = { YieldsFirst (λ s. said_gates s.left.now) };

    ghost remaining = { item_count (λ s. said_gates s.left.now) };

    fn next(&mut self) -> Option<Gate> {
        let (four, left) = self.left.split_first_chunk::<4>()?;
        self.left = left;
        Some(gate_of(four[0], four[1], four[2], four[3]))
    }

    #[tactic(auto, using(crate::proofs::Saying::said_long))]
    fn size_hint(&self) -> (usize, Option<usize>)
        ensures lower { IsWithinCount result.0 (at_most (length (said_gates self.now.left.now))) }
        ensures upper { IfSome result.1 (UpTo (at_most (length (said_gates self.now.left.now)))) }
        ensures value { result ≡ (length (said_gates self.now.left.now), Some (length (said_gates self.now.left.now))) }
    {
        let gates = self.left.len() / 4;
        (gates, Some(gates))
    }
}
