// A slice that is written from its front on, and the place behind what is written.
ghost use Rattle.std.specs.Prelude.{◌≡◌, ◌+◌, ◌<◌, ◌≤◌, [], ◌∷◌, length};
ghost use Rattle.circuit.specs.Gates.{bytes_of};
ghost use Rattle.circuit.specs.Working.{Wrote};

use crate::Gate;
use crate::writer::gate_bytes;

#[derive(Drop)]
pub struct Writer<'a> {
    pub out: &'a mut [u8],
    pub at: usize,
}

impl<'a> Writer<'a> {
    // Bytes at the place, which moves behind them; where they do not all fit, nothing is written and the place stays.
    pub fn put(&mut self, bytes: &[u8])
        ensures wrote { self.old.at + length bytes.now ≤ length self.old.out.now → Wrote bytes.now self.old.at self.old.out.now self.new.at self.new.out.now }
        ensures stays { length self.old.out.now < self.old.at + length bytes.now → (self.new.at ≡ self.old.at) × (self.new.out.now ≡ self.old.out.now) }
        ensures same_reference { self.new.out.ghost_name ≡ self.old.out.ghost_name }
    {
        if bytes.len() <= self.out.len() && self.at <= self.out.len() - bytes.len() {
            let end = self.at + bytes.len();
            self.out[self.at..end].copy_from_slice(bytes);
            self.at = end;
        }
    }

    // A gate's four bytes, likewise. Stored one by one: by `put`, which copies, a build takes 1.7 times as long.
    pub fn put_gate(&mut self, gate: Gate)
        ensures wrote { self.old.at + 4 ≤ length self.old.out.now → Wrote (bytes_of (gate ∷ [])) self.old.at self.old.out.now self.new.at self.new.out.now }
        ensures stays { length self.old.out.now < self.old.at + 4 → (self.new.at ≡ self.old.at) × (self.new.out.now ≡ self.old.out.now) }
        ensures same_reference { self.new.out.ghost_name ≡ self.old.out.ghost_name }
    {
        if 4 <= self.out.len() && self.at <= self.out.len() - 4 {
            let bytes = gate_bytes(gate);
            let at = self.at;
            self.out[at] = bytes[0];
            self.out[at + 1] = bytes[1];
            self.out[at + 2] = bytes[2];
            self.out[at + 3] = bytes[3];
            self.at = at + 4;
        }
    }
}
