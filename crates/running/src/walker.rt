// What each wire holds, gate by gate: twice its mask, and its flip.
ghost use Rattle.std.specs.Prelude.{◌≡◌, slice_index};
ghost use Rattle.circuit.specs.declared.Gate.TheVariants.{Cnot, Inverter};
ghost use Rattle.running.specs.Masks.{most_wires};
ghost use Rattle.running.specs.Working.{own_numbers, numbers_after};

use crate::WIRES;
use circuit::Gate;

// Before the first gate wire i holds the mask 2^i, and no flip.
pub fn own_held() -> [u16; WIRES]
    ensures { result ≡ own_numbers most_wires }
{
    [2, 4, 8, 16, 32, 64, 128, 256, 512, 1024]
}

// What a wire holds; nothing where there is no such wire.
pub fn held_at(held: &[u16], wire: u8) -> u16
    ensures { result ≡ slice_index held.now wire }
{
    let i = wire as usize;
    if i < held.len() { held[i] } else { 0 }
}

// A CNOT mixes what two wires hold.
pub fn mix(held: &mut [u16], control: u8, target: u8)
    ensures { held.new ≡ numbers_after (Cnot control target) held.old }
{
    let mixed = held_at(held, control);
    let i = target as usize;
    if i < held.len() {
        held[i] = held[i] ^ mixed;
    }
}

// An inverter turns its wire's flip.
pub fn invert(held: &mut [u16], wire: u8)
    ensures { held.new ≡ numbers_after (Inverter wire) held.old }
{
    let i = wire as usize;
    if i < held.len() {
        held[i] = held[i] ^ 1;
    }
}

// What a gate makes of what the wires hold.
pub fn pass(held: &mut [u16], gate: Gate)
    ensures { held.new ≡ numbers_after gate held.old }
{
    match gate {
        Gate::Cnot { control, target } => mix(held, control, target),
        Gate::Phase { wire: _, angle: _ } => {}
        Gate::Inverter { wire } => invert(held, wire),
    }
}
