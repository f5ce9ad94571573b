// Whether a circuit's wires come back: each ends on its own mask, without a flip (02 §8, §12).
ghost use Rattle.std.specs.Prelude.{◌≡◌, cond, suc, ◌^◌, ◌≤◌, length, get_or};
ghost use Rattle.refusal.specs.Names.{refusal, LOOSE};
ghost use Rattle.refusal.specs.Checks.{outcome, passed, refused};
ghost use Rattle.numbers.specs.Search.{least};
ghost use Rattle.numbers.specs.Working.{unlike};
ghost use Rattle.circuit.specs.File.{wires_of, gates_of};
ghost use Rattle.running.specs.Masks.{most_wires};
ghost use Rattle.running.specs.Working.{numbers_from};
ghost use Rattle.listing.specs.Listing.{loose_check};

use circuit::Circuit;

// What the wires hold behind all gates of a circuit.
fn pass_all(circuit: &Circuit, held: &mut [u16])
    ensures { held.new ≡ numbers_from (gates_of circuit.now.file.now) held.old }
{
    for gate in circuit.gates() {
        running::pass(held, gate);
    }
}

// The lowest of the wires that does not hold its own mask alone, or `wires`: `held` has ten, and the file says how many count.
fn lowest_loose(held: &[u16], wires: usize) -> usize
    requires { (wires ≤ length held.now) × (wires ≤ most_wires) }
    ensures { result ≡ least (unlike (λ i. get_or held.now i 0) (λ i. 2 ^ suc i)) wires 0 }
{
    for (wire, left) in held[..wires].iter().enumerate() {
        let own = 2u16 << wire;
        if *left != own {
            return wire;
        }
    }
    wires
}

// Whether a circuit is not to be listed for its loose wires. A plain listing asks nothing of them.
pub(crate) fn is_loose(circuit: &Circuit, wrapped: bool) -> bool
    ensures { outcome (loose_check wrapped (wires_of circuit.now.file.now) (gates_of circuit.now.file.now)) ≡ cond result (refused (refusal LOOSE)) passed }
{
    if !wrapped {
        return false;
    }
    let mut held = running::own_held();
    pass_all(circuit, &mut held);
    let wires = circuit.wires() as usize;
    lowest_loose(&held, wires) < wires
}
