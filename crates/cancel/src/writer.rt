// The gates that are kept, written.
ghost use Rattle.std.specs.Prelude.{◌≡◌, ◌+◌, ◌*◌, ◌≤◌, length};
ghost use Rattle.circuit.specs.Bytes.{put_at};
ghost use Rattle.circuit.specs.Gates.{bytes_of};
ghost use Rattle.cancel.specs.Working.{most_gates, gates_at};

// Writes the gates at these positions behind the header.
pub(crate) fn write_gates(file: &[u8], positions: &[u16], out: &mut [u8])
    requires few { length positions.now ≤ most_gates }
    requires fits { 8 + 4 * length positions.now ≤ length out.old }
    ensures { out.new ≡ put_at (bytes_of (gates_at file.now positions.now (length positions.now))) 8 out.old }
{
    for (i, position) in positions.iter().enumerate() {
        let gate = circuit::good_gate(file, *position as usize);
        circuit::put_gate(gate, out, 8 + 4 * i);
    }
}
