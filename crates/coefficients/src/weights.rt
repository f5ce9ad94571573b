// Sums by the weights of their sets.
ghost use Rattle.std.specs.Prelude.{◌≡◌, ◌*◌, ◌%◌, ◌<◌, ◌≤◌, length};
ghost use Rattle.numbers.specs.Sums.{list};
ghost use Rattle.circuit.specs.Bytes.{put_at};
ghost use Rattle.running.specs.Masks.{most_masks};
ghost use Rattle.coefficients.specs.Working.{weight_at, weighed_at, weighed};

// By the number of wires k: nothing for none, else (-2)^(k-1), wrapped.
const WEIGHTS: [u16; 11] = [0, 1, 65534, 4, 65528, 16, 65504, 64, 65408, 256, 65024];

// The constant, then each sum by the weight of its set, at the front of `out`; where they do not fit, nothing is written.
pub(crate) fn weigh(v: &[u16], constant: u16, out: &mut [u16])
    requires { length v.now ≤ most_masks }
    ensures { out.new ≡ put_at (list (length v.now) (weighed constant v.now)) 0 out.old }
{
    if v.len() <= out.len() {
        // of what is written through a `zip` of `iter_mut` a proof knows nothing: `returns` stays open
        for (s, sum) in v.iter().enumerate() {
            out[s] = entry_of(s, constant, *sum);
        }
    }
}

// The constant at the empty set, else the sum by its weight.
fn entry_of(s: usize, constant: u16, sum: u16) -> u16
    requires { s < most_masks }
    ensures { result ≡ weighed_at constant s sum }
{
    if s == 0 {
        return constant;
    }
    weight(s).wrapping_mul(sum)
}

fn weight(s: usize) -> u16
    requires { s < most_masks }
    ensures { result ≡ weight_at s }
{
    WEIGHTS[s.count_ones() as usize]
}
