// Document 01, "The built circuit": Construction 1 of document 000 as a circuit file.
#![tactic(auto)]

use circuit::Writer;
use refusal::{Cause, Refusal};

mod angles;
mod block;

ghost use Rattle.std.specs.Prelude.{◌≡◌, ◌+◌, ◌^◌, ◌<◌, ◌≤◌, length, slice_index};
ghost use Rattle.circuit.specs.Bytes.{put_at};
ghost use Rattle.circuit.specs.File.{file_of};
ghost use Rattle.build.specs.Construction.{Builds};
ghost use Rattle.build.specs.Working.{parts};

// Puts the circuit file of the table's oracle at the front of out and answers the file's length.
pub fn build(n: u8, table: &[u8], out: &mut [u8]) -> Result<usize, Refusal>
    ensures { Builds n table.now out.old result out.new }
{
    let mut coefficients = [0i32; 256];
    spectrum::spectrum(n, table, &mut coefficients)?;
    let file = numbers::power(n + 4);
    if out.len() < file {
        return Err(Cause::Room.into());
    }
    let mut theta = [0u16; 256];
    angles::write_angles(n, &coefficients, &mut theta);
    let mut minus = theta;
    numbers::negate(&mut minus);
    write_file(n, &theta, &minus, out);
    Ok(file)
}

// The header, then the three parts in turn.
fn write_file(n: u8, theta: &[u16], minus: &[u16], out: &mut [u8])
    requires n_nonzero { 0 < n }
    requires n_bound { n ≤ 8 }
    requires theta_enough { 2 ^ n ≤ length theta.now }
    requires minus_enough { 2 ^ n ≤ length minus.now }
    requires room { 2 ^ (n + 4) ≤ length out.old }
    ensures { out.new ≡ put_at (file_of 1 (n + 1) (parts n (λ k. slice_index theta.now k) (λ v. slice_index minus.now v))) 0 out.old }
{
    let gates = numbers::power(n + 2) - 2;
    circuit::put_header(1, n + 1, gates as u16, out);
    let mut writer = Writer { out, at: 8 };
    block::first_quarter(n, &mut writer);
    block::variables(n, theta, &mut writer);
    block::block(n, minus, &mut writer);
}
