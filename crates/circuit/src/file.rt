// A file that has passed its checks.
ghost use Rattle.std.specs.Prelude.{◌≡◌, ◌*◌, ◌+◌, MatchResult, drop};
ghost use Rattle.refusal.specs.Checks.{AllFail, AllFail-prop, outcome, refused};
ghost use Rattle.circuit.specs.Bytes.{Bytes};
ghost use Rattle.circuit.specs.File.{file_checks, version_of, wires_of, count_of, gates_of};
ghost use Rattle.circuit.specs.Working.{said_gates};

use crate::Gates;
use crate::decoder::sixteen_bits;
use crate::reader::read_side;
use refusal::Refusal;

#[derive(Clone, Copy)]
pub struct Circuit<'a> {
    pub file: &'a [u8],
    pub ghost bytes: { Bytes file.now },
    pub ghost good: { AllFail (file_checks 0 file.now) } by { AllFail-prop (file_checks 0 file.now) },
}

impl<'a> Circuit<'a> {
    // The circuit of the file that is given as this side, or the refusal of the first check that fails.
    pub fn read(file: &'a [u8], side: u8) -> Result<Circuit<'a>, Refusal>
        ensures { MatchResult result (λ c. c.file.now ≡ file.now) (λ r. outcome (file_checks side file.now) ≡ refused r) }
    {
        read_side(file, side)?;
        Ok(Circuit { file })
    }

    pub fn version(&self) -> u16
        ensures { result ≡ version_of self.now.file.now }
    {
        sixteen_bits(self.file[3], self.file[4])
    }

    pub fn wires(&self) -> u8
        ensures { result ≡ wires_of self.now.file.now }
    {
        self.file[5]
    }

    pub fn gate_count(&self) -> usize
        ensures { result ≡ count_of self.now.file.now }
    {
        sixteen_bits(self.file[6], self.file[7]) as usize
    }

    pub fn gates(&self) -> Gates<'a>
        ensures { said_gates result.left.now ≡ gates_of self.now.file.now }
    {
        Gates {
            left: &self.file[8..],
        }
    }
}
