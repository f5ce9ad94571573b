// The words of a line, which a byte 0 separates.
ghost use Rattle.std.specs.Prelude.{◌≡◌};
ghost use Rattle.command.specs.Words.{separators, word_at};

// How many words follow the first.
pub(crate) fn others(line: &[u8]) -> usize
    ensures { result ≡ separators line.now }
{
    line.iter().filter(|b| **b == 0).count()
}

// The word k, from 0; empty where there is none.
pub(crate) fn word(line: &[u8], k: usize) -> &[u8]
    ensures { result.now ≡ word_at line.now k }
{
    line.split(|b| *b == 0).nth(k).unwrap_or(b"")
}
