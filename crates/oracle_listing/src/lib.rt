// Document 01, "Listing": what the listing program does with the bytes that it reads.
#![tactic(auto)]

ghost use Rattle.std.specs.Prelude.{◌≡◌, length};
ghost use Rattle.oracle_listing.specs.Working.{ListsFolded};
ghost use Rattle.oracle_listing.specs.Oracle.{variables_of, table_of, ListsOracle, Prints};

use refusal::{Cause, Refusal};

// Room for the largest built file, of 8 variables.
fn built_room() -> [u8; 4096]
    ensures { 4096 ≡ length result }
{
    [0; 4096]
}

// Room for the largest file, of 2,048 gates.
fn file_room() -> [u8; 8200]
    ensures { 8200 ≡ length result }
{
    [0; 8200]
}

// The wrapped listing of a file's folding, or a refusal.
fn list_folded(file: &[u8], out: &mut [u8]) -> Result<usize, Refusal>
    ensures { ListsFolded file.now out.old result out.new }
{
    let mut room = file_room();
    let folded = fold::fold(file, &mut room)?;
    listing::list(&room[..folded.length], true, out)
}

// The wrapped listing of a table's oracle, built and folded, or a refusal.
pub fn of_table(n: u8, table: &[u8], out: &mut [u8]) -> Result<usize, Refusal>
    ensures { ListsOracle n table.now out.old result out.new }
{
    let mut built = built_room();
    let length = build::build(n, table, &mut built)?;
    list_folded(&built[..length], out)
}

// The same of the byte n and then the table; an empty input is refused 1.
pub fn oracle_listing(input: &[u8], out: &mut [u8]) -> Result<usize, Refusal>
    ensures { ListsOracle (variables_of input.now) (table_of input.now) out.old result out.new }
{
    if input.len() == 0 {
        return Err(Cause::Vars.into());
    }
    of_table(input[0], &input[1..], out)
}

// What the listing program prints for its input: the text, or the line that says the refusal. The
// only refusal of its own is 13.
pub fn printout(input: &[u8], out: &mut [u8]) -> Result<usize, Refusal>
    ensures { Prints input.now out.old result out.new }
{
    match oracle_listing(input, out) {
        Ok(length) => Ok(length),
        Err(why) => {
            if why.cause == Cause::Room {
                return Err(why);
            }
            listing::refused_line(why.cause.number(), out)
        }
    }
}
