// The listing program: reads the byte n and then the table from standard input, and prints the
// wrapped listing of the folded circuit, or `refused N`.
#![tactic(auto)]

use std::io;

// The byte n, the 32 bytes of the largest table, and one more: 34 bytes decide.
const INPUT_ROOM: usize = 34;

// 65,536 bytes hold every printout, so that it is never refused.
fn main(rt: HostRuntime) -> io::Result<()> {
    let mut room = [0; INPUT_ROOM];
    prove!(room.len() == 1 + 32 + 1);
    let n = input::fill(&mut rt.reader(), &mut room)?;
    let mut text = [0u8; 65536];
    match oracle_listing::printout(&room[..n], &mut text) {
        Ok(length) => rt.write_all(&text[..length]),
        Err(_) => Ok(()),
    }
}
