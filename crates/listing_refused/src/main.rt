// The main of listing_program once more, since a program is tried on one input, and this one is refused. A function that
// both call could promise nothing in its contract, and each main is one call, of `oracle_listing::printout`.
#![tactic(auto)]

use std::io;

// The byte n, the 32 bytes of the largest table, and one more: 34 bytes decide.
const INPUT_ROOM: usize = 34;

// 65,536 bytes hold every printout, so that it is never refused.
fn main(rt: HostRuntime) -> io::Result<()> {
    let mut room = [0; INPUT_ROOM];
    prove!(room.len() == 1 + 32 + 1);
    let n = input::fill(&mut rt.reader(), &mut room)?;
    let mut text = [0u8; 65536];
    match oracle_listing::printout(&room[..n], &mut text) {
        Ok(length) => rt.write_all(&text[..length]),
        Err(_) => Ok(()),
    }
}
