// Reads a script from standard input and writes what it prints to standard output. One byte more than a script may have is read,
// so that a longer one shows.
#![tactic(auto)]

use script::{OUTPUT_ROOM, REGION_ROOM, SCRIPT_MOST};

fn main() {
    let mut input = [0u8; SCRIPT_MOST + 1];
    let n = io::read_full(0, &mut input);
    let mut region = [0u8; REGION_ROOM];
    let mut output = [0u8; OUTPUT_ROOM];
    let printed = script::run_script(&input[..n], &mut output, &mut region);
    io::write_all(1, &output[..printed]);
}
