// Reads scripts from standard input, each ended by an empty line, and writes the report over them to standard output. One byte more than the
// input may have is read, so that a longer one shows.
#![tactic(auto)]

use figures::{INPUT_MOST, REPORT_ROOM};

// stays: like the main of the other programs but for its sizes and its library; one main for all would be no plainer.
fn main() {
    let mut input = [0u8; INPUT_MOST + 1];
    let n = io::read_full(0, &mut input);
    let mut output = [0u8; REPORT_ROOM];
    let printed = figures::write_report(&input[..n], &mut output);
    io::write_all(1, &output[..printed]);
}
