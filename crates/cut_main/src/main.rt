// Reads a number, LF and a script from standard input and writes what is left of the script to standard output, or the line `refused 16`. One
// byte more than the input may have is read, so that a longer one shows.
#![tactic(auto)]

use cut::CUT_INPUT_MOST;

// stays: like the main of the other programs but for its sizes and its library; one main for all would be no plainer.
fn main() {
    let mut input = [0u8; CUT_INPUT_MOST + 1];
    let n = io::read_full(0, &mut input);
    let mut output = [0u8; CUT_INPUT_MOST];
    let printed = cut::print_cut(&input[..n], &mut output);
    io::write_all(1, &output[..printed]);
}
