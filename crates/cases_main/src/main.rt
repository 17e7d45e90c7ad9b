// Executes the cases of document 01 that are not starred, L and M, and prints what the calls answer. The starred ones are
// theorems: crates/cases.
#![tactic(auto)]

use mound::{mound_layout, mound_put, mound_run};

// Writes what was done and a number.
fn report(what: &[u8], number: u64) {
    io::write_all(1, what);
    io::print_decimal(1, number);
    io::write_all(1, b"\n");
}

fn report_call(what: &[u8], answer: u32) {
    report(what, answer as u64);
}

// L "second put by a busy thread is 9"
fn busy_thread(region: &mut [u8]) {
    report_call(b"put 5 by thread 1: ", mound_put(region, 1, 5, 9));
    report_call(
        b"L second put by the busy thread: ",
        mound_put(region, 1, 6, 9),
    );
}

// Two turns of thread 1 with a limit on accesses: the refusal, the turns served and the accesses made.
fn limited(region: &mut [u8], limit: u32) {
    let turns = [1u8, 0, 0, 0, 0, 0, 0, 0, 1, 0, 0, 0, 0, 0, 0, 0];
    let mut answers = [0u8; 24];
    let done = mound_run(region, &turns, limit, &mut answers);
    report(b"  refusal: ", done % 65536);
    report(b"  turns served: ", done / 65536 % 65536);
    report(b"  accesses made: ", done / 4294967296);
}

fn main() {
    let permissions = [3u8; 2];
    let mut region = [0u8; 384];
    report_call(
        b"layout D 2, C 2, T 2, H 1: ",
        mound_layout(&mut region, 2, 2, 2, 1, &permissions),
    );
    busy_thread(&mut region);
    io::write_all(1, b"M two turns with limit 0\n");
    limited(&mut region, 0);
    io::write_all(1, b"two turns with limit 1\n");
    limited(&mut region, 1);
}
