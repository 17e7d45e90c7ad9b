// Runs a script's lines and counts the turns that they make: each in its thread's row of a table, and in the total.
ghost use Rattle.figures.specs.Turns.{turn_by, turn_made};
ghost use Rattle.figures.specs.Inner.{Countable, LineCounted, LinesCounted, LinesThere, TurnCounted};

use crate::columns::{Figures, add_turn};
use region::View;
use script::What;

// The most threads of a script, each of which has a row in the table.
pub const ROWS: usize = 64;

// Counts the turn that thread n, with its choice, is about to make.
fn count_turn(region: &[u8], n: u32, choice: u32, table: &mut [Figures; ROWS], total: &mut Figures)
    requires { Countable region.now table.old total.old }
    ensures { TurnCounted (turn_made region.now n choice) table.old table.new total.old total.new }
{
    let f = readable::frame_of(region);
    let t = View::new(region, f).thread(n);
    let plan = kinds::turn_plan(f, region, n, choice);
    let place = t.place;
    add_turn(total, place, plan);
    if region::is_between(1, n, 64) {
        add_turn(&mut table[n as usize - 1], place, plan);
    }
}

// Counts the turn that a line is about to make, if it makes one.
fn count_line(region: &[u8], what: What, n: u32, table: &mut [Figures; ROWS], total: &mut Figures)
    requires { Countable region.now table.old total.old }
    ensures { LineCounted (turn_by region.now what n) table.old table.new total.old total.new }
{
    if let What::Turn(choice) = what {
        count_turn(region, n, choice, table, total);
    }
}

// Runs the lines from a position on, up to their empty line, and counts their turns. Answers the position after the empty line.
pub fn count_lines(
    input: &[u8],
    start: usize,
    region: &mut [u8],
    table: &mut [Figures; ROWS],
    total: &mut Figures,
) -> usize
    requires { LinesThere input.now start region.old table.old total.old }
    ensures { LinesCounted input.now start region.old table.old table.new total.old total.new result }
{
    let f = readable::frame_of(region);
    let mut at = start;
    // stays: each line says where the next one starts
    while at < input.len() {
        if input[at] == b'\n' {
            return at + 1;
        }
        // all lines were read before, so this one can be read
        let Some(l) = script::line_at(input, at) else {
            return at;
        };
        let what = l.what;
        count_line(region, what, l.thread, table, total);
        script::make_call(f, region, what, l.thread);
        at = l.next;
    }
    at
}
