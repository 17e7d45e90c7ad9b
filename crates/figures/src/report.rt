// A report from beginning to end: whether all can be read, then script by script its rows, and the total.
ghost use Rattle.std.specs.Prelude.{◌≡◌};
ghost use Rattle.script.specs.Inner.{Appends};
ghost use Rattle.script.specs.Script.{laid_region};
ghost use Rattle.figures.specs.Scripts.{read_scripts};
ghost use Rattle.figures.specs.Promises.{Reported};
ghost use Rattle.figures.specs.Inner.{LinesCounted, ScriptReported, ScriptThere, ScriptsThere, SetupThere, scripts_text, the_list};

use crate::columns::{COLUMNS, Figures};
use crate::counting::{ROWS, count_lines};
use crate::rows::{write_row, write_rows};
use crate::scripts::are_readable;
use script::{REGION_ROOM, Setup, Text};

// Room for any report: its heading, and 165 bytes (fifteen numbers of at most ten digits, a byte behind each) for each row of 64 threads in
// 64 scripts and for the total.
pub const REPORT_ROOM: usize = 676087;

// Lays out the region of an accepted setup, runs the script's lines on it, and counts their turns. Answers the position after them.
fn count_script(
    input: &[u8],
    setup: Setup,
    table: &mut [Figures; ROWS],
    total: &mut Figures,
) -> usize
    requires { SetupThere input.now setup table.old total.old }
    ensures { LinesCounted input.now setup.next (laid_region setup) table.old table.new total.old total.new result }
{
    let mut region = [0; REGION_ROOM];
    script::lay_region(&mut region, setup);
    let shape = setup.shape;
    let n = 4 * shape.word_count();
    count_lines(input, setup.next, &mut region[..n], table, total)
}

// Runs the script from a position on and prints the rows of its threads. Answers the position after it.
fn report_script(
    input: &[u8],
    start: usize,
    script: u32,
    total: &mut Figures,
    text: &mut Text,
) -> usize
    requires { ScriptThere input.now start total.old text.old }
    ensures { ScriptReported input.now start script total.old total.new text.old text.new result }
{
    // all scripts were read before, so this one can be read
    let Some(setup) = script::opening_at(input, start) else {
        return start;
    };
    let mut table = [[0; COLUMNS]; ROWS];
    let next = count_script(input, setup, &mut table, total);
    let shape = setup.shape;
    let threads = shape.threads as usize;
    write_rows(text, script, &table[..threads]);
    next
}

// Runs all scripts and prints their rows, and the total.
fn report_scripts(input: &[u8], text: &mut Text)
    requires { ScriptsThere input.now text.old }
    ensures { Appends text.old text.new (scripts_text (the_list (read_scripts input.now))) }
{
    let mut total = [0; COLUMNS];
    let mut at = 0;
    let mut script: u32 = 1;
    // stays: each script says where the next one starts
    while at < input.len() {
        at = report_script(input, at, script, &mut total, text);
        script += 1;
    }
    write_row(text, 0, 0, &total);
}

// Writes the report: answers how many bytes it has, and leaves them at the start of the output. All else in it stays as it was.
pub fn write_report(input: &[u8], output: &mut [u8; REPORT_ROOM]) -> usize
    ensures { Reported input.now output.old output.new result }
{
    let mut text = Text::behind(output, 0);
    if !are_readable(input) {
        text.push(b"unreadable\n");
        return text.len;
    }
    text.push(
        b"script thread node depth cas dcas dcss hand failed put take list empty whole rest\n",
    );
    report_scripts(input, &mut text);
    text.len
}
