// The lines of a script, read once: each with its call, and where its bytes stand.
ghost use Rattle.std.specs.Prelude.{◌≡◌};
ghost use Rattle.cut.specs.Inner.{LineFits, LinesRead, LinesReady, line_at};

use region::Item;
use script::{ScriptLine, What};

// A line's call, and whose it is.
#[derive(Clone, Copy)]
pub struct Call {
    pub what: What,
    pub thread: u32,
}

// A line: its call, and where its bytes start and end in the script.
#[derive(Clone, Copy)]
pub struct Line {
    pub call: Call,
    pub start: u32,
    pub end: u32,
}

// The most lines of a script: 60,000 bytes, ten or more of them for each.
pub const LINES_MOST: usize = 6000;

// What stands where no line was read.
pub const NO_LINE: Line = Line {
    call: Call {
        what: What::Put(Item { key: 0, tag: 0 }),
        thread: 0,
    },
    start: 0,
    end: 0,
};

// A line that was read, which starts at a position.
fn line_of(line: ScriptLine, start: usize) -> Line
    requires { LineFits line start }
    ensures { result ≡ line_at line start }
{
    Line {
        call: Call {
            what: line.what,
            thread: line.thread,
        },
        start: start as u32,
        end: line.next as u32,
    }
}

// Reads the lines from a position on, up to the end of the script. Answers how many there are, unless one cannot be read.
pub fn read_lines(s: &[u8], start: usize, lines: &mut [Line]) -> Option<usize>
    requires { LinesReady s.now lines.old }
    ensures { LinesRead s.now start lines.new result }
{
    let mut at = start;
    let mut count = 0;
    // stays: each line says where the next one starts
    while at < s.len() {
        let line = script::line_at(s, at)?;
        lines[count] = line_of(line, at);
        at = line.next;
        count += 1;
    }
    Some(count)
}
