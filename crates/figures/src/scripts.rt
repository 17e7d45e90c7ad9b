// Whether the whole input can be read, found out before any script is run: so nothing is printed before all is read.
ghost use Rattle.std.specs.Prelude.{◌≡◌, length};
ghost use Rattle.figures.specs.Scripts.{lines_at, read_scripts, script_at};
ghost use Rattle.figures.specs.Inner.{end_of, is_found};

// The most bytes of the input, and the most scripts in it.
pub const INPUT_MOST: usize = 60000;

const SCRIPTS_MOST: usize = 64;

// Where the lines from a position on end: behind their empty line. None if one of them cannot be read.
fn lines_end(s: &[u8], start: usize) -> Option<usize>
    ensures { result ≡ end_of (lines_at (length s.now) s.now start) }
{
    let mut at = start;
    // stays: each line says where the next one starts
    while at < s.len() {
        if s[at] == b'\n' {
            return Some(at + 1);
        }
        let line = script::line_at(s, at)?;
        at = line.next;
    }
    None
}

// Where the script from a position on ends.
fn script_end(s: &[u8], start: usize) -> Option<usize>
    ensures { result ≡ end_of (script_at s.now start) }
{
    let setup = script::opening_at(s, start)?;
    match script::setup_check(setup) {
        Ok(()) => lines_end(s, setup.next),
        Err(_) => None,
    }
}

// Whether the input is scripts, not too many, to its end.
pub fn are_readable(s: &[u8]) -> bool
    ensures { result ≡ is_found (read_scripts s.now) }
{
    if INPUT_MOST < s.len() {
        return false;
    }
    let mut at = 0;
    for count in 0..SCRIPTS_MOST {
        if s.len() <= at {
            return true;
        }
        let Some(next) = script_end(s, at) else {
            return false;
        };
        at = next;
    }
    s.len() <= at
}
