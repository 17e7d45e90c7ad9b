// A cut from beginning to end: whether there is something to cut, the passes, and the script that is left.
ghost use Rattle.std.specs.Prelude.{◌≡◌, take, ◌++◌};
ghost use Rattle.region.specs.Refusal.{code_of};
ghost use Rattle.script.specs.Inner.{Appends, Wrote};
ghost use Rattle.script.specs.Script.{setup_refusal};
ghost use Rattle.cut.specs.Whole.{texts};
ghost use Rattle.cut.specs.Promises.{CutDown, written_of};
ghost use Rattle.cut.specs.Inner.{CutRoom, IsTrial, Laid, ReadWhole, WriteRoom, entries_in};

use crate::lines::{LINES_MOST, Line, NO_LINE, read_lines};
use crate::passes::{Trial, cut_lines, show};
use crate::states::STATES_ROOM;
use region::{Frame, Refusal};
use script::{Setup, Text};

// The trials of an accepted setup.
fn trial_of(setup: Setup, number: u32) -> Trial
    requires { setup_refusal setup ≡ 0 }
    ensures { IsTrial setup number result }
{
    let shape = setup.shape;
    Trial {
        number,
        setup,
        frame: Frame::of(shape),
        size: 4 * shape.word_count(),
    }
}

// Writes lines, one behind the other.
fn write_lines(text: &mut Text, s: &[u8], lines: &[Line])
    requires { WriteRoom text.old s.now lines.now }
    ensures { Appends text.old text.new (texts (entries_in s.now lines.now)) }
{
    for line in lines {
        let start = line.start as usize;
        let end = line.end as usize;
        text.push(&s[start..end]);
    }
}

// Writes the opening and lines behind it at the start of a slice, and answers how many bytes they have.
fn write_cut(out: &mut [u8], s: &[u8], opening: usize, lines: &[Line]) -> usize
    requires { CutRoom out.old s.now opening lines.now }
    ensures { Wrote out.old out.new 0 result (take opening s.now ++ texts (entries_in s.now lines.now)) }
{
    let mut text = Text::behind(out, 0);
    text.push(&s[..opening]);
    write_lines(&mut text, s, lines);
    text.len
}

// Cuts a script whose layout is accepted down to some of its lines, or refuses (16).
fn cut_laid(
    s: &[u8],
    setup: Setup,
    lines: &mut [Line],
    number: u32,
    out: &mut [u8],
) -> Result<usize, Refusal>
    requires { Laid s.now setup lines.old out.old }
    ensures { CutDown s.now number out.old out.new (code_of result) (written_of result) }
{
    let trial = trial_of(setup, number);
    let mut states = [0; STATES_ROOM];
    if !show(trial, lines, &mut states) {
        return Err(Refusal::NotShown);
    }
    let first = cut_lines(trial, lines, &mut states);
    Ok(write_cut(out, s, setup.next, &lines[first..]))
}

// Cuts a script that can be read, or refuses (16). A refused layout shows its number with no line at all.
fn cut_read(
    s: &[u8],
    setup: Setup,
    lines: &mut [Line],
    number: u32,
    out: &mut [u8],
) -> Result<usize, Refusal>
    requires { ReadWhole s.now setup lines.old out.old }
    ensures { CutDown s.now number out.old out.new (code_of result) (written_of result) }
{
    let Err(refusal) = script::setup_check(setup) else {
        return cut_laid(s, setup, lines, number, out);
    };
    if u32::from(refusal) != number {
        return Err(Refusal::NotShown);
    }
    Ok(write_cut(out, s, setup.next, &[]))
}

// Cuts a script down to lines that still show a refusal with this number, and of which none can be left out: answers how many bytes the script
// that is left has, and leaves them at the start of out, or refuses (2, 16). All else in out stays as it was.
pub fn cut_script(s: &[u8], number: u32, out: &mut [u8]) -> Result<usize, Refusal>
    ensures { CutDown s.now number out.old out.new (code_of result) (written_of result) }
{
    if out.len() < s.len() {
        return Err(Refusal::BadLength);
    }
    let Some(setup) = script::read_opening(s) else {
        return Err(Refusal::NotShown);
    };
    let mut lines = [NO_LINE; LINES_MOST];
    let Some(count) = read_lines(s, setup.next, &mut lines) else {
        return Err(Refusal::NotShown);
    };
    cut_read(s, setup, &mut lines[..count], number, out)
}
