// Passes over the lines that are left, each line tried for removal from the last to the first. Those that a pass keeps move to the end of
// `lines`.
ghost use Rattle.std.specs.Prelude.{◌≡◌, ◌+◌, length};
ghost use Rattle.script.specs.Script.{laid_region};
ghost use Rattle.cut.specs.Inner.{Cuttable, HalfRan, HalfReady, LastLaid, LastReady, LinesCut, LinesTriable, LinesTried, PassReady, Triable, lines_show, region_in};

use crate::lines::Line;
use crate::states::{SLOT, STATES_ROOM, TWO_SLOTS, copy_down};
use crate::trials::run_lines;
use region::Frame;
use script::{REGION_ROOM, Setup};

// What all trials share: the number, the accepted setup, where the parts of its region lie, and the region's size in bytes.
#[derive(Clone, Copy)]
pub struct Trial {
    pub number: u32,
    pub setup: Setup,
    pub frame: Frame,
    pub size: usize,
}

// Tries the line at a position on the region as the lines before it leave it, which is used up. Those of the lines behind it that are
// left stand from `kept` on. Answers where the lines that are left now start.
fn try_line(trial: Trial, lines: &mut [Line], at: usize, kept: usize, region: &mut [u8]) -> usize
    requires { Triable trial lines.old at (at + 1) kept region.old }
    ensures { LinesTried trial.number lines.old lines.new at (at + 1) kept region.old result }
{
    if run_lines(trial.frame, region, &lines[kept..], trial.number) {
        return kept;
    }
    lines[kept - 1] = lines[at];
    kept - 1
}

// Runs lines on a copy of the region at hand, made in the slot before it, and tells whether one of them shows the number.
fn run_half(trial: Trial, lines: &[Line], states: &mut [u8]) -> bool
    requires { HalfReady trial states.old }
    ensures { HalfRan trial lines.now states.old states.new result }
{
    let size = trial.size;
    let start = states.len() - TWO_SLOTS;
    let end = start + size;
    copy_down(&mut states[start..], size);
    run_lines(trial.frame, &mut states[start..end], lines, trial.number)
}

// Tries lines[from..to], from the last to the first, on the region in the last slot of states, as the lines before them leave it. The
// slots before it are room for the region at the middle of them, at the middle of their second half, and so on. Those of the lines behind
// them that are left stand from `kept` on. Answers where the lines that are left now start.
fn try_lines(
    trial: Trial,
    lines: &mut [Line],
    from: usize,
    to: usize,
    kept: usize,
    states: &mut [u8],
) -> usize
    requires { LinesTriable trial lines.old from to kept states.old }
    ensures { LinesTried trial.number lines.old lines.new from to kept (region_in trial.size states.old) result }
{
    let start = states.len() - SLOT;
    if to - from == 1 {
        let end = start + trial.size;
        return try_line(trial, lines, from, kept, &mut states[start..end]);
    }
    let middle = from + (to - from) / 2;
    if run_half(trial, &lines[from..middle], states) {
        // shown by the first half: the second goes
        return try_lines(trial, lines, from, middle, kept, states);
    }
    let left = try_lines(trial, lines, middle, to, kept, &mut states[..start]);
    try_lines(trial, lines, from, middle, left, states)
}

// Lays out the region of an accepted setup in the last slot of states.
fn lay_last(setup: Setup, states: &mut [u8])
    requires { LastReady setup states.old }
    ensures { LastLaid setup states.new }
{
    let start = STATES_ROOM - SLOT;
    let end = start + REGION_ROOM;
    script::lay_region(&mut states[start..end], setup);
}

// Whether the lines show the number, on a region that is laid out in the last slot of states.
pub fn show(trial: Trial, lines: &[Line], states: &mut [u8]) -> bool
    requires { Cuttable trial lines.now states.old }
    ensures { result ≡ lines_show trial.number (laid_region trial.setup) lines.now }
{
    lay_last(trial.setup, states);
    let start = STATES_ROOM - SLOT;
    let end = start + trial.size;
    run_lines(trial.frame, &mut states[start..end], lines, trial.number)
}

// One pass over the lines from a position on, on a region that is laid out in the last slot of states. Answers where the lines that are left
// start.
fn pass_once(trial: Trial, lines: &mut [Line], first: usize, states: &mut [u8]) -> usize
    requires { PassReady trial lines.old first states.old }
    ensures { LinesTried trial.number lines.old lines.new first (length lines.old) (length lines.old) (laid_region trial.setup) result }
{
    lay_last(trial.setup, states);
    let end = lines.len();
    try_lines(trial, lines, first, end, end, states)
}

// Passes until one removes no line. Answers where the lines that are left start.
pub fn cut_lines(trial: Trial, lines: &mut [Line], states: &mut [u8]) -> usize
    requires { Cuttable trial lines.old states.old }
    ensures { LinesCut trial.number (laid_region trial.setup) lines.old lines.new result }
{
    let mut first = 0;
    // stays: each pass says where the next one starts
    while first < lines.len() {
        let left = pass_once(trial, lines, first, states);
        if left == first {
            return first;
        }
        first = left;
    }
    first
}
