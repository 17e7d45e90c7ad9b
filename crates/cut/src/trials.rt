// Trials: the lines that are left are run from a region on, until the number is shown. Turns that follow each other are served together, by one
// run, which goes to its end. No line's call looks at the whole region: it is laid out, so it is readable, and every call keeps it so.
ghost use Rattle.std.specs.Prelude.{◌≡◌, ◌+◌, ◌*◌, ◌≤◌, length};
ghost use Rattle.region.specs.Held.{Stays};
ghost use Rattle.run.specs.Run.{turns_from};
ghost use Rattle.script.specs.Inner.{Ready};
ghost use Rattle.cut.specs.Inner.{CallReady, CallShown, Gatherable, Gathered, LinesRan, TurnStored, TurnsReady, TurnsShown, any_refused_at, refused_at, refused_with};

use crate::lines::{Call, Line};
use region::{Frame, Place, Queue, Refusal};
use script::What;

// The most turns that are served at once: 128 bytes of schedule, 192 of answers.
const GROUP: usize = 16;

// Whether a call that is not a turn is refused with this number.
#[tactic(auto, unfolding(crate::specs::Inner::refused_with))]
fn is_refused(checked: Result<(), Refusal>, number: u32) -> bool
    ensures { result ≡ refused_with number checked }
{
    match checked {
        Ok(()) => false,
        Err(refusal) => u32::from(refusal) == number,
    }
}

// Whether answer k is the refusal with this number.
#[tactic(auto, unfolding(crate::specs::Inner::refused_at))]
fn is_refusal(answers: &[u8], k: usize, number: u32) -> bool
    requires { 12 * k + 12 ≤ length answers.now }
    ensures { result ≡ refused_at number answers.now k }
{
    words::load_word(answers, 3 * k) == 5 && words::load_word(answers, 3 * k + 1) == number
}

// Whether one of the first answers is the refusal with this number.
fn any_refusal(answers: &[u8], count: usize, number: u32) -> bool
    requires { 12 * count ≤ length answers.now }
    ensures { result ≡ any_refused_at number answers.now 0 count }
{
    for k in 0..count {
        if is_refusal(answers, k, number) {
            return true;
        }
    }
    false
}

// Enters a turn into a schedule.
fn store_turn(schedule: &mut [u8], k: usize, thread: u32, choice: u32)
    requires { 8 * k + 8 ≤ length schedule.old }
    ensures { TurnStored schedule.old k thread choice schedule.new }
{
    words::store_word(schedule, 2 * k, thread);
    words::store_word(schedule, 2 * k + 1, choice);
}

// Enters the turns with which these lines start into a schedule, 16 at most. Answers how many.
fn gather(lines: &[Line], schedule: &mut [u8]) -> usize
    requires { Gatherable lines.now (length schedule.old) }
    ensures { Gathered lines.now schedule.new result }
{
    let most = lines.len().min(GROUP);
    for k in 0..most {
        let call = lines[k].call;
        let What::Turn(choice) = call.what else {
            return k;
        };
        store_turn(schedule, k, call.thread, choice);
    }
    most
}

// Serves the first turns of a schedule and tells whether one of them shows the number.
fn turns_show(region: &mut [u8], schedule: &[u8], turns: usize, number: u32) -> bool
    requires { TurnsReady region.old (length schedule.now) turns }
    ensures { TurnsShown number (turns_from schedule.now 0 turns) region.old region.new result }
{
    let end = 8 * turns;
    let mut answers = [0u8; 192];
    // with a limit that so few turns cannot reach
    let _ = run::run_ready(region, &schedule[..end], 4294967295, &mut answers);
    any_refusal(&answers, turns, number)
}

// Makes a call that is not a turn on a queue, and tells whether it shows the number.
fn call_shows_in(queue: &mut Queue, call: Call, number: u32) -> bool
    requires { CallReady queue.old.frame queue.old.bytes.now call }
    ensures same { Stays queue.old queue.new }
    ensures shown { CallShown number queue.old.bytes.now queue.new.bytes.now call result }
{
    let what = call.what;
    let thread = call.thread;
    match what {
        What::Put(item) => is_refused(begin::begin_put_in(queue, thread, item), number),
        What::Take => is_refused(begin::begin_take_in(queue, thread, Place::ReadRoot), number),
        What::TakeList => is_refused(
            begin::begin_take_in(queue, thread, Place::ListReadRoot),
            number,
        ),
        What::Permit(p) => is_refused(permission::permit_in(queue, thread, p), number),
        What::Turn(_) => false,
    }
}

// The same on a region.
// stays: the queue is made where it is used; a function that handed it out would lend it, which takes a proof by hand.
fn call_shows(f: Frame, region: &mut [u8], call: Call, number: u32) -> bool
    requires { CallReady f region.old call }
    ensures { CallShown number region.old region.new call result }
{
    let mut queue = Queue::new(region, f);
    call_shows_in(&mut queue, call, number)
}

// Runs the lines on a region and tells whether one of them shows the number; if so, it stops at the call or at the run of turns that does.
pub fn run_lines(f: Frame, region: &mut [u8], lines: &[Line], number: u32) -> bool
    requires { Ready f region.old }
    ensures { LinesRan number lines.now region.old region.new result }
{
    let mut schedule = [0u8; 128];
    let mut k = 0;
    // stays: k goes on by a line or by a run of turns
    while k < lines.len() {
        let turns = gather(&lines[k..], &mut schedule);
        if turns == 0 {
            if call_shows(f, region, lines[k].call, number) {
                return true;
            }
            k += 1;
        } else {
            if turns_show(region, &schedule, turns, number) {
                return true;
            }
            k += turns;
        }
    }
    false
}
