// A script from beginning to end: its opening, the layout, then line by line the call and what came of it.
ghost use Rattle.std.specs.Prelude.{◌≡◌, ◌+◌, ◌≤◌, ◌++◌, drop, length};
ghost use Rattle.region.specs.Held.{Stays};
ghost use Rattle.script.specs.Reading.{script_most};
ghost use Rattle.script.specs.Script.{done_or, laid_region, region_length, setup_check, setup_refusal};
ghost use Rattle.script.specs.Promises.{ScriptRan, lines_room, region_room};
ghost use Rattle.script.specs.Inner.{CallMade, LinesRan, LinesReady, Ready, SetUp, SetupRan};

use crate::printing::{Outcome, write_line};
use crate::reading::{Setup, What, line_at, read_opening};
use crate::text::Text;
use region::{Answer, Frame, Place, Queue, Refusal, require};

// The bytes of the largest region that a script can lay out: D 8, C 128, T 64.
pub const REGION_ROOM: usize = 14856;

// The most that a script prints: its heading, and 55 bytes for each of 6,000 lines and for one that cannot be read.
pub const OUTPUT_ROOM: usize = 330082;

// The outcome of a call that is done, or its refusal.
fn done_or(done: Outcome, checked: Result<(), Refusal>) -> Outcome
    ensures { result ≡ done_or done checked }
{
    match checked {
        Ok(()) => done,
        Err(refusal) => Outcome::Answered(Answer::Refused(refusal)),
    }
}

// Makes a line's call on a queue.
fn call_in(queue: &mut Queue, what: What, thread: u32) -> Outcome
    requires { Ready queue.old.frame queue.old.bytes.now }
    ensures same { Stays queue.old queue.new }
    ensures call { CallMade queue.old.bytes.now queue.new.bytes.now what thread result }
{
    match what {
        What::Put(item) => done_or(Outcome::Begun, begin::begin_put_in(queue, thread, item)),
        What::Take => done_or(
            Outcome::Begun,
            begin::begin_take_in(queue, thread, Place::ReadRoot),
        ),
        What::TakeList => done_or(
            Outcome::Begun,
            begin::begin_take_in(queue, thread, Place::ListReadRoot),
        ),
        What::Permit(p) => done_or(Outcome::Set, permission::permit_in(queue, thread, p)),
        What::Turn(choice) => Outcome::Answered(machine::turn_in(queue, thread, choice)),
    }
}

// Makes a line's call on the region. It is readable, since it was laid out and each line's call keeps it so; no call looks at it whole.
// stays: the queue is made where it is used; a function that handed it out would lend it, which takes a proof by hand.
pub fn make_call(f: Frame, region: &mut [u8], what: What, thread: u32) -> Outcome
    requires { Ready f region.old }
    ensures { CallMade region.old region.new what thread result }
{
    let mut queue = Queue::new(region, f);
    call_in(&mut queue, what, thread)
}

// Makes the calls of the lines from a position on and prints what comes of each, up to the first line that cannot be read.
fn run_lines(f: Frame, input: &[u8], start: usize, region: &mut [u8], text: &mut Text)
    requires { LinesReady f input.now region.old text.old }
    ensures { LinesRan input.now start region.old region.new text.old text.new }
{
    let mut at = start;
    let mut line: u32 = 1;
    // stays: each line says where the next one starts, so there is no range or iterator to go along
    while at < input.len() {
        let Some(l) = line_at(input, at) else {
            return write_line(text, line, 0, Outcome::Unreadable);
        };
        let what = l.what;
        let outcome = make_call(f, region, what, l.thread);
        write_line(text, line, l.thread, outcome);
        at = l.next;
        line += 1;
    }
}

// What a script's layout is refused for, if anything.
pub fn setup_check(setup: Setup) -> Result<(), Refusal>
    ensures { result ≡ setup_check setup }
{
    let shape = setup.shape;
    if 8 < shape.depth {
        return Err(Refusal::BadShape);
    }
    if !shape.fits() {
        return Err(Refusal::BadShape);
    }
    require(setup.permission <= 3, Refusal::BadShape)
}

// Lays out the region of an accepted setup at the start of the lent one.
pub fn lay_region(region: &mut [u8], setup: Setup)
    requires { (setup_refusal setup ≡ 0) × (length region.old ≡ region_room) }
    ensures { region.new ≡ laid_region setup ++ drop (region_length setup) region.old }
{
    let shape = setup.shape;
    let permissions = [setup.permission as u8; 64];
    let threads = shape.threads as usize;
    let n = 4 * shape.word_count();
    let _ = layout::lay_out(&mut region[..n], shape, &permissions[..threads]);
}

// Lays out the region of the script's shape at the start of the lent one, or refuses and changes no byte.
#[tactic(auto, unfolding(crate::specs::Script::setup_refusal, region::specs::Pick::pick))]
fn set_up(region: &mut [u8], setup: Setup) -> Result<(), Refusal>
    requires { length region.old ≡ region_room }
    ensures { SetUp region.old region.new setup result }
{
    setup_check(setup)?;
    lay_region(region, setup);
    Ok(())
}

// Sets the region up, then runs the lines, or prints the refusal as line 0.
fn run_setup(input: &[u8], setup: Setup, region: &mut [u8], text: &mut Text)
    requires { (length input.now ≤ script_most) × (length region.old ≡ region_room) × (text.old.len + lines_room ≤ length text.old.out.now) }
    ensures { SetupRan input.now setup region.old region.new text.old text.new }
{
    match set_up(region, setup) {
        Err(refusal) => write_line(text, 0, 0, Outcome::Answered(Answer::Refused(refusal))),
        Ok(()) => {
            let shape = setup.shape;
            let n = 4 * shape.word_count();
            let f = Frame::of(shape);
            run_lines(f, input, setup.next, &mut region[..n], text);
        }
    }
}

// Runs a script: answers how many bytes it prints, and leaves them at the start of the output and the region, as its lines
// left it, at the start of the lent one. All else in both stays as it was.
pub fn run_script(
    input: &[u8],
    output: &mut [u8; OUTPUT_ROOM],
    region: &mut [u8; REGION_ROOM],
) -> usize
    ensures { ScriptRan input.now output.old output.new region.old region.new result }
{
    let mut text = Text::behind(output, 0);
    text.push(b"line thread answer key tag\n");
    let Some(setup) = read_opening(input) else {
        write_line(&mut text, 0, 0, Outcome::Unreadable);
        return text.len;
    };
    run_setup(input, setup, region, &mut text);
    text.len
}
