// A run: the turns of a schedule, served in order until it ends or the accesses made equal the limit.
#![tactic(auto)]

ghost use Rattle.std.specs.Prelude.{◌≡◌, true, ◌+◌, ◌*◌, ◌/◌, ◌≤◌, length};
ghost use Rattle.words.specs.Word.{set_words};
ghost use Rattle.region.specs.Answer.{answer_words};
ghost use Rattle.region.specs.Held.{Stays};
ghost use Rattle.readable.specs.Readable.{readable};
ghost use Rattle.run.specs.Run.{schedule_check, serve, serve_all, so_far, turn_at, turns_from};
ghost use Rattle.run.specs.Inner.{Ran, RanIn, RunWithin, TurnWithin};

use region::{Answer, Queue, Refusal, require};

// The turns served and the accesses made.
#[derive(Clone, Copy)]
pub struct Counts {
    pub turns: u32,
    pub accesses: u32,
}

// Stores the answer of turn k.
fn store_answer(answers: &mut [u8], k: usize, answer: Answer)
    requires { 12 * k + 12 ≤ length answers.old }
    ensures { answers.new ≡ set_words answers.old (3 * k) (answer_words answer) }
{
    let words = [answer.code(), answer.key(), answer.tag()];
    words::store_words(answers, 3 * k, &words);
}

// Serves the next turn and stores its answer. Given are the turns served and the accesses made before it; the result is the
// accesses made, those of this turn included.
fn serve(queue: &mut Queue, schedule: &[u8], answers: &mut [u8], turns: u32, accesses: u32) -> u32
    requires { TurnWithin (length schedule.now) (length answers.old) turns accesses }
    ensures same { Stays queue.old queue.new }
    ensures turn { so_far queue.new.bytes.now answers.new (turns + 1) result ≡ serve queue.old.frame (turn_at schedule.now turns) (so_far queue.old.bytes.now answers.old turns accesses) }
{
    let k = turns as usize;
    let thread = words::load_word(schedule, 2 * k);
    let choice = words::load_word(schedule, 2 * k + 1);
    let answer = machine::turn_in(queue, thread, choice);
    store_answer(answers, k, answer);
    accesses + access::accesses_of(answer)
}

// Serves the turns of the schedule until it ends or the limit is reached.
fn serve_all(queue: &mut Queue, schedule: &[u8], limit: u32, answers: &mut [u8]) -> Counts
    requires { RunWithin (length schedule.now) (length answers.old) }
    ensures same { Stays queue.old queue.new }
    ensures turns { so_far queue.new.bytes.now answers.new result.turns result.accesses ≡ serve_all queue.old.frame limit (turns_from schedule.now 0 (length schedule.now / 8)) (so_far queue.old.bytes.now answers.old 0 0) }
{
    let count = (schedule.len() / 8) as u32;
    let mut accesses = 0;
    for turns in 0..count {
        if accesses == limit {
            return Counts { turns, accesses };
        }
        accesses = serve(queue, schedule, answers, turns, accesses);
    }
    Counts {
        turns: count,
        accesses,
    }
}

// What a schedule with this much room for its answers is refused for, if anything.
#[tactic(auto, unfolding(region::specs::Pick::pick))]
fn schedule_check(schedule: &[u8], room: usize) -> Result<(), Refusal>
    ensures { result ≡ schedule_check schedule.now room }
{
    let count = schedule.len() / 8;
    require(
        schedule.len() % 8 == 0 && count <= 4096,
        Refusal::BadSchedule,
    )?;
    require(12 * count <= room, Refusal::ShortAnswers)
}

// Runs a schedule, or refuses (6, 5) and changes no byte.
#[tactic(auto, unfolding(crate::specs::Run::schedule_refusal, crate::specs::Run::run_result_in, region::specs::Pick::pick))]
pub fn run_in(
    queue: &mut Queue,
    schedule: &[u8],
    limit: u32,
    answers: &mut [u8],
) -> Result<Counts, Refusal>
    ensures same { Stays queue.old queue.new }
    ensures run { RanIn queue.old.frame queue.old.bytes.now queue.new.bytes.now schedule.now limit answers.old answers.new result }
{
    schedule_check(schedule, answers.len())?;
    Ok(serve_all(queue, schedule, limit, answers))
}

// Runs a schedule on a region that is known to be readable, without the check, or refuses (6, 5) and changes no byte.
#[tactic(auto, unfolding(crate::specs::Run::run_refusal, crate::specs::Run::schedule_refusal, crate::specs::Run::run_result, crate::specs::Run::run_result_in, region::specs::Pick::pick))]
pub fn run_ready(
    b: &mut [u8],
    schedule: &[u8],
    limit: u32,
    answers: &mut [u8],
) -> Result<Counts, Refusal>
    requires { readable b.old ≡ true }
    ensures { Ran b.old b.new schedule.now limit answers.old answers.new result }
{
    let f = readable::frame_of(b);
    let mut queue = Queue::new(b, f);
    run_in(&mut queue, schedule, limit, answers)
}

// Runs a schedule on a region that holds one queue, or refuses (7, 6, 5) and changes no byte.
#[tactic(auto, unfolding(crate::specs::Run::run_refusal, crate::specs::Run::run_result, region::specs::Pick::pick))]
pub fn run(b: &mut [u8], schedule: &[u8], limit: u32, answers: &mut [u8]) -> Result<Counts, Refusal>
    ensures { Ran b.old b.new schedule.now limit answers.old answers.new result }
{
    require(readable::is_readable(b), Refusal::Unreadable)?;
    run_ready(b, schedule, limit, answers)
}
