// What a turn decides.
ghost use Rattle.std.specs.Prelude.{◌≡◌};
ghost use Rattle.access.specs.Plan.{accesses_of, moved, on_to, plan, refused};

use crate::effect::Effect;
use region::{Answer, Place, Refusal, Thread};

// The effect on shared memory, the thread's record afterwards, and the answer.
#[derive(Clone, Copy)]
pub struct Plan {
    pub effect: Effect,
    pub thread: Thread,
    pub answer: Answer,
}

// A plan from its parts.
// stays: `plan` of specs/Plan.antt in code; as a struct expression it would take five lines at each of its uses.
#[tactic(auto, unfolding(crate::specs::Plan::plan))]
pub fn plan_of(effect: Effect, thread: Thread, answer: Answer) -> Plan
    ensures { result ≡ plan effect thread answer }
{
    Plan {
        effect,
        thread,
        answer,
    }
}

// The thread's record is all that changes.
#[tactic(auto, unfolding(crate::specs::Plan::moved))]
pub fn moved(thread: Thread) -> Plan
    ensures { result ≡ moved thread }
{
    plan_of(Effect::Nothing, thread, Answer::Moved)
}

// The thread goes on to a place, and nothing else changes.
#[tactic(auto, unfolding(crate::specs::Plan::on_to))]
pub fn on_to(thread: Thread, place: Place) -> Plan
    ensures { result ≡ on_to thread place }
{
    moved(thread.at_place(place))
}

// A refused turn.
#[tactic(auto, unfolding(crate::specs::Plan::refused))]
pub fn refused(thread: Thread, refusal: Refusal) -> Plan
    ensures { result ≡ refused thread refusal }
{
    plan_of(Effect::Nothing, thread, Answer::Refused(refusal))
}

// The accesses of a turn with this answer.
pub fn accesses_of(answer: Answer) -> u32
    ensures { result ≡ accesses_of answer }
{
    match answer {
        Answer::Moved | Answer::Inserted | Answer::Took(_) | Answer::Empty => 1,
        Answer::Idle | Answer::Refused(_) | Answer::Withdrawn => 0,
    }
}
