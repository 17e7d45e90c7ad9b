// A whole turn: the thread's record is loaded, its place decides a plan, the record is stored and the plan's effect carried out. The record
// is stored first, while the fields that the turn left alone are known to be in their places. What decides is given as a function, so that
// the compiled code of each place is its own, and reads and writes the fields that it needs and no others.
// A put's or a take's place that lacks its permission answers withdrawn and changes no byte: `withdraw` is then called, at one place for
// all of them.
#![tactic(auto)]

ghost use Rattle.std.specs.Prelude.{◌≡◌};
ghost use Rattle.region.specs.Held.{Holds, Stays, shared};
ghost use Rattle.region.specs.Shared.{thread_in};
ghost use Rattle.region.specs.Thread.{at_place};
ghost use Rattle.access.specs.Plan.{changes_nothing};
ghost use Rattle.permission.specs.Grants.{may_put, may_take};
ghost use Rattle.permission.specs.Withdraw.{withdrawal};
ghost use Rattle.turns.specs.Inner.{Ended, EndedBy, LookedBy, is_withheld, record_bytes};

use access::Plan;
use region::{Answer, Place, Queue, Thread, View};

// Whether a turn with this answer leaves every byte as it is.
#[inline(always)]
fn changes_nothing(answer: Answer) -> bool
    ensures { result ≡ changes_nothing answer }
{
    matches!(answer, Answer::Idle | Answer::Refused(_))
}

// Stores the record of thread n. One that is idle has a branch of its own, so that the compiled code of the other branch stores no field that
// the turn left alone.
#[tactic(auto, unfolding(crate::specs::Inner::record_bytes, region::specs::Pick::pick))]
#[inline(always)]
fn store_record<const PLACE: u32>(queue: &mut Queue, n: u32, t: Thread)
    ensures { Holds queue.old queue.new (record_bytes queue.old.frame queue.old.bytes.now n t) }
{
    if t.is_idle() {
        queue.set_thread(n, t.gone_idle());
    } else {
        queue.set_thread(n, t);
    }
}

// Ends a turn with its plan: an idle or refused turn changes nothing. PLACE is the place's number, 0 for a withdrawal, and is there for speed alone:
// so each place has a copy of this code, which the compiler joins to the place's own.
#[tactic(auto, unfolding(crate::specs::Inner::plan_bytes, region::specs::Pick::pick))]
#[inline(always)]
fn end<const PLACE: u32>(queue: &mut Queue, n: u32, plan: Plan) -> Answer
    ensures same { Stays queue.old queue.new }
    ensures turn { Ended queue.old.frame queue.old.bytes.now queue.new.bytes.now n plan result }
{
    if changes_nothing(plan.answer) {
        return plan.answer;
    }
    store_record::<PLACE>(queue, n, plan.thread);
    plan.effect.carry_out::<PLACE>(queue);
    plan.answer
}

// Whether the turn is to be withdrawn: its permission is not there, and it is not refused 7.
#[tactic(auto, unfolding(crate::specs::Inner::is_withheld))]
#[inline(always)]
fn is_withheld(may: bool, answer: Answer) -> bool
    ensures { result ≡ is_withheld may answer }
{
    !may && !permission::is_unreadable(answer)
}

// Carries out the withdrawal of thread n, which stands at this place. The place is given and not read again, so that the compiled code of a
// turn, which has gone by it, need not keep it until here.
#[inline(always)]
pub fn withdraw(queue: &mut Queue, n: u32, place: Place) -> Answer
    ensures same { Stays queue.old queue.new }
    ensures turn { Ended queue.old.frame queue.old.bytes.now queue.new.bytes.now n (withdrawal (at_place (thread_in queue.old.frame queue.old.bytes.now n) place)) result }
{
    let t = queue.thread(n);
    end::<0>(queue, n, permission::withdrawal(t.at_place(place)))
}

// A turn at a place that decides so, whatever the permission.
#[inline(always)]
pub fn free_turn<const PLACE: u32, D: FnOnce(View, Thread) -> Plan>(
    queue: &mut Queue,
    n: u32,
    decide: D,
) -> Answer
    requires { D.IsAlwaysCallable decide }
    ensures same { Stays queue.old queue.new }
    ensures turn { EndedBy (D.post decide) queue.old.frame queue.old.bytes.now queue.new.bytes.now n result }
{
    let t = queue.thread(n);
    let plan = decide(queue.view(), t);
    end::<PLACE>(queue, n, plan)
}

// The same where the permission is there; else the turn is to be withdrawn.
// stays: `may` is what the permission says, and no caller chooses it; the step is the same with both, but for a plan that may not be carried out.
#[inline(always)]
fn turn_where<const PLACE: u32, D: FnOnce(View, Thread) -> Plan>(
    queue: &mut Queue,
    n: u32,
    may: bool,
    decide: D,
) -> Answer
    requires { D.IsAlwaysCallable decide }
    ensures same { Stays queue.old queue.new }
    ensures turn { LookedBy (D.post decide) may queue.old.frame queue.old.bytes.now queue.new.bytes.now n result }
{
    let t = queue.thread(n);
    let plan = decide(queue.view(), t);
    if is_withheld(may, plan.answer) {
        return Answer::Withdrawn;
    }
    end::<PLACE>(queue, n, plan)
}

// A turn at a place of a put.
#[inline(always)]
pub fn put_turn<const PLACE: u32, D: FnOnce(View, Thread) -> Plan>(
    queue: &mut Queue,
    n: u32,
    decide: D,
) -> Answer
    requires { D.IsAlwaysCallable decide }
    ensures same { Stays queue.old queue.new }
    ensures turn { LookedBy (D.post decide) (may_put (thread_in queue.old.frame queue.old.bytes.now n)) queue.old.frame queue.old.bytes.now queue.new.bytes.now n result }
{
    let may = permission::may_put(queue.thread(n));
    turn_where::<PLACE, D>(queue, n, may, decide)
}

// A turn at a place of a take that has not decided.
// stays: this and `put_turn` differ in the permission that they ask for; what they share is `turn_where`.
#[inline(always)]
pub fn take_turn<const PLACE: u32, D: FnOnce(View, Thread) -> Plan>(
    queue: &mut Queue,
    n: u32,
    decide: D,
) -> Answer
    requires { D.IsAlwaysCallable decide }
    ensures same { Stays queue.old queue.new }
    ensures turn { LookedBy (D.post decide) (may_take (thread_in queue.old.frame queue.old.bytes.now n)) queue.old.frame queue.old.bytes.now queue.new.bytes.now n result }
{
    let may = permission::may_take(queue.thread(n));
    turn_where::<PLACE, D>(queue, n, may, decide)
}
