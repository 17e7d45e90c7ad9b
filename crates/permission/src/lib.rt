// A thread's permission: what it grants, the call that sets it, and what a turn does whose operation lacks it.
#![tactic(auto)]

ghost use Rattle.std.specs.Prelude.{◌≡◌};
ghost use Rattle.region.specs.Held.{Stays};
ghost use Rattle.region.specs.Refusal.{code_of};
ghost use Rattle.permission.specs.Grants.{may_put, may_take};
ghost use Rattle.permission.specs.Permit.{PermitSet, PermitSetIn, permit_check_in};
ghost use Rattle.permission.specs.Withdraw.{is_put_place, is_take_place, is_unreadable, lacks_permission, permitted, withdrawal};

use access::{Effect, Plan};
use region::{Answer, Frame, Place, Queue, Refusal, Thread, require};

#[tactic(auto, unfolding(crate::specs::Grants::may_put))]
pub fn may_put(t: Thread) -> bool
    ensures { result ≡ may_put t }
{
    t.permission % 2 == 1
}

#[tactic(auto, unfolding(crate::specs::Grants::may_take))]
pub fn may_take(t: Thread) -> bool
    ensures { result ≡ may_take t }
{
    t.permission / 2 % 2 == 1
}

// I1 to I8.
#[tactic(auto, unfolding(crate::specs::Withdraw::is_put_place))]
fn is_put_place(place: Place) -> bool
    ensures { result ≡ is_put_place place }
{
    region::is_between(1, place.number(), 8)
}

// E1, E2, 17 and 18.
#[tactic(auto, unfolding(crate::specs::Withdraw::is_take_place))]
fn is_take_place(place: Place) -> bool
    ensures { result ≡ is_take_place place }
{
    let n = place.number();
    if region::is_between(9, n, 10) {
        return true;
    }
    region::is_between(17, n, 18)
}

// Whether the thread stands at a place of an operation for which it has no permission.
#[tactic(auto, unfolding(crate::specs::Withdraw::lacks_permission))]
fn lacks_permission(t: Thread) -> bool
    ensures { result ≡ lacks_permission t }
{
    let place = t.place;
    (is_put_place(place) && !may_put(t)) || (is_take_place(place) && !may_take(t))
}

// Whether a turn is refused as unreadable, which comes before its withdrawal.
pub fn is_unreadable(answer: Answer) -> bool
    ensures { result ≡ is_unreadable answer }
{
    matches!(answer, Answer::Refused(Refusal::Unreadable))
}

// The plan of a withdrawn turn: a put's own cell is freed, and the thread goes idle.
#[tactic(auto, unfolding(crate::specs::Withdraw::withdrawal, region::specs::Pick::pick))]
pub fn withdrawal(t: Thread) -> Plan
    ensures { result ≡ withdrawal t }
{
    let own = t.own;
    let place = t.place;
    if !is_put_place(place) {
        return access::plan_of(Effect::Nothing, t.gone_idle(), Answer::Withdrawn);
    }
    if own == 0 {
        return access::refused(t, Refusal::Unreadable);
    }
    access::plan_of(Effect::Free(own), t.gone_idle(), Answer::Withdrawn)
}

// The plan of a turn, from its place's plan: that plan, or the withdrawal where the permission is lacking.
#[tactic(auto, unfolding(crate::specs::Withdraw::permitted, region::specs::Pick::pick))]
pub fn permitted(t: Thread, plan: Plan) -> Plan
    ensures { result ≡ permitted t plan }
{
    if !lacks_permission(t) {
        return plan;
    }
    let answer = plan.answer;
    if is_unreadable(answer) {
        return plan;
    }
    withdrawal(t)
}

// What the call is refused for, if anything.
#[tactic(auto, unfolding(region::specs::Pick::pick))]
fn permit_check(frame: Frame, thread: u32, permission: u32) -> Result<(), Refusal>
    ensures { result ≡ permit_check_in frame thread permission }
{
    let shape = frame.shape;
    require(
        region::is_between(1, thread, shape.threads),
        Refusal::BadThread,
    )?;
    require(permission <= 3, Refusal::BadShape)
}

// Sets a thread's permission, or refuses (3, 1) and changes no byte. The thread may be busy.
#[tactic(auto, unfolding(crate::specs::Permit::permit_bytes_in, crate::specs::Permit::permit_refusal_in, region::specs::Pick::pick))]
pub fn permit_in(queue: &mut Queue, thread: u32, permission: u32) -> Result<(), Refusal>
    ensures same { Stays queue.old queue.new }
    ensures permission { PermitSetIn queue.old.frame queue.old.bytes.now queue.new.bytes.now thread permission result }
{
    permit_check(queue.frame, thread, permission)?;
    queue.set_permission(thread, permission);
    Ok(())
}

// Sets a thread's permission on a region that holds one queue, or refuses (7, 3, 1) and changes no byte.
#[tactic(auto, unfolding(crate::specs::Permit::permit_bytes, crate::specs::Permit::permit_bytes_in, crate::specs::Permit::permit_refusal, crate::specs::Permit::permit_refusal_in, region::specs::Pick::pick))]
pub fn permit(b: &mut [u8], thread: u32, permission: u32) -> Result<(), Refusal>
    ensures { PermitSet b.old b.new thread permission (code_of result) }
{
    require(readable::is_readable(b), Refusal::Unreadable)?;
    let f = readable::frame_of(b);
    let mut queue = Queue::new(b, f);
    permit_in(&mut queue, thread, permission)
}
