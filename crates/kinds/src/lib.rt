// What a turn counts as: the kind of its access, whether its update failed, and the plan of a turn that is yet to be made.
#![tactic(auto)]

ghost use Rattle.std.specs.Prelude.{◌≡◌, length};
ghost use Rattle.region.specs.Held.{viewed};
ghost use Rattle.region.specs.Inner.{Within};
ghost use Rattle.region.specs.Shared.{shared_in};
ghost use Rattle.machine.specs.Turn.{decide_at, turn_plan};
ghost use Rattle.kinds.specs.Kind.{access_kind, failed_update, is_nothing, is_update, makes_access};

use access::{Effect, Plan};
use region::{Answer, Frame, Place, Refusal, Thread, View};

// The kind of access of each place, by the place's number: idle, I1 to I8, E1, E2, M1 to M6, 17 to 19. READ node is 0, READ depth 1,
// CAS 2, DCAS 3, DCSS 4, a hand-out 5; 6 is no access.
const KINDS: [usize; 20] = [6, 1, 0, 0, 2, 0, 2, 0, 4, 0, 2, 0, 1, 0, 0, 3, 2, 0, 2, 5];

// The kind of access that a place makes.
pub fn access_kind(place: Place) -> usize
    ensures { result ≡ access_kind place }
{
    KINDS[place.number() as usize]
}

// CAS, DCAS or DCSS.
#[tactic(auto, unfolding(crate::specs::Kind::is_update, region::specs::Shape::between))]
fn is_update(kind: usize) -> bool
    ensures { result ≡ is_update kind }
{
    2 <= kind && kind <= 4
}

// Whether a turn with this answer made its access.
#[tactic(auto, unfolding(crate::specs::Kind::makes_access))]
pub fn makes_access(answer: Answer) -> bool
    ensures { result ≡ makes_access answer }
{
    access::accesses_of(answer) == 1
}

// Whether an effect changes nothing.
fn is_nothing(effect: Effect) -> bool
    ensures { result ≡ is_nothing effect }
{
    matches!(effect, Effect::Nothing)
}

// Whether a turn at this place with this plan is an update that failed.
#[tactic(auto, unfolding(crate::specs::Kind::failed_update))]
pub fn has_failed(place: Place, plan: Plan) -> bool
    ensures { result ≡ failed_update place plan }
{
    is_update(access_kind(place)) && makes_access(plan.answer) && is_nothing(plan.effect)
}

// The plan at the place where the thread stands.
// stays: a second match over the places beside `machine`'s, where each place ends its turn in code of its own, for speed.
fn plan_at(view: View, t: Thread, choice: u32, place: Place) -> Plan
    ensures { result ≡ decide_at view.entry.frame.shape (viewed view.entry) t choice place }
{
    match place {
        Place::Idle => access::plan_of(Effect::Nothing, t, Answer::Idle),
        Place::ReadDepth => insert::read_depth(view, t),
        Place::ReadLeaf => insert::read_leaf(view, t, choice),
        Place::ReadAncestor => insert::read_ancestor(view, t),
        Place::GrowDepth => insert::grow_depth(view, t),
        Place::ReadTarget => insert::read_target(view, t),
        Place::InsertAtRoot => insert::insert_at_root(view, t),
        Place::ReadParent => insert::read_parent(view, t),
        Place::InsertBelow => insert::insert_below(view, t),
        Place::ReadRoot => extract::read_root(view, t),
        Place::RemoveHead => extract::remove_head(view, t),
        Place::MendReadNode(w) => moundify::mend_read_node(view, t, w),
        Place::MendReadDepth(w) => moundify::mend_read_depth(view, t, w),
        Place::MendReadLeft(w) => moundify::mend_read_left(view, t, w),
        Place::MendReadRight(w) => moundify::mend_read_right(view, t, w),
        Place::MendSwap(w) => moundify::mend_swap(view, t, w),
        Place::MendClean(w) => moundify::mend_clean(view, t, w),
        Place::ListReadRoot => extract::list_read_root(view, t),
        Place::RemoveList => extract::remove_list(view, t),
        Place::HandOut => extract::hand_out(view, t),
    }
}

// What a turn of thread n would do and answer, with its choice of a leaf: the turn's plan. Nothing is changed.
#[tactic(auto, unfolding(machine::specs::Turn::turn_plan, machine::specs::Turn::decide, region::specs::Pick::pick))]
pub fn turn_plan(f: Frame, b: &[u8], n: u32, choice: u32) -> Plan
    requires { Within f (length b.now) }
    ensures { result ≡ turn_plan f b.now n choice }
{
    let shape = f.shape;
    if !region::is_between(1, n, shape.threads) {
        return access::refused(Thread::idle(0), Refusal::BadThread);
    }
    let view = View::new(b, f);
    let t = view.thread(n);
    let place = t.place;
    let plan = plan_at(view, t, choice, place);
    permission::permitted(t, plan)
}
