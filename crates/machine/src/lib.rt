// One turn of a thread on a region's bytes, made at the place where the thread stands.
#![tactic(auto)]

ghost use Rattle.std.specs.Prelude.{◌≡◌, length};
ghost use Rattle.region.specs.Held.{Stays};
ghost use Rattle.region.specs.Inner.{Within};
ghost use Rattle.machine.specs.Inner.{Placed, Stands, is_withdrawn};
ghost use Rattle.machine.specs.Turn.{Turned, TurnedOn};

use region::{Answer, Frame, Place, Queue, Refusal};
use turns::{free_turn, put_turn, take_turn};

// Whether a turn is to be withdrawn.
fn is_withdrawn(answer: Answer) -> bool
    ensures { result ≡ is_withdrawn answer }
{
    matches!(answer, Answer::Withdrawn)
}

// A turn of thread n at the place where it stands. One that is to be withdrawn changes no byte yet. Each place loads the record for itself.
fn turn_at(queue: &mut Queue, n: u32, choice: u32, place: Place) -> Answer
    requires { Stands queue.old.frame queue.old.bytes.now n place }
    ensures same { Stays queue.old queue.new }
    ensures turn { Placed queue.old.frame queue.old.bytes.now queue.new.bytes.now n choice result }
{
    match place {
        Place::Idle => Answer::Idle,
        Place::ReadDepth => put_turn::<1, _>(queue, n, insert::read_depth),
        Place::ReadLeaf => put_turn::<2, _>(queue, n, |view, t| insert::read_leaf(view, t, choice)),
        Place::ReadAncestor => put_turn::<3, _>(queue, n, insert::read_ancestor),
        Place::GrowDepth => put_turn::<4, _>(queue, n, insert::grow_depth),
        Place::ReadTarget => put_turn::<5, _>(queue, n, insert::read_target),
        Place::InsertAtRoot => put_turn::<6, _>(queue, n, insert::insert_at_root),
        Place::ReadParent => put_turn::<7, _>(queue, n, insert::read_parent),
        Place::InsertBelow => put_turn::<8, _>(queue, n, insert::insert_below),
        Place::ReadRoot => take_turn::<9, _>(queue, n, extract::read_root),
        Place::RemoveHead => take_turn::<10, _>(queue, n, extract::remove_head),
        Place::MendReadNode(w) => free_turn::<11, _>(
            queue,
            n,
            |view, t| moundify::mend_read_node(view, t, w),
        ),
        Place::MendReadDepth(w) => free_turn::<12, _>(
            queue,
            n,
            |view, t| moundify::mend_read_depth(view, t, w),
        ),
        Place::MendReadLeft(w) => free_turn::<13, _>(
            queue,
            n,
            |view, t| moundify::mend_read_left(view, t, w),
        ),
        Place::MendReadRight(w) => free_turn::<14, _>(
            queue,
            n,
            |view, t| moundify::mend_read_right(view, t, w),
        ),
        Place::MendSwap(w) => free_turn::<15, _>(
            queue,
            n,
            |view, t| moundify::mend_swap(view, t, w),
        ),
        Place::MendClean(w) => free_turn::<16, _>(
            queue,
            n,
            |view, t| moundify::mend_clean(view, t, w),
        ),
        Place::ListReadRoot => take_turn::<17, _>(queue, n, extract::list_read_root),
        Place::RemoveList => take_turn::<18, _>(queue, n, extract::remove_list),
        Place::HandOut => free_turn::<19, _>(queue, n, extract::hand_out),
    }
}

// A turn of thread n, with its choice of a leaf. Refused 3, 7, withdrawn, refused 11 in that order; a refused or idle turn changes no byte.
pub fn turn_in(queue: &mut Queue, n: u32, choice: u32) -> Answer
    ensures same { Stays queue.old queue.new }
    ensures turn { Turned queue.old.frame queue.old.bytes.now queue.new.bytes.now n choice result }
{
    let shape = queue.frame.shape;
    if !region::is_between(1, n, shape.threads) {
        return Answer::Refused(Refusal::BadThread);
    }
    let here = queue.thread(n);
    let place = here.place;
    let answer = turn_at(queue, n, choice, place);
    if is_withdrawn(answer) {
        return turns::withdraw(queue, n, place);
    }
    answer
}

// The same of a queue that lies in these bytes.
// stays: the queue is made where it is used; a function that handed it out would lend it, which takes a proof by hand.
pub fn turn(f: Frame, b: &mut [u8], n: u32, choice: u32) -> Answer
    requires { Within f (length b.old) }
    ensures { Turned f b.old b.new n choice result }
{
    let mut queue = Queue::new(b, f);
    turn_in(&mut queue, n, choice)
}

// A turn by itself on a whole region: refused 7 where the region is not readable, then as `turn`.
pub fn turn_on(b: &mut [u8], thread: u32, choice: u32) -> Answer
    ensures { TurnedOn b.old b.new thread choice result }
{
    if !readable::is_readable(b) {
        return Answer::Refused(Refusal::Unreadable);
    }
    let f = readable::frame_of(b);
    turn(f, b, thread, choice)
}
