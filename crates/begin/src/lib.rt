// Beginning a put and both kinds of take: what cannot begin is refused, and then no byte changes. First on a queue, in any region that has one;
// then as calls on a whole region that holds one queue.
#![tactic(auto)]

ghost use Rattle.std.specs.Prelude.{◌≡◌};
ghost use Rattle.region.specs.Held.{Holds, Stays};
ghost use Rattle.region.specs.Refusal.{code_of};
ghost use Rattle.region.specs.declared.place.Place.TheVariants.{ReadRoot, ListReadRoot};
ghost use Rattle.begin.specs.Begin.{PutBegun, PutBegunIn, TakeBegun, TakeBegunIn, accepted_put, put_check_in, take_check_in};

use region::{Cell, Item, Place, Queue, Refusal, View, require};

// What a put is refused for, if anything.
#[tactic(auto, unfolding(crate::specs::Begin::has_free_cell, region::specs::Pick::pick))]
fn put_check(queue: View, thread: u32, item: Item) -> Result<(), Refusal>
    ensures { result ≡ put_check_in queue.entry.frame queue.entry.bytes.now thread item }
{
    let shape = queue.frame.shape;
    require(
        region::is_between(1, thread, shape.threads),
        Refusal::BadThread,
    )?;
    require(region::is_item(item), Refusal::BadItem)?;
    let t = queue.thread(thread);
    require(permission::may_put(t), Refusal::NotPermitted)?;
    require(t.is_idle(), Refusal::ThreadBusy)?;
    require(queue.free() != 0, Refusal::NoFreeCell)
}

// Takes the first free cell from the chain and begins the put with it.
#[tactic(auto, unfolding(crate::specs::Begin::accepted_put))]
fn accept_put(queue: &mut Queue, thread: u32, item: Item)
    ensures { Holds queue.old queue.new (accepted_put queue.old.frame queue.old.bytes.now thread item) }
{
    let own = queue.free();
    let cell = queue.cell(own);
    let t = queue.thread(thread);
    queue.set_free(cell.next);
    queue.set_cell(own, Cell { item, next: 0 });
    queue.set_thread(thread, t.begun_put(item, own));
}

// Begins a put of item by a thread, or refuses (3, 4, 8, 9, 10).
#[tactic(auto, unfolding(crate::specs::Begin::put_bytes_in, crate::specs::Begin::put_refusal_in, region::specs::Pick::pick))]
pub fn begin_put_in(queue: &mut Queue, thread: u32, item: Item) -> Result<(), Refusal>
    ensures same { Stays queue.old queue.new }
    ensures put { PutBegunIn queue.old.frame queue.old.bytes.now queue.new.bytes.now thread item result }
{
    put_check(queue.view(), thread, item)?;
    accept_put(queue, thread, item);
    Ok(())
}

// Begins a put of item by a thread, or refuses (7, 3, 4, 8, 9, 10).
// stays: here, below and in `permission` the queue is made where it is used; a function that handed it out would lend it, which takes a proof by hand.
#[tactic(auto, unfolding(crate::specs::Begin::put_bytes, crate::specs::Begin::put_bytes_in, crate::specs::Begin::put_refusal, crate::specs::Begin::put_refusal_in, region::specs::Pick::pick))]
pub fn begin_put(b: &mut [u8], thread: u32, item: Item) -> Result<(), Refusal>
    ensures { PutBegun b.old b.new thread item (code_of result) }
{
    require(readable::is_readable(b), Refusal::Unreadable)?;
    let f = readable::frame_of(b);
    let mut queue = Queue::new(b, f);
    begin_put_in(&mut queue, thread, item)
}

// What a take is refused for, if anything.
#[tactic(auto, unfolding(region::specs::Pick::pick))]
fn take_check(queue: View, thread: u32) -> Result<(), Refusal>
    ensures { result ≡ take_check_in queue.entry.frame queue.entry.bytes.now thread }
{
    let shape = queue.frame.shape;
    require(
        region::is_between(1, thread, shape.threads),
        Refusal::BadThread,
    )?;
    let t = queue.thread(thread);
    require(permission::may_take(t), Refusal::NotPermitted)?;
    require(t.is_idle(), Refusal::ThreadBusy)
}

// Begins a take by a thread at this place, or refuses (3, 8, 9).
#[tactic(auto, unfolding(crate::specs::Begin::take_bytes_in, crate::specs::Begin::take_refusal_in, region::specs::Pick::pick))]
pub fn begin_take_in(queue: &mut Queue, thread: u32, place: Place) -> Result<(), Refusal>
    ensures same { Stays queue.old queue.new }
    ensures take { TakeBegunIn queue.old.frame queue.old.bytes.now queue.new.bytes.now thread place result }
{
    take_check(queue.view(), thread)?;
    let t = queue.thread(thread);
    queue.set_thread(thread, t.at_place(place));
    Ok(())
}

// Begins a take by a thread at this place, or refuses (7, 3, 8, 9).
#[tactic(auto, unfolding(crate::specs::Begin::take_bytes, crate::specs::Begin::take_bytes_in, crate::specs::Begin::take_refusal, crate::specs::Begin::take_refusal_in, region::specs::Pick::pick))]
fn begin_take_at(b: &mut [u8], thread: u32, place: Place) -> Result<(), Refusal>
    ensures { TakeBegun b.old b.new thread place (code_of result) }
{
    require(readable::is_readable(b), Refusal::Unreadable)?;
    let f = readable::frame_of(b);
    let mut queue = Queue::new(b, f);
    begin_take_in(&mut queue, thread, place)
}

// Begins a take of one item.
pub fn begin_take(b: &mut [u8], thread: u32) -> Result<(), Refusal>
    ensures { TakeBegun b.old b.new thread ReadRoot (code_of result) }
{
    begin_take_at(b, thread, Place::ReadRoot)
}

// Begins a take of the root's whole list.
pub fn begin_list(b: &mut [u8], thread: u32) -> Result<(), Refusal>
    ensures { TakeBegun b.old b.new thread ListReadRoot (code_of result) }
{
    begin_take_at(b, thread, Place::ListReadRoot)
}
