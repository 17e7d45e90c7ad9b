// The places of both kinds of take: E1 and E2 of a take of one item, 17 to 19 of a take of the root's whole list. Each decides a
// plan and changes nothing itself.
#![tactic(auto)]

ghost use Rattle.std.specs.Prelude.{◌≡◌, false, length};
ghost use Rattle.region.specs.Held.{viewed};
ghost use Rattle.region.specs.Pick.{pick};
ghost use Rattle.region.specs.Shared.{shared_in};
ghost use Rattle.access.specs.Read.{is_spent};
ghost use Rattle.extract.specs.Extract.{after_list_removal, after_removal, after_root_read, cas_root, hand_out, handed_out, list_read_root, read_root, remove_head, remove_list};

use access::{Effect, Plan};
use region::{Answer, Cell, NodeCopy, Place, Refusal, Thread, View};

// The root was read: it is dirty and mended first, empty, or has a list.
#[tactic(auto, unfolding(crate::specs::Extract::after_root_read, region::specs::Pick::pick))]
fn after_root_read(t: Thread, q: NodeCopy, after: u32, next: Place) -> Plan
    ensures { result ≡ after_root_read t q after next }
{
    if access::is_dirty(q.node) {
        return access::moved(t.with_first(q).with_after(after).mending(1, 0));
    }
    if q.node.first == 0 {
        return access::plan_of(Effect::Nothing, t.gone_idle(), Answer::Empty);
    }
    access::on_to(t.with_first(q), next)
}

// E1
#[tactic(auto, unfolding(crate::specs::Extract::read_root, region::specs::Shared::shared_in))]
#[inline(always)]
pub fn read_root(view: View, t: Thread) -> Plan
    ensures { result ≡ read_root (viewed view.entry) t }
{
    after_root_read(t, access::read_node(view, 1), 0, Place::RemoveHead)
}

// 17
#[tactic(auto, unfolding(crate::specs::Extract::list_read_root, region::specs::Shared::shared_in))]
#[inline(always)]
pub fn list_read_root(view: View, t: Thread) -> Plan
    ensures { result ≡ list_read_root (viewed view.entry) t }
{
    after_root_read(t, access::read_node(view, 1), 2, Place::RemoveList)
}

// The head leaves the root's list.
#[tactic(auto, unfolding(crate::specs::Extract::after_removal))]
fn after_removal(t: Thread, q: NodeCopy) -> Plan
    requires { is_spent q.node ≡ false }
    ensures { result ≡ after_removal t q }
{
    let effect = Effect::Pop {
        value: access::updated_node(q.node, q.head.next, 1),
        cell: q.node.first,
    };
    let item = q.head.item;
    access::plan_of(
        effect,
        t.with_result(item).with_after(1).mending(1, 0),
        Answer::Moved,
    )
}

// The whole list leaves the root, for the thread's hands.
#[tactic(auto, unfolding(crate::specs::Extract::after_list_removal))]
fn after_list_removal(t: Thread, q: NodeCopy) -> Plan
    requires { is_spent q.node ≡ false }
    ensures { result ≡ after_list_removal t q }
{
    let first = q.node.first;
    access::plan_of(
        Effect::Detach(access::updated_node(q.node, 0, 1)),
        t.with_own(first).with_after(3).mending(1, 0),
        Answer::Moved,
    )
}

// CAS of the root, which what is removed leaves by the plan that `removed` gives. A failure goes back to where the root is read.
#[inline(always)]
fn cas_root<F: FnOnce(Thread, NodeCopy) -> Plan>(
    view: View,
    t: Thread,
    back: Place,
    removed: F,
) -> Plan
    requires { is_spent t.copies.first.node ≡ false → F.pre removed t t.copies.first }
    ensures { (p : Plan) → ((q : Plan) → F.post removed t t.copies.first q → q ≡ p) → result ≡ cas_root (viewed view.entry) t back p }
{
    let q = t.copies.first;
    if !access::same_node(view.node(1), q.node) {
        return access::on_to(t, back);
    }
    if q.node.first == 0 {
        return access::refused(t, Refusal::Unreadable);
    }
    if access::is_spent(q.node) {
        return access::refused(t, Refusal::CounterSpent);
    }
    removed(t, q)
}

// E2
#[tactic(auto, unfolding(crate::specs::Extract::remove_head))]
#[inline(always)]
pub fn remove_head(view: View, t: Thread) -> Plan
    ensures { result ≡ remove_head (viewed view.entry) t }
{
    cas_root(view, t, Place::ReadRoot, after_removal)
}

// 18
#[tactic(auto, unfolding(crate::specs::Extract::remove_list))]
#[inline(always)]
pub fn remove_list(view: View, t: Thread) -> Plan
    ensures { result ≡ remove_list (viewed view.entry) t }
{
    cas_root(view, t, Place::ListReadRoot, after_list_removal)
}

// One item is handed out, and its cell freed: c is the own cell. With the last the thread goes idle.
#[tactic(auto, unfolding(crate::specs::Extract::handed_out, region::specs::Pick::pick))]
fn handed_out(t: Thread, c: Cell) -> Plan
    ensures { result ≡ handed_out t c }
{
    let effect = Effect::Free(t.own);
    let item = c.item;
    if c.next == 0 {
        return access::plan_of(effect, t.gone_idle(), Answer::Took(item));
    }
    access::plan_of(
        effect,
        t.with_own(c.next).at_place(Place::HandOut),
        Answer::Took(item),
    )
}

// 19
#[tactic(auto, unfolding(crate::specs::Extract::hand_out, region::specs::Pick::pick, region::specs::Shared::shared_in))]
#[inline(always)]
pub fn hand_out(view: View, t: Thread) -> Plan
    ensures { result ≡ hand_out (viewed view.entry) t }
{
    if t.own == 0 {
        return access::refused(t, Refusal::Unreadable);
    }
    handed_out(t, view.cell(t.own))
}
