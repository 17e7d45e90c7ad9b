// The converter: every word of the old region is copied, and behind each counter's word its high word, 0, is stored.
ghost use Rattle.std.specs.Prelude.{◌≡◌, ◌+◌, ◌*◌, length};
ghost use Rattle.words.specs.Word.{words_at, set_words};
ghost use Rattle.region.specs.Frame.{frame_of_width};
ghost use Rattle.region.specs.Record.{old_counter_size};
ghost use Rattle.region.specs.Refusal.{code_of};
ghost use Rattle.convert.specs.Convert.{Converted, all_carried, convert_check, converted_words, copy_carried, node_carried, thread_carried};
ghost use Rattle.convert.specs.Inner.{Exact, Room, cell_carried};

use readable::is_readable_of_width;
use region::{CELL_SIZE, FIELDS, Frame, NODE_SIZE, Refusal, Shape, THREAD_SIZE, require};

// The words of a counter, of a node, of a node copy and of a thread's record in an old region.
const OLD_COUNTER_SIZE: usize = 1;

const OLD_NODE_SIZE: usize = 3;

const OLD_COPY_SIZE: usize = 6;

const OLD_THREAD_SIZE: usize = 33;

// The words of a node copy in a new one.
const COPY_SIZE: usize = 7;

// The head. Its words are all loaded before one is stored, as are those of a node, a cell and a node copy, so that the compiled code moves several
// at once.
#[inline(always)]
fn convert_head(old: &[u8], new: &mut [u8])
    requires { Room (length old.now) 0 6 (length new.old) 0 6 }
    ensures { new.new ≡ set_words new.old 0 (words_at old.now 0 6) }
{
    let mut a = [0u32; 6];
    words::load_words(old, 0, &mut a);
    words::store_words(new, 0, &a);
}

// A node: three words, and the high word of its counter.
#[inline(always)]
fn convert_node(old: &[u8], from: usize, new: &mut [u8], to: usize)
    requires { Room (length old.now) from 3 (length new.old) to 4 }
    ensures { new.new ≡ set_words new.old to (node_carried old.now from) }
{
    let mut a = [0u32; 3];
    words::load_words(old, from, &mut a);
    let node = [a[0], a[1], a[2], 0];
    words::store_words(new, to, &node);
}

// A cell: three words.
#[inline(always)]
fn convert_cell(old: &[u8], from: usize, new: &mut [u8], to: usize)
    requires { Room (length old.now) from 3 (length new.old) to 3 }
    ensures { new.new ≡ set_words new.old to (cell_carried old.now from) }
{
    let mut a = [0u32; 3];
    words::load_words(old, from, &mut a);
    words::store_words(new, to, &a);
}

// A node copy: the words of its node, and its head behind them.
#[inline(always)]
fn convert_copy(old: &[u8], from: usize, new: &mut [u8], to: usize)
    requires { Room (length old.now) from 6 (length new.old) to 7 }
    ensures { new.new ≡ set_words new.old to (copy_carried old.now from) }
{
    let mut a = [0u32; 6];
    words::load_words(old, from, &mut a);
    let copy = [a[0], a[1], a[2], 0, a[3], a[4], a[5]];
    words::store_words(new, to, &copy);
}

// A thread's record: the words before its node copies, and these.
#[inline(always)]
fn convert_thread(old: &[u8], from: usize, new: &mut [u8], to: usize)
    requires { Room (length old.now) from 33 (length new.old) to 36 }
    ensures { new.new ≡ set_words new.old to (thread_carried old.now from) }
{
    let copies_from = from + FIELDS;
    let copies_to = to + FIELDS;
    let mut a = [0u32; 15];
    words::load_words(old, from, &mut a);
    words::store_words(new, to, &a);
    convert_copy(old, copies_from, new, copies_to);
    convert_copy(old, copies_from + OLD_COPY_SIZE, new, copies_to + COPY_SIZE);
    convert_copy(
        old,
        copies_from + 2 * OLD_COPY_SIZE,
        new,
        copies_to + 2 * COPY_SIZE,
    );
}

// The nodes.
// stays: this loop and the next two are three; one over a trait with both sizes and a method would be longer than they are.
fn convert_nodes(old: &[u8], from: usize, new: &mut [u8], to: usize, count: usize)
    requires { Room (length old.now) from (3 * count) (length new.old) to (4 * count) }
    ensures { new.new ≡ set_words new.old to (all_carried node_carried 3 old.now from count) }
{
    for i in 0..count {
        convert_node(old, from + OLD_NODE_SIZE * i, new, to + NODE_SIZE * i);
    }
}

// The cells, each as it is: by their words, since a copy of all bytes at once would be a call of the C library's `memmove`.
fn convert_cells(old: &[u8], from: usize, new: &mut [u8], to: usize, count: usize)
    requires { Room (length old.now) from (3 * count) (length new.old) to (3 * count) }
    ensures { new.new ≡ set_words new.old to (all_carried cell_carried 3 old.now from count) }
{
    for i in 0..count {
        convert_cell(old, from + CELL_SIZE * i, new, to + CELL_SIZE * i);
    }
}

// The threads' records.
fn convert_threads(old: &[u8], from: usize, new: &mut [u8], to: usize, count: usize)
    requires { Room (length old.now) from (33 * count) (length new.old) to (36 * count) }
    ensures { new.new ≡ set_words new.old to (all_carried thread_carried 33 old.now from count) }
{
    for i in 0..count {
        convert_thread(old, from + OLD_THREAD_SIZE * i, new, to + THREAD_SIZE * i);
    }
}

// All words of the new region, from an old one of this shape.
fn convert_words(old: &[u8], new: &mut [u8], shape: Shape)
    requires { Exact shape (length old.now) (length new.old) }
    ensures { new.new ≡ set_words new.old 0 (converted_words (frame_of_width old_counter_size shape) old.now) }
{
    let before = Frame::of_width::<OLD_COUNTER_SIZE>(shape);
    let after = Frame::of(shape);
    convert_head(old, new);
    convert_nodes(old, before.nodes, new, after.nodes, shape.node_count());
    convert_cells(old, before.cells, new, after.cells, shape.cells as usize);
    convert_threads(
        old,
        before.threads,
        new,
        after.threads,
        shape.threads as usize,
    );
}

// What a conversion to a slice of this length is refused for, if anything.
#[tactic(auto, unfolding(region::specs::Pick::pick))]
fn convert_check(old: &[u8], length: usize) -> Result<(), Refusal>
    ensures { result ≡ convert_check old.now length }
{
    if !is_readable_of_width::<OLD_COUNTER_SIZE>(old) {
        return Err(Refusal::Unreadable);
    }
    let shape = readable::load_shape(old);
    require(length == 4 * shape.word_count(), Refusal::BadLength)
}

// Carries the old region over to the new slice, or refuses (7, 2) and changes no byte.
#[tactic(auto, unfolding(crate::specs::Convert::convert_refusal, crate::specs::Convert::converted_bytes, region::specs::Pick::pick))]
pub fn convert(old: &[u8], new: &mut [u8]) -> Result<(), Refusal>
    ensures { Converted old.now new.old new.new (code_of result) }
{
    convert_check(old, new.len())?;
    convert_words(old, new, readable::load_shape(old));
    Ok(())
}
