// Tells whether a region is readable, ending at the first field out of range. WIDTH is the words of a counter: two, or one in a region of
// the older form.
#![tactic(auto)]

ghost use Rattle.std.specs.Prelude.{◌≡◌, ◌+◌, ◌*◌, ◌≤◌, ◌++◌, length, true, [], ◌∷◌};
ghost use Rattle.region.specs.Inner.{InRange, Width, Within};
ghost use Rattle.region.specs.Record.{cell_size, copy_size, node_size};
ghost use Rattle.region.specs.Shape.{node_count};
ghost use Rattle.readable.specs.Readable.{any_word, bounded, cell_maxima, copy_maxima, field_maxima, greatest_tries, greatest_waiting, node_readable, cell_readable, thread_passes, thread_readable, all_records, tree_readable, shape_in, frame_in, fields_readable, is_whole_of_width, readable_of_width, readable, readable_check, check_answer};
ghost use Rattle.readable.specs.Inner.{MaximaWithin, ThreadWithin, WithinOfWidth};

use region::{
    CELL_SIZE, COUNTER_SIZE, FIELDS, Frame, Refusal, Shape, code_of, copy_size, node_size, require,
    thread_size,
};
use words::load_word;

// "Counters and keys are free."
const ANY_WORD: u32 = 4294967295;

// "Tags are 0 to 65,535."
const GREATEST_TAG: u32 = 65535;

// The words from word `at` on, each at most its maximum.
#[inline(always)]
fn words_bounded(b: &[u8], at: usize, maxima: &[u32]) -> bool
    requires { 4 * (at + length maxima.now) ≤ length b.now }
    ensures { result ≡ bounded b.now at maxima.now }
{
    for i in 0..maxima.len() {
        if maxima[i] < load_word(b, at + i) {
            return false;
        }
    }
    true
}

// Records, `stride` words from one to the next, whose first words are each at most their maximum.
// stays: two in a pass of the loop; with one the row "in the middle of the nodes" takes 1.95 of the plain Rust's time, with two 0.66.
#[inline(always)]
#[tactic(auto, using(crate::proofs::Loops::two_end, crate::proofs::Loops::last_ends, crate::proofs::Loops::scan_start, crate::proofs::Loops::scan_more, crate::proofs::Loops::scan_bad, crate::proofs::Loops::scan_end))]
pub fn records_bounded(b: &[u8], at: usize, count: usize, stride: usize, maxima: &[u32]) -> bool
    requires within { 4 * (at + stride * count) ≤ length b.now }
    requires words { length maxima.now ≤ stride }
    ensures { result ≡ all_records (λ l k. bounded l k maxima.now) stride b.now at count }
{
    for i in 0..count / 2 {
        let k = at + stride * (2 * i);
        if !words_bounded(b, k, maxima) {
            return false;
        }
        if !words_bounded(b, k + stride, maxima) {
            return false;
        }
    }
    if count % 2 == 0 {
        return true;
    }
    words_bounded(b, at + stride * (count - 1), maxima)
}

// The greatest tries at this place.
#[inline(always)]
fn greatest_tries(shape: Shape, place: u32) -> u32
    requires { InRange shape }
    ensures { result ≡ greatest_tries shape place }
{
    if place == 2 {
        shape.threshold - 1
    } else {
        shape.threshold
    }
}

// The greatest waiting levels at this place and node.
#[inline(always)]
fn greatest_waiting(place: u32, node: u32) -> u32
    ensures { result ≡ greatest_waiting place node }
{
    if !region::is_between(11, place, 16) {
        return 0;
    }
    let level = region::level_of(node);
    if level == 0 {
        return 0;
    }
    (1 << (level - 1)) - 1
}

// The greatest values of a node's first words; any counter passes.
#[inline(always)]
fn node_maxima(cells: u32) -> [u32; 3]
    ensures { result ≡ cells ∷ 1 ∷ any_word ∷ [] }
{
    [cells, 1, ANY_WORD]
}

// Those of a cell's words.
#[inline(always)]
fn cell_maxima(cells: u32) -> [u32; 3]
    ensures { result ≡ cell_maxima cells }
{
    [ANY_WORD, GREATEST_TAG, cells]
}

// The node copy at word `at`: a node, and its head behind it.
#[inline(always)]
fn copy_readable<const WIDTH: usize>(b: &[u8], at: usize, cells: u32) -> bool
    requires width { Width WIDTH }
    requires within { 4 * (at + copy_size WIDTH) ≤ length b.now }
    ensures { result ≡ bounded b.now at (copy_maxima WIDTH cells) }
{
    words_bounded(b, at, &node_maxima(cells))
        && words_bounded(b, at + node_size::<WIDTH>(), &cell_maxima(cells))
}

// Three node copies from word `at` on.
#[inline(always)]
#[tactic(auto, using(crate::proofs::Loops::first_copy_bad, crate::proofs::Loops::second_copy_bad, crate::proofs::Loops::third_copy_decides))]
fn copies_readable<const WIDTH: usize>(b: &[u8], at: usize, cells: u32) -> bool
    requires width { Width WIDTH }
    requires within { 4 * (at + 3 * copy_size WIDTH) ≤ length b.now }
    ensures { result ≡ bounded b.now at (copy_maxima WIDTH cells ++ (copy_maxima WIDTH cells ++ copy_maxima WIDTH cells)) }
{
    let size = copy_size::<WIDTH>();
    if !copy_readable::<WIDTH>(b, at, cells) {
        return false;
    }
    if !copy_readable::<WIDTH>(b, at + size, cells) {
        return false;
    }
    copy_readable::<WIDTH>(b, at + 2 * size, cells)
}

// The greatest value of each word of a thread's record before its node copies.
#[inline(always)]
fn field_maxima(shape: Shape) -> [u32; 15]
    requires { InRange shape }
    ensures { result ≡ field_maxima shape }
{
    let nodes = shape.node_count() as u32;
    let c = shape.cells;
    let d = shape.depth;
    [
        3,
        19,
        ANY_WORD,
        GREATEST_TAG,
        c,
        d,
        nodes,
        shape.threshold,
        d,
        d,
        nodes,
        ANY_WORD,
        3,
        ANY_WORD,
        GREATEST_TAG,
    ]
}

// The thread's record at word `at`, with the maxima of its words: each word alone, then tries by the place, and waiting levels by place and node.
#[inline(always)]
#[tactic(auto, unfolding(crate::specs::Readable::thread_passes))]
pub fn thread_readable(b: &[u8], at: usize, shape: Shape, maxima: &[u32]) -> bool
    requires { MaximaWithin shape (length b.now) at (length maxima.now) }
    ensures { result ≡ thread_passes maxima.now shape b.now at }
{
    if !words_bounded(b, at, maxima) {
        return false;
    }
    let place = load_word(b, at + 1);
    if greatest_tries(shape, place) < load_word(b, at + 7) {
        return false;
    }
    load_word(b, at + 11) <= greatest_waiting(place, load_word(b, at + 10))
}

// The same with the maxima of a record whose counters have this many words.
#[inline(always)]
fn thread_of_width_readable<const WIDTH: usize>(b: &[u8], at: usize, shape: Shape) -> bool
    requires { ThreadWithin WIDTH shape (length b.now) at }
    ensures { result ≡ thread_readable WIDTH shape b.now at }
{
    if !words_bounded(b, at, &field_maxima(shape)) {
        return false;
    }
    if !copies_readable::<WIDTH>(b, at + FIELDS, shape.cells) {
        return false;
    }
    let place = load_word(b, at + 1);
    if greatest_tries(shape, place) < load_word(b, at + 7) {
        return false;
    }
    load_word(b, at + 11) <= greatest_waiting(place, load_word(b, at + 10))
}

// The nodes.
// stays: bytes and frame as two parameters, here and below, since `region::View` holds frames whose counters have two words alone.
#[tactic(auto, using(crate::proofs::Loops::width_of, crate::proofs::Loops::nodes_end))]
fn nodes_readable<const WIDTH: usize>(b: &[u8], frame: Frame) -> bool
    requires { WithinOfWidth WIDTH frame (length b.now) }
    ensures { result ≡ all_records (node_readable frame.width frame.shape.cells) (node_size frame.width) b.now frame.nodes (node_count frame.shape) }
{
    let shape = frame.shape;
    let size = node_size::<WIDTH>();
    records_bounded(
        b,
        frame.nodes,
        shape.node_count(),
        size,
        &node_maxima(shape.cells),
    )
}

// The cells.
fn cells_readable<const WIDTH: usize>(b: &[u8], frame: Frame) -> bool
    requires { WithinOfWidth WIDTH frame (length b.now) }
    ensures { result ≡ all_records (cell_readable frame.shape.cells) cell_size b.now frame.cells frame.shape.cells }
{
    let cells = frame.shape.cells;
    records_bounded(
        b,
        frame.cells,
        cells as usize,
        CELL_SIZE,
        &cell_maxima(cells),
    )
}

// The threads' records.
#[inline(always)]
#[tactic(auto, using(crate::proofs::Loops::width_of, crate::proofs::Loops::thread_ends, crate::proofs::Loops::scan_start, crate::proofs::Loops::scan_more, crate::proofs::Loops::scan_bad, crate::proofs::Loops::scan_end, crate::proofs::Loops::threads_decide))]
fn threads_readable<const WIDTH: usize>(b: &[u8], frame: Frame) -> bool
    requires { WithinOfWidth WIDTH frame (length b.now) }
    ensures { result ≡ all_records (thread_readable frame.width frame.shape) frame.stride b.now frame.threads frame.shape.threads }
{
    let shape = frame.shape;
    let size = thread_size::<WIDTH>();
    for i in 0..shape.threads as usize {
        if !thread_of_width_readable::<WIDTH>(b, frame.threads + size * i, shape) {
            return false;
        }
    }
    true
}

// The present depth, the first free cell, the nodes and the cells.
#[tactic(auto, unfolding(crate::specs::Readable::tree_readable))]
fn tree_readable<const WIDTH: usize>(b: &[u8], frame: Frame) -> bool
    requires { WithinOfWidth WIDTH frame (length b.now) }
    ensures { result ≡ tree_readable frame b.now }
{
    let shape = frame.shape;
    region::is_between(1, load_word(b, frame.depth), shape.depth)
        && load_word(b, frame.free) <= shape.cells
        && nodes_readable::<WIDTH>(b, frame)
        && cells_readable::<WIDTH>(b, frame)
}

// Every field of the frame's parts.
#[inline(never)]
#[tactic(auto, unfolding(crate::specs::Readable::fields_readable), using(crate::proofs::Loops::width_of))]
fn fields_readable<const WIDTH: usize>(b: &[u8], frame: Frame) -> bool
    requires { WithinOfWidth WIDTH frame (length b.now) }
    ensures { result ≡ fields_readable frame b.now }
{
    tree_readable::<WIDTH>(b, frame) && threads_readable::<WIDTH>(b, frame)
}

// The shape that the first words give.
pub fn load_shape(b: &[u8]) -> Shape
    requires { 16 ≤ length b.now }
    ensures { result ≡ shape_in b.now }
{
    Shape {
        depth: load_word(b, 0),
        cells: load_word(b, 1),
        threads: load_word(b, 2),
        threshold: load_word(b, 3),
    }
}

// The frame of a readable region.
#[tactic(auto, using(crate::proofs::Laws::readable_within))]
pub fn frame_of(b: &[u8]) -> Frame
    requires { readable b.now ≡ true }
    ensures frame { result ≡ frame_in b.now }
    ensures within { Within result (length b.now) }
{
    Frame::of(load_shape(b))
}

// Whether the first words are a shape in range, and the length is that of a region of this shape.
fn is_whole<const WIDTH: usize>(b: &[u8]) -> bool
    requires { Width WIDTH }
    ensures { result ≡ is_whole_of_width WIDTH b.now }
{
    if b.len() < 16 {
        return false;
    }
    let shape = load_shape(b);
    if !shape.fits() {
        return false;
    }
    b.len() == 4 * shape.word_count_of_width::<WIDTH>()
}

// Whether a region whose counters have this many words is readable.
pub fn is_readable_of_width<const WIDTH: usize>(b: &[u8]) -> bool
    requires { Width WIDTH }
    ensures { result ≡ readable_of_width WIDTH b.now }
{
    if !is_whole::<WIDTH>(b) {
        return false;
    }
    fields_readable::<WIDTH>(b, Frame::of_width::<WIDTH>(load_shape(b)))
}

// Whether the region is readable.
pub fn is_readable(b: &[u8]) -> bool
    ensures { result ≡ readable b.now }
{
    is_readable_of_width::<COUNTER_SIZE>(b)
}

// Refuses a region that is not readable (7).
#[tactic(auto, unfolding(region::specs::Pick::pick))]
pub fn check(b: &[u8]) -> Result<(), Refusal>
    ensures { result ≡ readable_check b.now }
{
    require(is_readable(b), Refusal::Unreadable)
}

// 0 if the region is readable, else 7. The first test stands here too, so that it is made without a call.
#[tactic(auto, unfolding(crate::specs::Readable::check_answer, crate::specs::Readable::readable_of_width, region::specs::Pick::pick))]
pub fn check_region(b: &[u8]) -> u32
    ensures { result ≡ check_answer b.now }
{
    if !is_whole::<COUNTER_SIZE>(b) {
        return Refusal::Unreadable.into();
    }
    code_of(check(b))
}
