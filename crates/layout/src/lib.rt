// Lays out a region in a lent byte slice, or refuses and changes no byte.
#![tactic(auto)]

ghost use Rattle.std.specs.Prelude.{◌≡◌, ◌*◌, ◌≤◌, ◌<◌, length};
ghost use Rattle.words.specs.Word.{set_words};
ghost use Rattle.region.specs.Record.{counter_size};
ghost use Rattle.region.specs.Refusal.{code_of};
ghost use Rattle.region.specs.Shape.{region_words};
ghost use Rattle.region.specs.Thread.{thread_size, greatest_permission};
ghost use Rattle.layout.specs.Layout.{LaidOut, at_most, permissions_fit, layout_check, cell_word, thread_word, laid_word, laid_words};
ghost use Rattle.layout.specs.Inner.{Accepted, Laying};

use region::{CELL_SIZE, Frame, HEAD_SIZE, Refusal, Shape, THREAD_SIZE, require};

// A permission is 0, 1, 2 or 3.
const GREATEST_PERMISSION: u8 = 3;

// Which word of a cell is the next cell.
const NEXT_WORD: usize = 2;

// Whether every byte is a permission.
#[tactic(auto, unfolding(crate::specs::Layout::at_most))]
fn are_permissions(permissions: &[u8]) -> bool
    ensures { result ≡ at_most greatest_permission permissions.now }
{
    permissions
        .iter()
        .all(|&permission| permission <= GREATEST_PERMISSION)
}

// Whether the list gives each thread a permission.
#[tactic(auto, unfolding(crate::specs::Layout::permissions_fit))]
fn permissions_fit(shape: Shape, permissions: &[u8]) -> bool
    ensures { result ≡ permissions_fit shape permissions.now }
{
    permissions.len() == shape.threads as usize && are_permissions(permissions)
}

// What a layout is refused for, if anything.
#[tactic(auto, unfolding(region::specs::Pick::pick))]
fn layout_check(shape: Shape, permissions: &[u8], length: usize) -> Result<(), Refusal>
    ensures { result ≡ layout_check shape permissions.now length }
{
    require(shape.fits(), Refusal::BadShape)?;
    require(permissions_fit(shape, permissions), Refusal::BadShape)?;
    require(length == 4 * shape.word_count(), Refusal::BadLength)
}

// Word j of the cells.
#[tactic(auto, unfolding(crate::specs::Layout::cell_word, region::specs::Pick::pick))]
fn cell_word(cells: usize, j: usize) -> u32
    requires { cells ≤ 2048 }
    ensures { result ≡ cell_word cells j }
{
    let number = j / CELL_SIZE + 1;
    if j % CELL_SIZE == NEXT_WORD && number < cells {
        number as u32 + 1
    } else {
        0
    }
}

// Word j of the threads.
#[tactic(auto, unfolding(crate::specs::Layout::thread_word, region::specs::Pick::pick))]
fn thread_word(permissions: &[u8], j: usize) -> u32
    requires { j < thread_size counter_size * length permissions.now }
    ensures { result ≡ thread_word permissions.now j }
{
    if j % THREAD_SIZE == 0 {
        u32::from(permissions[j / THREAD_SIZE])
    } else {
        0
    }
}

// Word k of the region with this frame.
#[tactic(auto, unfolding(crate::specs::Layout::laid_word, region::specs::Pick::pick))]
fn laid_word(frame: Frame, permissions: &[u8], k: usize) -> u32
    requires { Laying frame permissions.now k }
    ensures { result ≡ laid_word frame.shape permissions.now k }
{
    let shape = frame.shape;
    if k < HEAD_SIZE {
        let header = [
            shape.depth,
            shape.cells,
            shape.threads,
            shape.threshold,
            1,
            1,
        ];
        return header[k];
    }
    if k < frame.cells {
        return 0;
    }
    if k < frame.threads {
        return cell_word(shape.cells as usize, k - frame.cells);
    }
    thread_word(permissions, k - frame.threads)
}

// Stores every word of the region.
fn fill(b: &mut [u8], shape: Shape, permissions: &[u8])
    requires { Accepted shape permissions.now (length b.old) }
    ensures { b.new ≡ set_words b.old 0 (laid_words shape permissions.now 0 (region_words shape)) }
{
    let frame = Frame::of(shape);
    for k in 0..shape.word_count() {
        words::store_word(b, k, laid_word(frame, permissions, k));
    }
}

// Lays out the region of this shape, or refuses (1, 2) and changes no byte.
#[tactic(auto, unfolding(crate::specs::Layout::layout_refusal, crate::specs::Layout::layout_bytes, region::specs::Pick::pick))]
pub fn lay_out(b: &mut [u8], shape: Shape, permissions: &[u8]) -> Result<(), Refusal>
    ensures { LaidOut shape permissions.now b.old b.new (code_of result) }
{
    layout_check(shape, permissions, b.len())?;
    fill(b, shape, permissions);
    Ok(())
}
