// Checkpoints: a state and a memory as an image, which a student hands in and a grader reads. The table of contents first, then the
// state's bytes, then each page that holds a nonzero byte, behind its address.
#![tactic(auto)]

ghost use Rattle.std.specs.Prelude.{◌≡◌, ◌&&◌, eqb};
ghost use Rattle.layout.specs.Layout.{STATE_BYTES, admissible};
ghost use Rattle.checkpoint.specs.Calls.{memory_fits, wrote, writing_of, ReadLeaves};

use layout::STATE_BYTES;
use layout::laid::is_admissible;
use reading::{passes, restore};
use told::{Told, done, refused};
use writing::{held, put_image};

mod copying; // copying.rt: bytes of one slice into another
mod reading; // reading.rt: the machine in an image
mod table; // table.rt: the table of contents
mod writing; // writing.rt: the image of a machine
mod zeros; // zeros.rt: whether bytes are zeros

pub const PAGE_BYTES: usize = 4096;

pub const MOST_BYTES: usize = 65536;

// A page behind its address.
pub(crate) const BODY_BYTES: usize = 8 + PAGE_BYTES;

// The entry count and the state's entry; a page's entry.
pub(crate) const TABLE_BYTES: usize = 16;

pub(crate) const ENTRY_BYTES: usize = 12;

// The bytes of an image that holds no page, and those that a page adds.
pub(crate) const LEAST: usize = TABLE_BYTES + STATE_BYTES;

pub(crate) const MORE: usize = ENTRY_BYTES + BODY_BYTES;

// Five contracts ask for it. A struct with it as an invariant would be two, lent to be read and to be written, for one clause.
#[tactic(auto, unfolding(crate::specs::Calls::memory_fits))]
fn memory_fits(len: usize) -> bool
    ensures { result ≡ memory_fits len }
{
    len % PAGE_BYTES == 0 && len <= MOST_BYTES
}

fn writable(state: &[u8], memory: usize) -> bool
    ensures { result ≡ (memory_fits memory && admissible state.now) }
{
    memory_fits(memory) && is_admissible(state)
}

// The image into the front of `image`, where it fits.
#[unsafe(no_mangle)]
pub extern "C" fn zkir_checkpoint_write(state: &[u8], memory: &[u8], image: &mut [u8]) -> Told
    ensures { wrote result image.new ≡ writing_of state.now memory.now image.old }
{
    if !writable(state, memory.len()) {
        return refused(9, 0);
    }
    let n = held(memory);
    let size = LEAST + MORE * n;
    if image.len() < size {
        return refused(11, 0);
    }
    put_image(image, n, state, memory);
    done(size as u64)
}

fn readable(state: usize, memory: usize) -> bool
    ensures { result ≡ (memory_fits memory && eqb state STATE_BYTES) }
{
    memory_fits(memory) && state == STATE_BYTES
}

// The state and the memory of an image, where it is one.
#[unsafe(no_mangle)]
pub extern "C" fn zkir_checkpoint_read(image: &[u8], state: &mut [u8], memory: &mut [u8]) -> Told
    ensures { ReadLeaves image.now state.old memory.old result state.new memory.new }
{
    if !readable(state.len(), memory.len()) {
        return refused(9, 0);
    }
    if !passes(image, memory.len() / PAGE_BYTES) {
        return refused(11, 0);
    }
    restore(state, memory, image);
    done(0)
}
