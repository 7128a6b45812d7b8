// The machine in an image. Its pages are found by going over the memory's: at each, whether its body stands next.
ghost use Rattle.std.specs.Prelude.{◌≡◌, true, false, ◌+◌, ◌*◌, ◌≤◌, length, take, drop};
ghost use Rattle.std.specs.Option.{MatchOption};
ghost use Rattle.checkpoint.specs.Image.{PAGE_BYTES, pages_of};
ghost use Rattle.checkpoint.specs.Calls.{memory_fits};
ghost use Rattle.checkpoint.specs.Tests.{stands, fill_pages, memory_from, LEAST, state_at, bodies_at, passes};
ghost use Rattle.layout.specs.Layout.{STATE_BYTES};

use crate::copying::copy;
use crate::table::table_is;
use crate::zeros::all_zero;
use crate::{BODY_BYTES, ENTRY_BYTES, LEAST, MORE, PAGE_BYTES, TABLE_BYTES};
use layout::STATE_BYTES;
use layout::laid::is_admissible;
use memory::bytes::number_at;

// The page at an address, where its body stands first.
#[tactic(auto, unfolding(crate::specs::Tests::stands))]
fn page_at(rest: &[u8], at: usize) -> Option<&[u8]>
    ensures { MatchOption result (stands at rest.now ≡ false) (λ page. (stands at rest.now ≡ true) × (BODY_BYTES ≤ length rest.now) × (page.now ≡ take PAGE_BYTES (drop 8 rest.now))) }
{
    if rest.len() < BODY_BYTES {
        return None;
    }
    if number_at(rest, 0, 8) != at as u64 {
        return None;
    }
    Some(&rest[8..BODY_BYTES])
}

// Whether the bodies are those of some memory of so many pages.
fn fill_pages(bodies: &[u8], pages: usize) -> bool
    requires { pages ≤ 16 }
    ensures { result ≡ fill_pages pages 0 bodies.now }
{
    let mut rest = bodies;
    for p in 0..pages {
        let Some(page) = page_at(rest, PAGE_BYTES * p) else {
            continue;
        };
        if all_zero(page) {
            return false;
        }
        rest = &rest[BODY_BYTES..];
    }
    rest.is_empty()
}

// Whether an image is that of a machine with so many pages of memory. By its length it holds n.
#[tactic(auto, unfolding(crate::specs::Tests::passes))]
pub(crate) fn passes(image: &[u8], pages: usize) -> bool
    requires { pages ≤ 16 }
    ensures { result ≡ passes pages image.now }
{
    if image.len() < LEAST {
        return false;
    }
    let left = image.len() - LEAST;
    if left % MORE != 0 {
        return false;
    }
    let n = left / MORE;
    if pages < n {
        return false;
    }
    if !table_is(image, n) {
        return false;
    }
    let start = TABLE_BYTES + ENTRY_BYTES * n;
    let end = start + STATE_BYTES;
    if !is_admissible(&image[start..end]) {
        return false;
    }
    fill_pages(&image[end..], pages)
}

fn put_pages(memory: &mut [u8], bodies: &[u8])
    requires { memory_fits (length memory.old) ≡ true }
    ensures { memory.new ≡ memory_from (pages_of memory.old) 0 bodies.now }
{
    let mut rest = bodies;
    for p in 0..memory.len() / PAGE_BYTES {
        let at = PAGE_BYTES * p;
        let Some(page) = page_at(rest, at) else {
            memory[at..at + PAGE_BYTES].fill(0);
            continue;
        };
        copy(&mut memory[at..at + PAGE_BYTES], page);
        rest = &rest[BODY_BYTES..];
    }
}

// Writes the machine of an image that passes.
pub(crate) fn restore(state: &mut [u8], memory: &mut [u8], image: &[u8])
    requires fits { memory_fits (length memory.old) ≡ true }
    requires state_len { length state.old ≡ STATE_BYTES }
    requires in_bounds { LEAST ≤ length image.now }
    ensures { (state.new ≡ state_at image.now) × (memory.new ≡ memory_from (pages_of memory.old) 0 (bodies_at image.now)) }
{
    let n = (image.len() - LEAST) / MORE;
    let start = TABLE_BYTES + ENTRY_BYTES * n;
    let end = start + STATE_BYTES;
    copy(state, &image[start..end]);
    put_pages(memory, &image[end..]);
}
