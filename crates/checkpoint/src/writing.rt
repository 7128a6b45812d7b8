// The image of a machine, written.
ghost use Rattle.std.specs.Prelude.{◌≡◌, true, ◌+◌, ◌*◌, ◌≤◌, length};
ghost use Rattle.std.proofs.lemmas.List.Edits.{sets};
ghost use Rattle.checkpoint.specs.Image.{PAGE_BYTES, pages_of, image_of};
ghost use Rattle.checkpoint.specs.Calls.{memory_fits};
ghost use Rattle.checkpoint.specs.Pages.{held, body, bodies};
ghost use Rattle.checkpoint.specs.Tests.{LEAST, MORE};
ghost use Rattle.layout.specs.Layout.{STATE_BYTES};

use crate::copying::copy;
use crate::table::put_table;
use crate::zeros::all_zero;
use crate::{BODY_BYTES, ENTRY_BYTES, PAGE_BYTES, TABLE_BYTES};
use layout::STATE_BYTES;
use memory::bytes::put_number;

// How many pages of a memory hold a nonzero byte.
pub(crate) fn held(memory: &[u8]) -> usize
    requires { memory_fits (length memory.now) ≡ true }
    ensures { result ≡ held (pages_of memory.now) memory.now }
{
    let mut n = 0;
    for page in memory.chunks_exact(PAGE_BYTES) {
        if all_zero(page) {
            continue;
        }
        n += 1;
    }
    n
}

// Writes the body of the page at an address, if it holds a nonzero byte, and answers the place behind it.
fn put_body(image: &mut [u8], place: usize, at: usize, page: &[u8]) -> usize
    requires page_len { length page.now ≡ PAGE_BYTES }
    requires page_in_bounds { place + length (body at page.now) ≤ length image.old }
    ensures { (result ≡ place + length (body at page.now)) × (image.new ≡ sets image.old place (body at page.now)) }
{
    if all_zero(page) {
        return place;
    }
    let end = place + BODY_BYTES;
    put_number(image, place, 8, at as u64);
    copy(&mut image[place + 8..end], page);
    end
}

fn put_bodies(image: &mut [u8], start: usize, memory: &[u8])
    requires fits { memory_fits (length memory.now) ≡ true }
    requires in_bounds { start + length (bodies (pages_of memory.now) 0 memory.now) ≤ length image.old }
    ensures { image.new ≡ sets image.old start (bodies (pages_of memory.now) 0 memory.now) }
{
    let mut place = start;
    for p in 0..memory.len() / PAGE_BYTES {
        let at = PAGE_BYTES * p;
        place = put_body(image, place, at, &memory[at..at + PAGE_BYTES]);
    }
}

// The image of a machine that holds n pages.
pub(crate) fn put_image(image: &mut [u8], n: usize, state: &[u8], memory: &[u8])
    requires fits { memory_fits (length memory.now) ≡ true }
    requires state_len { length state.now ≡ STATE_BYTES }
    requires n_value { n ≡ held (pages_of memory.now) memory.now }
    requires n_in_bounds { LEAST + MORE * n ≤ length image.old }
    ensures { image.new ≡ sets image.old 0 (image_of state.now memory.now) }
{
    let start = TABLE_BYTES + ENTRY_BYTES * n;
    let end = start + STATE_BYTES;
    put_table(image, n);
    copy(&mut image[start..end], state);
    put_bodies(image, end, memory);
}
