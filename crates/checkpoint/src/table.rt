// The table of contents, which the number of pages decides.
ghost use Rattle.std.specs.Prelude.{◌≡◌, ◌+◌, ◌*◌, ◌≤◌, length, take};
ghost use Rattle.std.specs.Str.{bytes_eq};
ghost use Rattle.std.proofs.lemmas.List.Edits.{sets};
ghost use Rattle.checkpoint.specs.Pages.{table_entry, entries, table_bytes, table_of};
ghost use Rattle.layout.specs.Layout.{STATE_BYTES};

use crate::{BODY_BYTES, ENTRY_BYTES, TABLE_BYTES};
use layout::STATE_BYTES;
use memory::bytes::put_number;

// The table of sixteen pages.
const MOST_TABLE: usize = 208;

fn put_entry(into: &mut [u8], at: usize, kind: u64, offset: usize, size: usize)
    requires { at + 12 ≤ length into.old }
    ensures { into.new ≡ sets into.old at (table_entry kind offset size) }
{
    put_number(into, at, 4, kind);
    put_number(into, at + 4, 4, offset as u64);
    put_number(into, at + 8, 4, size as u64);
}

// The entries of n pages, behind that of the state.
fn put_entries(into: &mut [u8], n: usize, offset: usize)
    requires n_bound { n ≤ 16 }
    requires n_in_bounds { table_bytes n ≤ length into.old }
    requires offset_bound { offset ≤ table_bytes 16 + STATE_BYTES }
    ensures { into.new ≡ sets into.old 16 (entries n offset) }
{
    for i in 0..n {
        put_entry(
            into,
            TABLE_BYTES + ENTRY_BYTES * i,
            2,
            offset + BODY_BYTES * i,
            BODY_BYTES,
        );
    }
}

pub(crate) fn put_table(into: &mut [u8], n: usize)
    requires n_bound { n ≤ 16 }
    requires n_in_bounds { table_bytes n ≤ length into.old }
    ensures { into.new ≡ sets into.old 0 (table_of n) }
{
    let start = TABLE_BYTES + ENTRY_BYTES * n;
    put_number(into, 0, 4, n as u64 + 1);
    put_entry(into, 4, 1, start, STATE_BYTES);
    put_entries(into, n, start + STATE_BYTES);
}

// Whether an image begins with the table of n pages.
pub(crate) fn table_is(image: &[u8], n: usize) -> bool
    requires n_bound { n ≤ 16 }
    requires n_in_bounds { table_bytes n ≤ length image.now }
    ensures { result ≡ bytes_eq (take (table_bytes n) image.now) (table_of n) }
{
    let mut table = [0u8; MOST_TABLE];
    put_table(&mut table, n);
    let size = TABLE_BYTES + ENTRY_BYTES * n;
    image[..size] == table[..size]
}
