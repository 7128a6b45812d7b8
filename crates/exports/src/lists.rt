// Pending checks, in three lent lists: `pending`.
ghost use Rattle.std.specs.Prelude.{◌≡◌};
ghost use Rattle.pending.specs.Pending.{lists, append_answer, append_lists, empty_answer, empty_lists, entry_at};
ghost use Rattle.exports.specs.Triples.{tripled};
ghost use Rattle.exports.specs.Lists.{counted_triple, entry_code, entry_in};

use crate::triple::{Triple, refused, write_triple};
use pending::Entry;
use refusal::{Refusal, number_of};

fn counted(c: Result<usize, Refusal>) -> Triple
    ensures { result ≡ counted_triple c }
{
    match c {
        Ok(n) => Triple {
            first: 0,
            second: n as u64,
            third: 0,
        },
        Err(r) => refused(r),
    }
}

#[unsafe(no_mangle)]
pub extern "C" fn oracle_append(
    answer: &mut [u8],
    values: &mut [u64],
    bounds: &mut [u8],
    pcs: &mut [u64],
    count: usize,
    value: u64,
    bound: u8,
    pc: u64,
)
    ensures { (answer.new ≡ tripled (counted_triple (append_answer value bound pc (lists count values.old bounds.old pcs.old))) answer.old) × (lists (append_lists value bound pc (lists count values.old bounds.old pcs.old)).count values.new bounds.new pcs.new ≡ append_lists value bound pc (lists count values.old bounds.old pcs.old)) }
{
    let c = pending::append(values, bounds, pcs, count, value, bound, pc);
    write_triple(answer, counted(c));
}

#[unsafe(no_mangle)]
pub extern "C" fn oracle_empty(
    answer: &mut [u8],
    values: &mut [u64],
    bounds: &mut [u8],
    pcs: &mut [u64],
    count: usize,
)
    ensures { (answer.new ≡ tripled (counted_triple (empty_answer (lists count values.old bounds.old pcs.old))) answer.old) × (lists (empty_lists (lists count values.old bounds.old pcs.old)).count values.new bounds.new pcs.new ≡ empty_lists (lists count values.old bounds.old pcs.old)) }
{
    let c = pending::empty(values, bounds, pcs, count);
    write_triple(answer, counted(c));
}

fn give_entry(answer: &mut [u8], e: Result<Option<Entry>, Refusal>) -> u64
    ensures { (result ≡ entry_code e) × (answer.new ≡ entry_in e answer.old) }
{
    match e {
        Ok(Some(Entry { value, bound, pc })) => {
            let check = Triple {
                first: value,
                second: bound as u64,
                third: pc,
            };
            write_triple(answer, check);
            0
        }
        Ok(None) => 64,
        Err(r) => number_of(r),
    }
}

#[unsafe(no_mangle)]
pub extern "C" fn oracle_read<'a>(
    answer: &mut [u8],
    values: &'a [u64],
    bounds: &'a [u8],
    pcs: &'a [u64],
    count: usize,
    at: usize,
) -> u64
    ensures { (result ≡ entry_code (entry_at at (lists count values.now bounds.now pcs.now))) × (answer.new ≡ entry_in (entry_at at (lists count values.now bounds.now pcs.now)) answer.old) }
{
    give_entry(answer, pending::read(values, bounds, pcs, count, at))
}
