// Pending checks, in three lent lists: `pending`.
ghost use Rattle.std.specs.Prelude.{◌≡◌};
ghost use Rattle.pending.specs.Pending.{lists, append_answer, append_lists, empty_answer, empty_lists, entry_at};
ghost use Rattle.exports.specs.Triples.{tripled};
ghost use Rattle.exports.specs.Lists.{counted_triple, entry_code, entry_in};

#[unsafe(no_mangle)]
pub extern "C" fn oracle_append(
    answer: &mut [u8],
    values: &mut [u64],
    bounds: &mut [u8],
    pcs: &mut [u64],
    count: usize,
    value: u64,
    bound: u8,
    pc: u64,
)
    ensures { (answer.new ≡ tripled (counted_triple (append_answer value bound pc (lists count values.old bounds.old pcs.old))) answer.old) × (lists (append_lists value bound pc (lists count values.old bounds.old pcs.old)).count values.new bounds.new pcs.new ≡ append_lists value bound pc (lists count values.old bounds.old pcs.old)) }
{
    exports::lists::oracle_append(answer, values, bounds, pcs, count, value, bound, pc);
}

#[unsafe(no_mangle)]
pub extern "C" fn oracle_empty(
    answer: &mut [u8],
    values: &mut [u64],
    bounds: &mut [u8],
    pcs: &mut [u64],
    count: usize,
)
    ensures { (answer.new ≡ tripled (counted_triple (empty_answer (lists count values.old bounds.old pcs.old))) answer.old) × (lists (empty_lists (lists count values.old bounds.old pcs.old)).count values.new bounds.new pcs.new ≡ empty_lists (lists count values.old bounds.old pcs.old)) }
{
    exports::lists::oracle_empty(answer, values, bounds, pcs, count);
}

#[unsafe(no_mangle)]
pub extern "C" fn oracle_read<'a>(
    answer: &mut [u8],
    values: &'a [u64],
    bounds: &'a [u8],
    pcs: &'a [u64],
    count: usize,
    at: usize,
) -> u64
    ensures { (result ≡ entry_code (entry_at at (lists count values.now bounds.now pcs.now))) × (answer.new ≡ entry_in (entry_at at (lists count values.now bounds.now pcs.now)) answer.old) }
{
    exports::lists::oracle_read(answer, values, bounds, pcs, count, at)
}
