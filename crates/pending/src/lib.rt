// Pending checks, in three lent lists of numbers and a count: values, the bounds that were noted of them, and pcs.
#![tactic(auto)]

ghost use Rattle.std.specs.Prelude.{◌≡◌, set};
ghost use Rattle.pending.specs.Pending.{lists, lengths_fit, room_at, lacks, checks_of, appended, listing, append_answer, append_lists, empty_answer, empty_lists, entry_at};

use refusal::Refusal;

// A check that a step asks for.
#[derive(Clone, Copy)]
pub struct Check {
    pub bound: u8,
    pub value: u64,
}

// How many checks more a list takes; any number where none is lent. No Option: its `None` would read as no room.
#[derive(Clone, Copy)]
pub enum Room {
    Unlent,
    Left(usize),
}

// A check that is listed.
#[derive(Clone, Copy)]
pub struct Entry {
    pub value: u64,
    pub bound: u8,
    pub pc: u64,
}

// Whether the lists are of one length, and the count within it.
pub fn lists_fit(values: usize, bounds: usize, pcs: usize, count: usize) -> bool
    ensures { result ≡ lengths_fit values bounds pcs count }
{
    (bounds == values) & (pcs == values) & (count <= values)
}

// The room of lists of a length, with so many in use.
pub fn room_at(len: usize, count: usize) -> Room
    ensures { result ≡ room_at len count }
{
    if len == 0 {
        return Room::Unlent;
    }
    if len <= count {
        return Room::Left(0);
    }
    Room::Left(len - count)
}

// Whether so many checks don't fit.
pub fn lacks(room: Room, checks: usize) -> bool
    ensures { result ≡ lacks room checks }
{
    match room {
        Room::Unlent => false,
        Room::Left(left) => left < checks,
    }
}

// Writes an entry, where there is such a place.
fn put<T: Copy>(list: &mut [T], at: usize, v: T)
    ensures { list.new ≡ set list.old at v }
{
    if at < list.len() {
        list[at] = v;
    }
}

// The count after one more check, if there is room.
fn note(
    values: &mut [u64],
    bounds: &mut [u8],
    pcs: &mut [u64],
    count: usize,
    value: u64,
    bound: u8,
    pc: u64,
) -> usize
    ensures { lists result values.new bounds.new pcs.new ≡ appended value bound pc (lists count values.old bounds.old pcs.old) }
{
    if values.len() <= count {
        return count;
    }
    put(values, count, value);
    put(bounds, count, bound);
    put(pcs, count, pc);
    count + 1
}

// Lists the checks of a step at a pc, and answers the count then.
pub fn list(
    values: &mut [u64],
    bounds: &mut [u8],
    pcs: &mut [u64],
    count: usize,
    checks: Option<Check>,
    pc: u64,
) -> usize
    ensures { lists result values.new bounds.new pcs.new ≡ listing (checks_of checks) pc (lists count values.old bounds.old pcs.old) }
{
    match checks {
        None => count,
        Some(Check { bound, value }) => note(values, bounds, pcs, count, value, bound, pc),
    }
}

// Lists one check, and answers how many are listed then. Where no list is lent, none is listed and nothing refused.
pub fn append(
    values: &mut [u64],
    bounds: &mut [u8],
    pcs: &mut [u64],
    count: usize,
    value: u64,
    bound: u8,
    pc: u64,
) -> Result<usize, Refusal>
    ensures { (result ≡ append_answer value bound pc (lists count values.old bounds.old pcs.old)) × (lists (append_lists value bound pc (lists count values.old bounds.old pcs.old)).count values.new bounds.new pcs.new ≡ append_lists value bound pc (lists count values.old bounds.old pcs.old)) }
{
    if !lists_fit(values.len(), bounds.len(), pcs.len(), count) {
        return Err(Refusal::Malformed);
    }
    if lacks(room_at(values.len(), count), 1) {
        return Err(Refusal::ListFull { pc });
    }
    Ok(note(values, bounds, pcs, count, value, bound, pc))
}

// Empties the lists: the count is 0 then, and the entries stay.
pub fn empty(
    values: &mut [u64],
    bounds: &mut [u8],
    pcs: &mut [u64],
    count: usize,
) -> Result<usize, Refusal>
    ensures { (result ≡ empty_answer (lists count values.old bounds.old pcs.old)) × (lists (empty_lists (lists count values.old bounds.old pcs.old)).count values.new bounds.new pcs.new ≡ empty_lists (lists count values.old bounds.old pcs.old)) }
{
    if !lists_fit(values.len(), bounds.len(), pcs.len(), count) {
        return Err(Refusal::Malformed);
    }
    Ok(0)
}

pub fn read<'a>(
    values: &'a [u64],
    bounds: &'a [u8],
    pcs: &'a [u64],
    count: usize,
    at: usize,
) -> Result<Option<Entry>, Refusal>
    ensures { result ≡ entry_at at (lists count values.now bounds.now pcs.now) }
{
    if lists_fit(values.len(), bounds.len(), pcs.len(), count) {
        if count <= at {
            return Ok(None);
        }
        return Ok(Some(Entry {
            value: values[at],
            bound: bounds[at],
            pc: pcs[at],
        }));
    }
    Err(Refusal::Malformed)
}
