// Pending checks as one lent slice of records, and how many of them are in use.
#![tactic(auto)]

ghost use Rattle.std.specs.Prelude.{◌≡◌, set};
ghost use Rattle.pending.specs.Pending.{empty_answer, empty_lists, entry_at};
ghost use Rattle.checks.specs.Records.{listed, answer_to, with_one};

use pending::Entry;
use refusal::Refusal;

#[repr(C)]
#[derive(Clone, Copy)]
pub struct Pending {
    pub value: u64,
    pub bound: u8,
    pub pc: u64,
}

// The record at a place is overwritten, where there is one.
pub fn note_at(list: &mut [Pending], at: usize, p: Pending)
    ensures { list.new ≡ set list.old at p }
{
    if at < list.len() {
        list[at] = p;
    }
}

// Lists one check. Where no list is lent, none is listed and nothing refused.
pub fn append(list: &mut [Pending], count: usize, p: Pending) -> Result<usize, Refusal>
    ensures { (result ≡ answer_to p count list.old) × (listed (with_one p count list.old).count list.new ≡ with_one p count list.old) }
{
    let room = list.len();
    if room < count {
        return Err(Refusal::Malformed);
    }
    if count < room {
        list[count] = p;
        return Ok(count + 1);
    }
    if room == 0 {
        return Ok(count);
    }
    Err(Refusal::ListFull { pc: p.pc })
}

// Empties the list: the count is 0 then, and the records stay.
pub fn empty(list: &mut [Pending], count: usize) -> Result<usize, Refusal>
    ensures { (result ≡ empty_answer (listed count list.old)) × (listed (empty_lists (listed count list.old)).count list.new ≡ empty_lists (listed count list.old)) }
{
    if list.len() < count {
        return Err(Refusal::Malformed);
    }
    Ok(0)
}

pub fn read(list: &[Pending], count: usize, at: usize) -> Result<Option<Entry>, Refusal>
    ensures { result ≡ entry_at at (listed count list.now) }
{
    if count <= list.len() {
        if count <= at {
            return Ok(None);
        }
        let Pending { value, bound, pc } = list[at];
        return Ok(Some(Entry { value, bound, pc }));
    }
    Err(Refusal::Malformed)
}
