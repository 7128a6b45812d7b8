// The table of labels: three numbers a label, found by its name's key. C lends it as numbers, so a slot is three of them and no struct.
// The text is lent beside it, and no struct holds both: noting writes the table alone.
ghost use Rattle.std.specs.Prelude.{◌≡◌, ◌≢◌, ◌&&◌, ◌+◌, ◌<◌, eqb, length, true};
ghost use Rattle.labels.specs.Bytes.{is_part, every, eq_bytes, key_of};
ghost use Rattle.labels.specs.Reading.{name_at};
ghost use Rattle.labels.specs.Table.{name_from, slots_of, home_of, next_of, search_in, SlotBelow, index_in, found_by, noted_by, with_label};

use crate::text::{byte, part};

// Where a name is in the table, or would be. An enum of three answers: noting tells a name that is held from a table that is full.
#[derive(Clone, Copy)]
pub enum Slot {
    Held(usize),
    Free(usize),
    Full,
}

// What noting a name comes to. An enum of three answers: callers go on with two of them.
#[derive(Clone, Copy)]
pub enum Noted {
    New,
    Again,
    NoRoom,
}

// A name, read once: its key, and the place after it.
#[derive(Clone, Copy)]
pub struct Name {
    pub key: u64,
    pub after: usize,
}

// The name at a place. Its key is its last eight bytes as a number.
pub fn name_at(s: &[u8], at: usize) -> Name
    ensures { result ≡ name_from s.now at }
{
    let mut key: u64 = 0;
    for after in at..s.len() {
        let c = s[after];
        if !part(c) {
            return Name { key, after };
        }
        key = (key % 0x100_0000_0000_0000) * 256 + u64::from(c);
    }
    Name {
        key,
        after: at.max(s.len()),
    }
}

// Whether the name at a place of the text is this one.
fn same(text: &[u8], p: usize, name: &[u8]) -> bool
    requires { every is_part name.now ≡ true }
    ensures { result ≡ eq_bytes (name_at text.now p) name.now }
{
    match text.get(p..) {
        Some(rest) => rest.starts_with(name) && !part(byte(rest, name.len())),
        None => name.is_empty(),
    }
}

// Whether the label at a place of the table, whose key is q, has this name, which stands at a place.
fn is_label(text: &[u8], p: u64, q: u64, s: &[u8], at: usize, name: Name) -> bool
    requires { (q ≢ 0) × (name ≡ name_from s.now at) }
    ensures { result ≡ eqb q (key_of (name_at s.now at)) && eq_bytes (name_at text.now p) (name_at s.now at) }
{
    q == name.key && same(text, p as usize, &s[at..name.after])
}

fn home(w: u64, slots: usize) -> usize
    requires { 0 < slots }
    ensures { (result ≡ home_of w slots) × (result < slots) }
{
    let sum = w % 0x1_0000_0000 * 1_640_531_527 + w / 0x1_0000_0000 * 1_540_483_477;
    let spread = (sum % 0x1_0000_0000) as usize;
    if slots < 0x1_0000_0000 {
        return spread * slots / 0x1_0000_0000;
    }
    spread
}

fn next(k: usize, slots: usize) -> usize
    requires { k < slots }
    ensures { (result ≡ next_of slots k) × (result < slots) }
{
    if k + 1 == slots { 0 } else { k + 1 }
}

// The slot of this name, which stands at a place.
fn search(text: &[u8], table: &[u64], s: &[u8], at: usize, name: Name) -> Slot
    requires { name ≡ name_from s.now at }
    ensures value { result ≡ search_in text.now table.now (name_at s.now at) }
    ensures below { SlotBelow (slots_of table.now) result }
{
    let slots = table.len() / 3;
    if slots == 0 {
        return Slot::Full;
    }
    let mut k = home(name.key, slots);
    for _passed in 0..slots {
        let i = 3 * k;
        let q = table[i + 1];
        if q == 0 {
            return Slot::Free(k);
        }
        if is_label(text, table[i], q, s, at, name) {
            return Slot::Held(k);
        }
        k = next(k, slots);
    }
    Slot::Full
}

// The number of instructions before the label that has the name at a place, and the place after the name.
pub fn find(text: &[u8], table: &[u64], s: &[u8], at: usize) -> Option<(u64, usize)>
    ensures { result ≡ found_by (index_in text.now table.now (name_at s.now at)) (at + length (name_at s.now at)) }
{
    let name = name_at(s, at);
    match search(text, table, s, at, name) {
        Slot::Held(k) => Some((table[3 * k + 2], name.after)),
        Slot::Free(_) | Slot::Full => None,
    }
}

// Notes the label whose name stands at a place of the text, unless one of that name is noted.
pub fn note(text: &[u8], table: &mut [u64], at: usize, index: u64) -> Noted
    ensures { (result ≡ noted_by (search_in text.now table.old (name_at text.now at)))
        × (table.new ≡ with_label (search_in text.now table.old (name_at text.now at)) table.old at (key_of (name_at text.now at)) index) }
{
    let name = name_at(text, at);
    match search(text, table, text, at, name) {
        Slot::Held(_) => Noted::Again,
        Slot::Free(k) => {
            let i = 3 * k;
            table[i] = at as u64;
            table[i + 1] = name.key;
            table[i + 2] = index;
            Noted::New
        }
        Slot::Full => Noted::NoRoom,
    }
}
