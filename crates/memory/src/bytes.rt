// Numbers in bytes, little-endian.
ghost use Rattle.std.specs.Prelude.{◌≡◌, true, ◌+◌, ◌-◌, ◌≤◌, ◌<◌, ◌^◌, min, length};
ghost use Rattle.memory.specs.Bytes.{bit, number_at, put_at};

// Yes or no as a number: a comparison's result, a mark, a kind.
pub fn bit(t: bool) -> u8
    ensures { result ≡ bit t }
{
    if t { 1 } else { 0 }
}

// The number in n bytes: from the top down, so that each turn is the definition's.
pub(crate) fn word_at(m: &[u8], at: usize, n: usize) -> u64
    requires n_bound { n ≤ 8 }
    requires n_in_bounds { at + n ≤ length m.now }
    ensures { (result ≡ number_at n m.now at) × (result < 256 ^ n) }
{
    let mut v: u64 = 0;
    for i in (0..n).rev() {
        v = v * 256 + m[at + i] as u64;
    }
    v
}

fn wide(x: u8) -> u32
    ensures { (result ≡ x) × (result < 256) }
{
    x as u32
}

// The number in four bytes, without a loop: the compiler makes one load of it, wherever it is inlined.
pub(crate) fn four_at(m: &[u8], at: usize) -> u32
    requires { at + 4 ≤ length m.now }
    ensures { result ≡ number_at 4 m.now at }
{
    wide(m[at])
        + wide(m[at + 1]) * 0x100
        + wide(m[at + 2]) * 0x1_0000
        + wide(m[at + 3]) * 0x100_0000
}

pub(crate) fn store_at(m: &mut [u8], at: usize, n: usize, value: u64)
    requires { at + n ≤ length m.old }
    ensures { m.new ≡ put_at n m.old at value }
{
    let mut v = value;
    for i in 0..n {
        m[at + i] = (v % 256) as u8;
        v = v / 256;
    }
}

// How many of the n bytes from `at` on are there.
fn there(len: usize, at: usize, n: usize) -> usize
    ensures { result ≡ min n (len - at) }
{
    if len <= at {
        return 0;
    }
    if n < len - at { n } else { len - at }
}

// Whether they are few and all there. Their number is then still the caller's constant, and they are one load or store.
fn all_there(len: usize, at: usize, n: usize) -> bool
    ensures { result ≡ true → (n ≤ 8) × (at + n ≤ len) }
{
    if 8 < n {
        return false;
    }
    if len < n {
        return false;
    }
    at <= len - n
}

fn part_at(m: &[u8], at: usize, n: usize) -> u64
    ensures { result ≡ number_at (min n 8) m.now at }
{
    let here = there(m.len(), at, n);
    if here == 0 {
        return 0;
    }
    if 8 < here {
        return word_at(m, at, 8);
    }
    word_at(m, at, here)
}

// The number in at most eight bytes from `at` on.
pub fn number_at(m: &[u8], at: usize, n: usize) -> u64
    ensures { result ≡ number_at (min n 8) m.now at }
{
    if all_there(m.len(), at, n) {
        return word_at(m, at, n);
    }
    part_at(m, at, n)
}

fn put_part(m: &mut [u8], at: usize, n: usize, value: u64)
    ensures { m.new ≡ put_at n m.old at value }
{
    let here = there(m.len(), at, n);
    if 0 < here {
        store_at(m, at, here, value);
    }
}

// Writes the low n bytes of a number from `at` on, as far as there is room.
pub fn put_number(m: &mut [u8], at: usize, n: usize, value: u64)
    ensures { m.new ≡ put_at n m.old at value }
{
    if all_there(m.len(), at, n) {
        store_at(m, at, n, value);
        return;
    }
    put_part(m, at, n, value);
}
