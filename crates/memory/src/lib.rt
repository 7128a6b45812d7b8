// Memory is one lent slice from address 0, little-endian: loads, stores and the fetch of a word, each served or refused.
#![tactic(auto)]

ghost use Rattle.std.specs.Prelude.{◌≡◌, ◌+◌, ◌%◌, ◌≤◌, eqb, leb, length};
ghost use Rattle.memory.specs.Bytes.{number_at, put_at};
ghost use Rattle.memory.specs.Memory.{size_of, access_of, beyond_at, load_of, store_of, memory_after, fetch_of};

use refusal::Refusal;

pub mod bytes; // bytes.rt: numbers in bytes

// 1, 2, 4 and 8 bytes. An enum, so that each size is a constant where bytes are read and written.
#[derive(Clone, Copy)]
pub enum Size {
    Byte,
    Half,
    Word,
    Double,
}

// Three answers, none with a value. A load, a store and a fetch each have refusals of their own for the last two, so it is no Result.
#[derive(Clone, Copy)]
pub enum Access {
    Served,
    Beyond,
    Misaligned,
}

fn aligned(address: u64, size: Size) -> bool
    ensures { result ≡ eqb (address % size_of size) 0 }
{
    match size {
        Size::Byte => address % 1 == 0,
        Size::Half => address % 2 == 0,
        Size::Word => address % 4 == 0,
        Size::Double => address % 8 == 0,
    }
}

fn size_of(size: Size) -> u64
    ensures { result ≡ size_of size }
{
    match size {
        Size::Byte => 1,
        Size::Half => 2,
        Size::Word => 4,
        Size::Double => 8,
    }
}

// Whether the access ends within `len` bytes. The size is taken from the length, so that nothing wraps.
fn within(len: usize, address: u64, size: Size) -> bool
    ensures { result ≡ leb (address + size_of size) len }
{
    let len = len as u64;
    let size = size_of(size);
    if len < size {
        return false;
    }
    if len - size < address {
        return false;
    }
    true
}

fn reach(len: usize, address: u64, size: Size) -> Access
    ensures { result ≡ access_of (size_of size) len address }
{
    if !aligned(address, size) {
        return Access::Misaligned;
    }
    if !within(len, address, size) {
        return Access::Beyond;
    }
    Access::Served
}

// The first byte that an access from `address` on lacks, which refusal 2 names.
fn beyond_at(len: usize, address: u64) -> u64
    ensures { result ≡ beyond_at len address }
{
    let len = len as u64;
    if address < len {
        return len;
    }
    address
}

fn read(m: &[u8], at: usize, size: Size) -> u64
    requires { at + size_of size ≤ length m.now }
    ensures { result ≡ number_at (size_of size) m.now at }
{
    match size {
        Size::Byte => bytes::word_at(m, at, 1),
        Size::Half => bytes::word_at(m, at, 2),
        Size::Word => bytes::word_at(m, at, 4),
        Size::Double => bytes::word_at(m, at, 8),
    }
}

fn write(m: &mut [u8], at: usize, size: Size, value: u64)
    requires { at + size_of size ≤ length m.old }
    ensures { m.new ≡ put_at (size_of size) m.old at value }
{
    match size {
        Size::Byte => bytes::store_at(m, at, 1, value),
        Size::Half => bytes::store_at(m, at, 2, value),
        Size::Word => bytes::store_at(m, at, 4, value),
        Size::Double => bytes::store_at(m, at, 8, value),
    }
}

// What a store would answer, and a load that is refused: nothing is stored.
fn storable(len: usize, address: u64, size: Size) -> Result<(), Refusal>
    ensures { result ≡ store_of size len address }
{
    match reach(len, address, size) {
        Access::Served => Ok(()),
        Access::Beyond => Err(Refusal::Beyond {
            missing: beyond_at(len, address),
        }),
        Access::Misaligned => Err(Refusal::Misaligned { address }),
    }
}

#[tactic(auto, using(crate::proofs::Accesses::load_served, crate::proofs::Accesses::load_refused))]
pub fn load(m: &[u8], address: u64, size: Size) -> Result<u64, Refusal>
    ensures { result ≡ load_of size m.now address }
{
    storable(m.len(), address, size)?;
    Ok(read(m, address as usize, size))
}

#[tactic(auto, unfolding(crate::specs::Memory::on_stored))]
fn store_sized(m: &mut [u8], address: u64, size: Size, value: u64) -> Result<(), Refusal>
    ensures { (result ≡ store_of size (length m.old) address) × (m.new ≡ memory_after size m.old address value) }
{
    storable(m.len(), address, size)?;
    write(m, address as usize, size, value);
    Ok(())
}

// Stores the value's low bytes, as many as the size. Each size by itself, so that the compiler makes one store of the bytes.
pub fn store(m: &mut [u8], address: u64, size: Size, value: u64) -> Result<(), Refusal>
    ensures { (result ≡ store_of size (length m.old) address) × (m.new ≡ memory_after size m.old address value) }
{
    match size {
        Size::Byte => store_sized(m, address, Size::Byte, value),
        Size::Half => store_sized(m, address, Size::Half, value),
        Size::Word => store_sized(m, address, Size::Word, value),
        Size::Double => store_sized(m, address, Size::Double, value),
    }
}

pub fn fetch(m: &[u8], pc: u64) -> Result<u32, Refusal>
    ensures { result ≡ fetch_of m.now pc }
{
    match reach(m.len(), pc, Size::Word) {
        Access::Served => Ok(bytes::four_at(m, pc as usize)),
        Access::Beyond => Err(Refusal::PcBeyond { pc }),
        Access::Misaligned => Err(Refusal::PcMisaligned { pc }),
    }
}
