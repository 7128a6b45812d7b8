// Fields with their signs at 64 bits: a loaded byte and halfword, an immediate of 17 bits, an offset of 21. What they share is
// `extend`; each takes the type that its field is read in.
ghost use Rattle.std.specs.Prelude.{◌≡◌, ◌-◌, ◌/◌, ◌%◌, ◌^◌, ◌<◌};
ghost use Rattle.encoding.specs.Fields.{signed_of, extended};

// 32 bits, read as signed: written so that the compiler sees the conversion of a signed word.
fn reading_32(x: u32) -> i64
    ensures { result ≡ signed_of 31 x }
{
    x.wrapping_add(0x8000_0000) as i64 - 0x8000_0000
}

// The upper 32 - k bits with their sign: a shift that keeps it.
fn extend(x: u32, k: u32) -> u64
    requires { k < 32 }
    ensures { result ≡ extended (31 - k) (x / 2 ^ k) }
{
    (reading_32(x) >> k).cast_unsigned()
}

pub fn extend_8(x: u8) -> u64
    ensures { result ≡ extended 7 x }
{
    extend(x as u32 * 0x100_0000, 24)
}

pub fn extend_16(x: u16) -> u64
    ensures { result ≡ extended 15 x }
{
    extend(x as u32 * 0x1_0000, 16)
}

pub fn extend_17(x: u32) -> u64
    ensures { result ≡ extended 16 (x % 2 ^ 17) }
{
    extend(x % 0x2_0000 * 0x8000, 15)
}

pub fn extend_21(x: u32) -> u64
    ensures { result ≡ extended 20 (x % 2 ^ 21) }
{
    extend(x % 0x20_0000 * 0x800, 11)
}
