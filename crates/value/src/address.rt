// Addresses and the program counter wrap modulo 2^64.
ghost use Rattle.std.specs.Prelude.{◌≡◌, ◌+◌, ◌%◌, ◌^◌};

// A register plus an immediate, or the program counter plus an offset, either of them sign-extended to 64 bits.
pub fn plus(x: u64, y: u64) -> u64
    ensures { result ≡ (x + y) % 2 ^ 64 }
{
    x.wrapping_add(y)
}
