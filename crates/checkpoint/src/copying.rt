// Bytes of one slice into another.
ghost use Rattle.std.specs.Prelude.{◌≡◌, length};

// A loop: the library's `copy_from_slice` calls memmove, which a host without a C library would have to bring.
pub(crate) fn copy(into: &mut [u8], from: &[u8])
    requires { length into.old ≡ length from.now }
    ensures { into.new ≡ from.now }
{
    for i in 0..from.len() {
        into[i] = from[i];
    }
}
