// Whether bytes are zeros.
ghost use Rattle.std.specs.Prelude.{◌≡◌, ◌%◌, length};
ghost use Rattle.checkpoint.specs.Image.{all_zero};

// No byte stops it, so that the compiler can take many at once.
fn chunk_zero(chunk: &[u8]) -> bool
    ensures { result ≡ all_zero chunk.now }
{
    chunk.iter().fold(0u8, |found, b| found | *b) == 0
}

pub(crate) fn all_zero(bytes: &[u8]) -> bool
    requires { length bytes.now % 64 ≡ 0 }
    ensures { result ≡ all_zero bytes.now }
{
    for chunk in bytes.chunks_exact(64) {
        if !chunk_zero(chunk) {
            return false;
        }
    }
    true
}
