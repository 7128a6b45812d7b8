// Three numbers in 24 bytes, in which the exports give what is no number.
ghost use Rattle.std.specs.Prelude.{◌≡◌};
ghost use Rattle.exports.specs.Triples.{tripled, refusal_triple};

use memory::bytes::put_number;
use refusal::Refusal;

const TRIPLE_BYTES: usize = 24;

#[derive(Clone, Copy)]
pub struct Triple {
    pub first: u64,
    pub second: u64,
    pub third: u64,
}

// Bytes of another length aren't written.
pub fn write_triple(bytes: &mut [u8], t: Triple)
    ensures { bytes.new ≡ tripled t bytes.old }
{
    if bytes.len() != TRIPLE_BYTES {
        return;
    }
    put_number(bytes, 0, 8, t.first);
    put_number(bytes, 8, 8, t.second);
    put_number(bytes, 16, 8, t.third);
}

pub fn refused(r: Refusal) -> Triple
    ensures { result ≡ refusal_triple r }
{
    Triple {
        first: refusal::number_of(r),
        second: 0,
        third: refusal::particular_of(r),
    }
}
