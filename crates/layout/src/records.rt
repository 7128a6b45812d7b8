// A register's record as three numbers of eight bytes: kind, bound and six zeros are the first.
ghost use Rattle.std.specs.Prelude.{◌≡◌, ◌≤◌};
ghost use Rattle.layout.specs.Layout.{STATE_BYTES};
ghost use Rattle.layout.specs.Numbers.{numbers_at};

use memory::bytes::number_at;

#[derive(Clone, Copy)]
pub(crate) struct Record {
    pub(crate) head: u64,
    pub(crate) first: u64,
    pub(crate) second: u64,
}

// Nothing is taken apart here: so the compiler makes one load of each number.
pub(crate) fn numbers_at(bytes: &[u8], at: usize) -> Record
    requires { at ≤ STATE_BYTES }
    ensures { result ≡ numbers_at bytes.now at }
{
    let head = number_at(bytes, at, 8);
    let first = number_at(bytes, at + 8, 8);
    let second = number_at(bytes, at + 16, 8);
    Record {
        head,
        first,
        second,
    }
}
