// What those calls of the host answer that tell more than a code.
#![tactic(auto)]

ghost use Rattle.std.specs.Prelude.{◌≡◌};
ghost use Rattle.told.specs.Told.{done_told, refused_told};

// `length` is the bytes that were written. C gets these three numbers, so it is no Result.
#[repr(C)]
#[derive(Clone, Copy)]
pub struct Told {
    pub code: u64,
    pub particular: u64,
    pub length: u64,
}

pub fn done(length: u64) -> Told
    ensures { result ≡ done_told length }
{
    Told {
        code: 0,
        particular: 0,
        length,
    }
}

pub fn refused(code: u64, particular: u64) -> Told
    ensures { result ≡ refused_told code particular }
{
    Told {
        code,
        particular,
        length: 0,
    }
}
