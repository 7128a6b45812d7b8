// Why a step or a call is refused, and why a run stops (document 01, "Stops and refusals").
#![tactic(auto)]

ghost use Rattle.std.specs.Prelude.{◌≡◌};
ghost use Rattle.refusal.specs.Stops.{number_of, particular_of, code_of, particular_at};

// In the order of document 01's numbers, 1 to 9, each with the pc, the missing byte, the address or the word that it names.
#[derive(Clone, Copy)]
pub enum Refusal {
    DivisorZero { pc: u64 },
    Beyond { missing: u64 },
    Misaligned { address: u64 },
    BadOpcode { word: u32 },
    UnusedBits { word: u32 },
    PcMisaligned { pc: u64 },
    PcBeyond { pc: u64 },
    ListFull { pc: u64 },
    Malformed,
}

#[derive(Clone, Copy)]
pub enum Stop {
    Fuel,
    Ebreak,
    Ecall,
    Refused(Refusal),
}

// C, the programs and document 01 know a refusal by its number.
pub fn number_of(r: Refusal) -> u64
    ensures { result ≡ number_of r }
{
    match r {
        Refusal::DivisorZero { pc: _ } => 1,
        Refusal::Beyond { missing: _ } => 2,
        Refusal::Misaligned { address: _ } => 3,
        Refusal::BadOpcode { word: _ } => 4,
        Refusal::UnusedBits { word: _ } => 5,
        Refusal::PcMisaligned { pc: _ } => 6,
        Refusal::PcBeyond { pc: _ } => 7,
        Refusal::ListFull { pc: _ } => 8,
        Refusal::Malformed => 9,
    }
}

pub fn particular_of(r: Refusal) -> u64
    ensures { result ≡ particular_of r }
{
    match r {
        Refusal::DivisorZero { pc } => pc,
        Refusal::Beyond { missing } => missing,
        Refusal::Misaligned { address } => address,
        Refusal::BadOpcode { word } => word as u64,
        Refusal::UnusedBits { word } => word as u64,
        Refusal::PcMisaligned { pc } => pc,
        Refusal::PcBeyond { pc } => pc,
        Refusal::ListFull { pc } => pc,
        Refusal::Malformed => 0,
    }
}

// The code by which a host learns of a stop: 0 fuel, 1 to 9 refusals, 64 Ebreak, 65 Ecall.
pub fn code_of(s: Stop) -> u64
    ensures { result ≡ code_of s }
{
    match s {
        Stop::Fuel => 0,
        Stop::Ebreak => 64,
        Stop::Ecall => 65,
        Stop::Refused(r) => number_of(r),
    }
}

// A refused stop's particular; 0 at the others.
pub fn particular_at(s: Stop) -> u64
    ensures { result ≡ particular_at s }
{
    match s {
        Stop::Fuel => 0,
        Stop::Ebreak => 0,
        Stop::Ecall => 0,
        Stop::Refused(r) => particular_of(r),
    }
}
