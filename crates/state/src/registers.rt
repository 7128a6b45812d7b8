// The sixteen registers: reading, writing, normalising, and which of them refusal 9 turns away. They are numbered modulo 16.
ghost use Rattle.std.specs.Prelude.{◌≡◌, ◌%◌, ◌<◌, ◌^◌, ◌&&◌, leb, eqb, false, get_or};
ghost use Rattle.state.specs.Held.{value_of, low_of, high_of, held_of};
ghost use Rattle.state.specs.Registers.{holds, noted, place, normalise, normalise_to};
ghost use Rattle.state.specs.Formed.{limbs_fit, is_zero, register_fits, well_formed, all_whole};

// Of each register the number that is kept, whether it is accumulated, and its bound. A whole register is kept as its value, an
// accumulated one as low + 2^30 * high.
#[derive(Clone, Copy)]
pub struct Registers {
    pub values: [u64; 16],
    pub accumulated: [bool; 16],
    pub bounds: [u8; 16],
}

#[tactic(auto, unfolding(crate::specs::Held::value_of, crate::specs::Held::held_of))]
fn value_of(waits: bool, v: u64) -> u64
    ensures { result ≡ value_of (held_of waits v) }
{
    if waits {
        (v % 0x4000_0000 + v / 0x4000_0000 % 0x10_0000 * 0x10_0000) % 0x100_0000_0000
    } else {
        v
    }
}

#[tactic(auto, unfolding(crate::specs::Held::low_of, crate::specs::Held::held_of))]
fn low_of(waits: bool, v: u64) -> u64
    ensures { (result ≡ low_of (held_of waits v)) × (result < 2 ^ 30) }
{
    if waits {
        v % 0x4000_0000
    } else {
        v % 0x10_0000
    }
}

#[tactic(auto, unfolding(crate::specs::Held::high_of, crate::specs::Held::held_of))]
fn high_of(waits: bool, v: u64) -> u64
    ensures { (result ≡ high_of (held_of waits v)) × (result < 2 ^ 34) }
{
    if waits {
        v / 0x4000_0000
    } else {
        v / 0x10_0000 % 0x10_0000
    }
}

#[tactic(auto, unfolding(crate::specs::Formed::limbs_fit, crate::specs::Held::held_of))]
fn fits(waits: bool, v: u64, bound: u8) -> bool
    ensures { result ≡ (leb bound 64 && limbs_fit (held_of waits v)) }
{
    if 64 < bound {
        return false;
    }
    if waits {
        return v / 0x4000_0000 < 0x4000_0000;
    }
    true
}

#[tactic(auto, unfolding(crate::specs::Formed::is_zero, crate::specs::Held::held_of))]
fn zero_fits(waits: bool, v: u64, bound: u8) -> bool
    ensures { result ≡ (is_zero (held_of waits v) && eqb bound 0) }
{
    !waits && v == 0 && bound == 0
}

impl Registers {
    pub fn value_at(&self, n: u8) -> u64
        ensures { result ≡ value_of (holds self.now n) }
    {
        let i = (n % 16) as usize;
        value_of(self.accumulated[i], self.values[i])
    }

    pub fn low_at(&self, n: u8) -> u64
        ensures { (result ≡ low_of (holds self.now n)) × (result < 2 ^ 30) }
    {
        let i = (n % 16) as usize;
        low_of(self.accumulated[i], self.values[i])
    }

    pub fn high_at(&self, n: u8) -> u64
        ensures { (result ≡ high_of (holds self.now n)) × (result < 2 ^ 34) }
    {
        let i = (n % 16) as usize;
        high_of(self.accumulated[i], self.values[i])
    }

    pub fn bound_at(&self, n: u8) -> u8
        ensures { result ≡ noted self.now n }
    {
        let i = (n % 16) as usize;
        self.bounds[i]
    }

    // Whether the register is accumulated.
    pub fn waits_at(&self, n: u8) -> bool
        ensures { result ≡ get_or self.now.accumulated (n % 16) false }
    {
        let i = (n % 16) as usize;
        self.accumulated[i]
    }

    // Keeps `v`, whole or as limbs, with its bound. R0 ignores it.
    #[tactic(auto, using(crate::proofs::Files::place_none, crate::proofs::Files::place_set))]
    pub fn write(&mut self, rd: u8, v: u64, waits: bool, bound: u8)
        ensures { self.new ≡ place (rd % 16) v waits bound self.old }
    {
        let i = (rd % 16) as usize;
        if i == 0 {
            return;
        }
        self.values[i] = v;
        self.accumulated[i] = waits;
        self.bounds[i] = bound;
    }

    // A normalised register is whole, and keeps its bound.
    pub fn normalise(&mut self, n: u8)
        ensures { self.new ≡ normalise n self.old }
    {
        let i = (n % 16) as usize;
        if i == 0 {
            return;
        }
        let v = self.value_at(n);
        self.values[i] = v;
        self.accumulated[i] = false;
    }

    // R1 to R15.
    pub fn normalise_all(&mut self)
        ensures { self.new ≡ normalise_to 15 self.old }
    {
        for k in 0..15u8 {
            self.normalise(k + 1);
        }
    }

    #[tactic(auto, unfolding(crate::specs::Formed::register_fits))]
    fn fits_at(&self, n: u8) -> bool
        ensures { result ≡ register_fits self.now n }
    {
        let i = (n % 16) as usize;
        fits(self.accumulated[i], self.values[i], self.bounds[i])
    }

    pub fn well_formed(&self) -> bool
        ensures { result ≡ well_formed self.now }
    {
        if !zero_fits(self.accumulated[0], self.values[0], self.bounds[0]) {
            return false;
        }
        for n in 0..16 {
            if !self.fits_at(n) {
                return false;
            }
        }
        true
    }

    // Whether no register is accumulated.
    pub fn all_whole(&self) -> bool
        ensures { result ≡ all_whole self.now.accumulated }
    {
        for waits in self.accumulated {
            if waits {
                return false;
            }
        }
        true
    }
}
