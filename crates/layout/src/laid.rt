// Which bytes are those of a state.
ghost use Rattle.std.specs.Prelude.{◌≡◌};
ghost use Rattle.layout.specs.Layout.{well_laid, admissible};

use crate::reading::read;

// Whether the bytes are those of some state.
pub fn well_laid(bytes: &[u8]) -> bool
    ensures { result ≡ well_laid bytes.now }
{
    read(bytes).laid
}

// Whether they are those of a state that the rules allow.
#[tactic(auto, unfolding(crate::specs::Layout::admissible))]
pub fn is_admissible(bytes: &[u8]) -> bool
    ensures { result ≡ admissible bytes.now }
{
    let r = read(bytes);
    r.laid && r.state.registers.well_formed()
}
