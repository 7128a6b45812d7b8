// Each public function's promise determines its result and everything lent; and the paper's corners: specs/ says it, proofs/ shows it.
#![tactic(auto)]

ghost use Rattle.std.specs.Prelude.{◌≡◌, length};

// A sample: nothing calls it. The edits under must-fail/ leave its code and weaken its promise, and its law must then be refused.
fn sample(m: &mut [u8]) -> usize
    ensures { (result ≡ length m.old) × (m.new ≡ m.old) }
{
    m.len()
}
