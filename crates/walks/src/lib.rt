// No code: what the proofs of walked functions share stands in proofs/.
#![tactic(auto)]
