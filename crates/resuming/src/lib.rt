// No code: that a run resumed from a checkpoint goes on as the unbroken one would (specs/Statements.antt).
#![tactic(auto)]
