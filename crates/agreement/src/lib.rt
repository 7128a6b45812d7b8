// Both modes are one computer, the code of the runs and of the host's call too; what a run's steps and fuel are; what a deferred
// instruction keeps; and that a refused step changes nothing: specs/ says it, proofs/ shows it. There is no code here.
#![tactic(auto)]
