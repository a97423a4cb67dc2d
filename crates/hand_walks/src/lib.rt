// No code: laws for proofs that walk a function's code by hand, where the prover does not follow it: values that are
// carried, and slices that are lent on.
#![tactic(auto)]
