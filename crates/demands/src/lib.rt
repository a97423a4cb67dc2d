// No code: what was demanded of the packet part, stated in specs/ and proved in proofs/.
#![tactic(auto)]
