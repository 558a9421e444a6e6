// Definitions of what loops work out, in specs/, and the laws that the proofs of loops cite, in proofs/. There is no code here.
#![tactic(auto)]
