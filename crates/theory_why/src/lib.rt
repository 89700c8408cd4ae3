// Theory alone: the reason why a block is still here is the true one. See specs/ and proofs/.
#![tactic(auto)]
