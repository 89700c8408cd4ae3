// Reachability and counting over numbered blocks: theory alone. See specs/ and proofs/.
#![tactic(auto)]
