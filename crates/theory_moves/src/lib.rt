// The abstract collector: moves, what they keep and what they bring about. Theory alone: see specs/ and proofs/.
#![tactic(auto)]
