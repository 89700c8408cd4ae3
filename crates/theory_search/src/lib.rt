// Theory alone: what a search from the root finds, and by which path. See specs/ and proofs/.
#![tactic(auto)]
