// Theory alone: what is exported of a list lasts while nothing touches the list. See specs/ and proofs/.
#![tactic(auto)]
