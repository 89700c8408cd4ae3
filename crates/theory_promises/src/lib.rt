// Theory alone: the machine's calls are made of moves, and the promises hold of it. See specs/ and proofs/.
#![tactic(auto)]
