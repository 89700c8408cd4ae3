// What saving and loading a heap promise: statements and proofs, no code.
#![tactic(auto)]
