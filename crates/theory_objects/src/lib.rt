// What people who use objects longer than a block rely on: statements and proofs, no code.
#![tactic(auto)]
