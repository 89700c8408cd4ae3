// No code: the law of the outer calls, by which a record of registers is lent and changed in place.
#![tactic(auto)]
