// No code: what the audit's answer means, as theory over the machine's definitions.
#![tactic(auto)]
