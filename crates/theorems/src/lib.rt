// No code: what is proved of every run of the public calls stands in specs/ (the statements) and proofs/.
#![tactic(auto)]
