// No code: that whoever steps alone after a run of the public calls is done stands in specs/ (the statement) and proofs/.
#![tactic(auto)]
