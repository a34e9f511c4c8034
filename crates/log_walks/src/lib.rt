// The mathematics of logs and their walks: no code. specs/ has the outcomes of a call, proofs/ what a whole walk says of its log.

#![tactic(auto)]
