// The mathematics of search 2, Gharavi-Alkhansari's pruned search: no code. specs/ has its steps, proofs/ that they never lose the winner.

#![tactic(auto)]
