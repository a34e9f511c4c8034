// Demand 3, the one promise about every list of homings and steps: no code. specs/Demand.antt says what is promised, proofs/Promise.antt proves it.

#![tactic(auto)]
