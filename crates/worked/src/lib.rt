// The worked pairs A to I, which belong to the proved set: no code. specs/ has the joint table, proofs/ the one proof over it, and two impostors
// that the promise on the track excludes.

#![tactic(auto)]
