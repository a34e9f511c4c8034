// What writing, reading and walking a log say of each other: no code. specs/RoundTrip.antt has the theorems, proofs/ their proofs.

#![tactic(auto)]
