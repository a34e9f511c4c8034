// The laws that every crate of the gauge shares stand in specs/: sums, places in rows, lists filled in order, the first least of a list, tests. There is
// no code.

#![tactic(auto)]
