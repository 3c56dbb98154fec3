// Push by local numbers; there is no code here. specs/Whole.antt has the push that one pass over the
// dispatchers computes with slots in the place of ids and the permits of the ring at hand, and
// proofs/Whole.antt proves it equal to the rules' push of every valid state.
#![tactic(auto)]
