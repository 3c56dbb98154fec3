// What the proofs of commands and push share; there is no code here. proofs/Frame.antt: a record found
// at its slot, a record written there as the rules put it, the answer and the words of an outcome, and
// one write after another.
#![tactic(auto)]
