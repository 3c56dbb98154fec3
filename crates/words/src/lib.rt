// The laws of spelling values in fixed-width words stand in specs/ and proofs/.
#![tactic(auto)]
