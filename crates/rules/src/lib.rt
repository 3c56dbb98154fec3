// No code: `specs/` has the rules of the consumer side as definitions, `proofs/` the theorems about them.
#![tactic(auto)]
