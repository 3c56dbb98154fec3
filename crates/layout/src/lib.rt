// No code: `specs/` has the state in words, and the calls over words; `proofs/` has the laws of the layout.
#![tactic(auto)]
