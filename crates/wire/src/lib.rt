// No code: `specs/` has the commands of the wire as definitions, bytes read and bytes written; `proofs/` the
// theorems about them.
#![tactic(auto)]
