// No code: the trace of the player (request A4) as bytes, calls and text. Everything is in `specs/`, the promises on it in
// `proofs/`.
#![tactic(auto)]
