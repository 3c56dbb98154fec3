// The plain part of a push: each consumer gets the permits that the shared part left it, and a plain
// one the entries that wait for it, nacked ones first, as far as its permits go.
#![tactic(auto)]

pub mod due;
pub mod reader;
pub mod serve;
pub mod sum;
