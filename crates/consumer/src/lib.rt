// Consumers in a store: the live one with an id, what its words hold, its nacked entries, and the table of them.
#![tactic(auto)]

pub mod fields;
pub mod lookup;
pub mod make;
pub mod nacked;
pub mod table;
