// What a push is due, on local numbers: nothing of the store is written here. A dispatcher is served by
// turns; each reads its queue, ledger and marks in the store, and moves the consumers' permits and the
// dispatcher's numbers, which are locals of the caller.
#![tactic(auto)]

mod choice;
pub mod due;
mod price;
pub mod ring;
pub mod service;
pub mod turn;
