// The store: a state in lent words. Where things stand in it, its words read, moved and cleared, and a store
// opened. Nothing here knows what a record means. docs/STORE.md has the layout.
//
// The store and E stand side by side where code writes: words past a count are 0 in a store that is spelt as it should
// be, and are not between a record's first write and its count's, so no fact of a value that holds the words would last.
#![tactic(auto)]

pub mod counted;
pub mod header;
pub mod limits;
pub mod movers;
pub mod offsets;
pub mod open;
pub mod permits;
pub mod stretch;
