// Topics and their ledgers in a store: a topic by its number, a message by its id, the first at or after an id,
// append at the end, make a topic. Nothing here knows of consumers or dispatchers.
#![tactic(auto)]

pub mod append;
pub mod find;
pub mod message;
pub mod position;
pub mod table;
