// A message of the wire gone through field by field: a varint, a field, the fields one after the other, one walk that keeps
// what stands under some numbers, what a reader takes out of that, and why bytes are not read. The walk is also the test that the message is well formed.
#![tactic(auto)]

pub mod base;
pub mod field;
pub mod fields;
pub mod format;
pub mod lay;
pub mod pick;
pub mod select;
pub mod unread;
pub mod varint;
