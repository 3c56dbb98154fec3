// A Message of a lent record written as the bytes of a BaseCommand: numbers and fields of numbers, then the message
// of them. Each writer lays its bytes from a place on and answers the place after them.
// Each writer takes the whole buffer and a place in it, not the rest of the buffer, as push does with its list: a writer of a line
// or of a message lends several parts and not one, and each would add its answer to the place.
#![tactic(auto)]

pub mod fields;
pub mod message;
