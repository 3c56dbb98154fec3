// A command with what was read of it.

use command_parts::{Kind, Target};

// A part of the input: where it starts, and how many bytes it has.
#[derive(Clone, Copy)]
pub struct Name {
    pub start: u64,
    pub size: u64,
}

// What a CommandSubscribe says.
#[derive(Clone, Copy)]
pub struct Subscribe {
    pub consumer: u64,
    pub request: u64,
    pub kind: Kind,
    pub topic: Name,
    pub subscription: Name,
}

// What a CommandSeek says.
#[derive(Clone, Copy)]
pub struct Seek {
    pub consumer: u64,
    pub request: u64,
    pub target: Target,
}

// A command. The consumer comes first. Flow has the permits, Close the request; Ack and Redeliver have how many words their ids take in a
// lent list.
#[derive(Clone, Copy)]
pub enum Command {
    Subscribe(Subscribe),
    Flow(u64, u64),
    Ack(u64, u64),
    Seek(Seek),
    Redeliver(u64, u64),
    Close(u64, u64),
}
