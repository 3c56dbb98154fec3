// The subscribe command.
use command_parts::Kind;

// The command: a consumer, its kind, and the pair it subscribes to.
#[derive(Clone, Copy, Debug, PartialEq, Eq)]
pub struct Subscribe {
    pub consumer: u64,
    pub kind: Kind,
    pub topic: u8,
    pub subscription: u8,
}
