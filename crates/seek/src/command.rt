// The seek command.
use command_parts::Target;

// The command: a consumer and where it goes.
#[derive(Clone, Copy, Debug, PartialEq, Eq)]
pub struct Seek {
    pub consumer: u64,
    pub target: Target,
}
