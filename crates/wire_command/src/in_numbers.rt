// A command in numbers alone, as its eight words tell it: of a kind and of where a seek goes it has any numbers.
ghost use Rattle.std.specs.Prelude.{◌≡◌};
ghost use Rattle.wire_command.specs.InNumbers.{in_numbers, target_in_numbers};

use super::command;
use super::command::Name;

// What a CommandSubscribe says. Kind is 0 for plain and 1 for shared.
#[derive(Clone, Copy)]
pub struct Subscribe {
    pub consumer: u64,
    pub request: u64,
    pub kind: u64,
    pub topic: Name,
    pub subscription: Name,
}

// Where a seek goes: kind is 0 for the start, and 1 for an id, of this ledger and entry.
#[derive(Clone, Copy)]
pub struct Target {
    pub kind: u64,
    pub ledger: u64,
    pub entry: u64,
}

// What a CommandSeek says.
#[derive(Clone, Copy)]
pub struct Seek {
    pub consumer: u64,
    pub request: u64,
    pub target: Target,
}

// A command; its numbers are those of the command that was read.
#[derive(Clone, Copy)]
pub enum Command {
    Subscribe(Subscribe),
    Flow(u64, u64),
    Ack(u64, u64),
    Seek(Seek),
    Redeliver(u64, u64),
    Close(u64, u64),
}

impl From<command_parts::Target> for Target {
    ghost from_gives = { λ target numbers. numbers ≡ target_in_numbers target };

    #[inline(always)]
    fn from(target: command_parts::Target) -> Target {
        match target {
            command_parts::Target::Start => Target {
                kind: 0,
                ledger: 0,
                entry: 0,
            },
            command_parts::Target::Id(ledger, entry) => Target {
                kind: 1,
                ledger,
                entry,
            },
        }
    }
}

impl From<command::Command> for Command {
    ghost from_gives = { λ command numbers. numbers ≡ in_numbers command };

    #[inline(always)]
    #[tactic(auto, unfolding(crate::specs::InNumbers::in_numbers))]
    fn from(c: command::Command) -> Command {
        match c {
            command::Command::Subscribe(s) => Command::Subscribe(Subscribe {
                consumer: s.consumer,
                request: s.request,
                kind: u64::from(s.kind),
                topic: s.topic,
                subscription: s.subscription,
            }),
            command::Command::Flow(consumer, permits) => Command::Flow(consumer, permits),
            command::Command::Ack(consumer, size) => Command::Ack(consumer, size),
            command::Command::Seek(s) => Command::Seek(Seek {
                consumer: s.consumer,
                request: s.request,
                target: Target::from(s.target),
            }),
            command::Command::Redeliver(consumer, size) => Command::Redeliver(consumer, size),
            command::Command::Close(consumer, request) => Command::Close(consumer, request),
        }
    }
}
