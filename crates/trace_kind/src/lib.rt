// The kinds of a call in a trace or a script, as `trace/specs/Calls.antt` numbers them, and the widths of its fields.
#![tactic(auto)]

ghost use Rattle.std.specs.Prelude.{◌≡◌};
ghost use Rattle.trace_kind.specs.Commands.{number_of, command_of};

use refusal::Refusal;

// The largest numbers of a field of 8 and of 32 bits.
pub const MOST_8: u64 = 255;

pub const MOST_32: u64 = 4_294_967_295;

// What a call asks for.
#[derive(Clone, Copy, Debug, PartialEq, Eq)]
pub enum Command {
    Append,
    Subscribe,
    Flow,
    Ack,
    Seek,
    Redeliver,
    Close,
    Push,
}

impl From<Command> for u64 {
    ghost from_gives = { λ command number. number ≡ number_of command };

    fn from(command: Command) -> u64 {
        match command {
            Command::Append => 1,
            Command::Subscribe => 2,
            Command::Flow => 3,
            Command::Ack => 4,
            Command::Seek => 5,
            Command::Redeliver => 6,
            Command::Close => 7,
            Command::Push => 8,
        }
    }
}

impl TryFrom<u64> for Command {
    type Error = Refusal;

    ghost try_from_gives = { λ number result. result ≡ command_of number };

    fn try_from(number: u64) -> Result<Command, Refusal> {
        match number {
            1 => Ok(Command::Append),
            2 => Ok(Command::Subscribe),
            3 => Ok(Command::Flow),
            4 => Ok(Command::Ack),
            5 => Ok(Command::Seek),
            6 => Ok(Command::Redeliver),
            7 => Ok(Command::Close),
            8 => Ok(Command::Push),
            _ => Err(Refusal::NoCall),
        }
    }
}
