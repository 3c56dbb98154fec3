// The command of each type. A message's bytes and its place in the input stay two parameters: `content` is given them so, only
// `subscribe` needs the place, and a struct of both would be made twice and taken apart in every arm for one fact.
ghost use Rattle.std.specs.Prelude.{◌≡◌, ◌+◌, ◌<◌, ◌^◌, length};
ghost use Rattle.wire.specs.Commands.{command_of};
ghost use Rattle.wire_fields.specs.Found.{answered};
ghost use Rattle.wire_command.specs.Found.{as_command};
ghost use Rattle.wire_command.specs.Types.{type_number};

use super::command::Command;
use super::command_type::CommandType;
use super::ids::{ack, redeliver};
use super::numbers::{close, flow};
use super::seek::seek;
use super::subscribe::subscribe;

// The command of a type, from its message, which stands at a place of the input.
#[tactic(auto, unfolding(wire::specs::Commands::command_of))]
pub(crate) fn content_of(m: &[u8], kind: CommandType, at: usize) -> Option<Command>
    requires { at + length m.now < 2 ^ 64 }
    ensures { result ≡ answered as_command (command_of (type_number kind) at m.now) }
{
    match kind {
        CommandType::Subscribe => subscribe(m, at),
        CommandType::Ack => ack(m),
        CommandType::Flow => flow(m),
        CommandType::CloseConsumer => close(m),
        CommandType::Redeliver => redeliver(m),
        CommandType::Seek => seek(m),
    }
}

// The command of the type with a number, from its message; a number that is no command's has none.
pub fn content(m: &[u8], kind: u64, at: usize) -> Option<Command>
    requires { at + length m.now < 2 ^ 64 }
    ensures { result ≡ answered as_command (command_of kind at m.now) }
{
    content_of(m, CommandType::try_from(kind).ok()?, at)
}
