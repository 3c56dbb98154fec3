// The types of BaseCommands that are read, and their numbers.
ghost use Rattle.std.specs.Prelude.{◌≡◌};
ghost use Rattle.wire_command.specs.Types.{type_number, type_from};

use wire_fields::unread::Unread;

// A type of BaseCommand that is read.
#[derive(Clone, Copy, Debug, PartialEq, Eq)]
pub enum CommandType {
    Subscribe,
    Ack,
    Flow,
    CloseConsumer,
    Redeliver,
    Seek,
}

impl From<CommandType> for u64 {
    ghost from_gives = { λ kind number. number ≡ type_number kind };

    fn from(kind: CommandType) -> u64 {
        match kind {
            CommandType::Subscribe => 4,
            CommandType::Ack => 10,
            CommandType::Flow => 11,
            CommandType::CloseConsumer => 16,
            CommandType::Redeliver => 20,
            CommandType::Seek => 28,
        }
    }
}

impl TryFrom<u64> for CommandType {
    type Error = Unread;

    ghost try_from_gives = { λ number kind. kind ≡ type_from number };

    #[tactic(auto, unfolding(crate::specs::Types::type_from))]
    fn try_from(number: u64) -> Result<CommandType, Unread> {
        match number {
            4 => Ok(CommandType::Subscribe),
            10 => Ok(CommandType::Ack),
            11 => Ok(CommandType::Flow),
            16 => Ok(CommandType::CloseConsumer),
            20 => Ok(CommandType::Redeliver),
            28 => Ok(CommandType::Seek),
            _ => Err(Unread::OtherType),
        }
    }
}
