// A command read from the bytes of a BaseCommand into eight words and a lent list. All is tested before a word is written.
ghost use Rattle.std.specs.Prelude.{◌≡◌, ◌+◌, ◌<◌, ◌≤◌, ◌^◌, length};
ghost use Rattle.words.specs.Act.{lay};
ghost use Rattle.wire.specs.Commands.{command_of};
ghost use Rattle.wire.specs.Answers.{read_command, command_answer, command_after, ids_after};
ghost use Rattle.wire_fields.specs.Unread.{unread_word};
ghost use Rattle.wire_command.specs.Found.{ids_words, IdsReady, content_reading};
ghost use Rattle.wire_command.specs.Types.{type_number};

use super::command_type::CommandType;
use super::content::content_of;
use super::eight_words::write_words;
use super::ids::{ACK_IDS, REDELIVER_IDS};
use super::in_numbers::Command;
use wire_fields::base::read_base;
use wire_fields::unread::Unread;
use wire_ids::lay::lay_ids;

// The words that a lent list has at least.
const LIST_WORDS: usize = 1216;

// Lays the ids of an Ack or a Redeliver into a list; the other commands have none.
#[tactic(auto, unfolding(crate::specs::Found::ids_words, words::specs::Act::lay))]
fn lay_list(m: &[u8], kind: CommandType, list: &mut [u64])
    requires { IdsReady (type_number kind) m.now (length list.old) }
    ensures { list.new ≡ (lay (ids_words (type_number kind) m.now)).run 0 list.old }
{
    match kind {
        CommandType::Ack => lay_ids(m, ACK_IDS, list),
        CommandType::Redeliver => lay_ids(m, REDELIVER_IDS, list),
        CommandType::Subscribe => {}
        CommandType::Flow => {}
        CommandType::CloseConsumer => {}
        CommandType::Seek => {}
    }
}

// Reads the command of a type from its message, which stands at a place of the input.
fn read_content(
    m: &[u8],
    kind: CommandType,
    at: usize,
    list: &mut [u64],
    command: &mut [u64; 8],
) -> Result<CommandType, Unread>
    requires { (at + length m.now < 2 ^ 64) × (1216 ≤ length list.old) }
    ensures answer { unread_word type_number result ≡ command_answer (content_reading (command_of (type_number kind) at m.now)) }
    ensures words { command.new ≡ command_after command.old (content_reading (command_of (type_number kind) at m.now)) }
    ensures ids { list.new ≡ ids_after list.old (content_reading (command_of (type_number kind) at m.now)) }
{
    let c = content_of(m, kind, at).ok_or(Unread::Malformed)?;
    lay_list(m, kind, list);
    write_words(command, Command::from(c));
    Ok(kind)
}

// Reads a command and answers its type; or says why it is not read, and changes nothing.
pub fn read_command(
    bytes: &[u8],
    list: &mut [u64],
    command: &mut [u64; 8],
) -> Result<CommandType, Unread>
    ensures answer { unread_word type_number result ≡ command_answer (read_command list.old bytes.now) }
    ensures words { command.new ≡ command_after command.old (read_command list.old bytes.now) }
    ensures ids { list.new ≡ ids_after list.old (read_command list.old bytes.now) }
{
    if list.len() < LIST_WORDS {
        return Err(Unread::Malformed);
    }
    let base = read_base(bytes).ok_or(Unread::Malformed)?;
    let kind = CommandType::try_from(base.kind)?;
    let place = base.message.ok_or(Unread::Malformed)?;
    read_content(
        &bytes[place.start..place.next],
        kind,
        place.start,
        list,
        command,
    )
}
