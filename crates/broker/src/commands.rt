// The calls for commands as bytes: what came off the wire is read, what goes onto it is written. They take no store. What each
// lends besides slices has a fixed number of words and is a plain pointer in C.
ghost use Rattle.std.specs.Prelude.{◌≡◌, ◌<◌, ◌^◌, IfOk};
ghost use Rattle.wire.specs.Message.{message};
ghost use Rattle.wire.specs.Answers.{read_command, command_answer, command_after, ids_after};
ghost use Rattle.wire.specs.Answers.{message_answer, record_after, write_message, bytes_answer, buffer_after};
ghost use Rattle.wire_fields.specs.Found.{as_is};
ghost use Rattle.wire_fields.specs.Unread.{unread_word};

use refusal::NUMBERS;
use wire_command::read::read_command;
use wire_fields::unread::Unread;
use wire_message::message::read_message;
use wire_write::message::write_message;

// What was read or written as one word: its number times 256, or why there is none.
fn word_of(told: Result<u64, Unread>) -> u64
    requires { IfOk told (λ number. number < 2 ^ 56) }
    ensures { result ≡ unread_word as_is told }
{
    match told {
        Ok(number) => number * NUMBERS,
        Err(why) => u64::from(why),
    }
}

// Reads a Subscribe, Flow, Ack, Seek, Redeliver or Close into the command's words, with the ids of an Ack or a Redeliver in the
// list. The value is the type.
pub fn broker_read_command(bytes: &[u8], list: &mut [u64], command: &mut [u64; 8]) -> u64
    ensures answer { result ≡ command_answer (read_command list.old bytes.now) }
    ensures words { command.new ≡ command_after command.old (read_command list.old bytes.now) }
    ensures ids { list.new ≡ ids_after list.old (read_command list.old bytes.now) }
{
    word_of(read_command(bytes, list, command).map(u64::from))
}

// Reads a Message into a record as push writes it.
pub fn broker_read_message(bytes: &[u8], record: &mut [u64; 13]) -> u64
    ensures answer { result ≡ message_answer (message bytes.now) }
    ensures words { «record».new ≡ record_after «record».old (message bytes.now) }
{
    word_of(read_message(bytes, record).map(|_| 0))
}

// Writes a record of push as the bytes of a Message. The value is how many.
pub fn broker_write_message(record: &[u64; 13], buffer: &mut [u8]) -> u64
    ensures answer { result ≡ bytes_answer (write_message buffer.old «record».now) }
    ensures bytes { buffer.new ≡ buffer_after buffer.old (write_message buffer.old «record».now) }
{
    word_of(write_message(record, buffer).map(|size| size as u64))
}
