// CommandAck and CommandRedeliverUnacknowledgedMessages: a consumer and ids. Here the ids are tested and their words counted;
// they are laid into the lent list once the whole command is known to be right.
ghost use Rattle.std.specs.Prelude.{◌≡◌};
ghost use Rattle.wire.specs.Commands.{ack_of, redeliver_of};
ghost use Rattle.wire_fields.specs.Found.{answered};
ghost use Rattle.wire_command.specs.Found.{as_command};

use super::command::Command;
use super::numbers::{CONSUMER, CONSUMER_ID, two_numbers};
use wire_fields::pick::pick;
use wire_fields::select::Width;
use wire_ids::size::list_size;

// The type of an ack, whose value is ignored.
const ACK_TYPE_ID: u64 = 2;

// The number of the ids in each.
pub const ACK_IDS: u64 = 3;

pub const REDELIVER_IDS: u64 = 2;

// CommandAck: consumer_id 1, ack_type 2, message_id 3.
pub fn ack(m: &[u8]) -> Option<Command>
    ensures { result ≡ answered as_command (ack_of m.now) }
{
    let (consumer, _ack_type) = two_numbers(m, CONSUMER_ID, ACK_TYPE_ID, Width::Int32)?;
    let size = list_size(m, ACK_IDS)?;
    Some(Command::Ack(consumer, size))
}

// CommandRedeliverUnacknowledgedMessages: consumer_id 1, message_ids 2.
pub fn redeliver(m: &[u8]) -> Option<Command>
    ensures { result ≡ answered as_command (redeliver_of m.now) }
{
    let [x] = pick(m, [CONSUMER])?;
    let consumer = x.required(Width::Uint64)?;
    let size = list_size(m, REDELIVER_IDS)?;
    Some(Command::Redeliver(consumer, size))
}
