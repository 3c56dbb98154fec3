// Messages of two numbers: a uint64 and a number of any width under any two numbers, CommandFlow and CommandCloseConsumer.
ghost use Rattle.std.specs.Prelude.{◌≡◌, ◌<◌, ◌^◌};
ghost use Rattle.wire.specs.Commands.{flow_of, close_of};
ghost use Rattle.wire.specs.Select.{uint64};
ghost use Rattle.wire_fields.specs.Found.{answered, as_is};
ghost use Rattle.wire_fields.specs.Selected.{fits};
ghost use Rattle.wire_command.specs.Found.{two_of, as_command};

use super::command::Command;
use wire_fields::field::{VARINT, WIRE_TYPES};
use wire_fields::pick::pick;
use wire_fields::select::Width;

// The consumer, in every message but CommandSubscribe.
pub const CONSUMER_ID: u64 = 1;

pub const CONSUMER: u64 = CONSUMER_ID * WIRE_TYPES + VARINT;

// The request, in CommandSeek and CommandCloseConsumer.
pub const REQUEST_ID: u64 = 2;

// The permits of CommandFlow.
const MESSAGE_PERMITS_ID: u64 = 2;

// A uint64 and a number of a width that have to be there.
pub fn two_numbers(m: &[u8], first: u64, second: u64, width: Width) -> Option<(u64, u64)>
    requires { (first < 2 ^ 32) × (second < 2 ^ 32) }
    ensures { result ≡ answered as_is (two_of (fits width) m.now first second) }
{
    let [x, y] = pick(m, [first * WIRE_TYPES, second * WIRE_TYPES])?;
    let u = x.required(Width::Uint64)?;
    let v = y.required(width)?;
    Some((u, v))
}

// Two uint64s that have to be there.
pub fn two_uint64(m: &[u8], first: u64, second: u64) -> Option<(u64, u64)>
    requires { (first < 2 ^ 32) × (second < 2 ^ 32) }
    ensures { result ≡ answered as_is (two_of uint64 m.now first second) }
{
    two_numbers(m, first, second, Width::Uint64)
}

// CommandFlow: consumer_id 1, messagePermits 2.
pub fn flow(m: &[u8]) -> Option<Command>
    ensures { result ≡ answered as_command (flow_of m.now) }
{
    let (consumer, permits) = two_numbers(m, CONSUMER_ID, MESSAGE_PERMITS_ID, Width::Uint32)?;
    Some(Command::Flow(consumer, permits))
}

// CommandCloseConsumer: consumer_id 1, request_id 2.
pub fn close(m: &[u8]) -> Option<Command>
    ensures { result ≡ answered as_command (close_of m.now) }
{
    let (consumer, request) = two_uint64(m, CONSUMER_ID, REQUEST_ID)?;
    Some(Command::Close(consumer, request))
}
