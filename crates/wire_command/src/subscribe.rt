// CommandSubscribe. Its names are told by their places in the input, so that the place of the message is added.
ghost use Rattle.std.specs.Prelude.{◌≡◌, ◌+◌, ◌<◌, ◌≤◌, ◌^◌, length};
ghost use Rattle.wire.specs.Commands.{kind_of, subscribe_of};
ghost use Rattle.wire_fields.specs.Found.{answered};
ghost use Rattle.wire_command.specs.Found.{name_at, as_kind, as_command};

use super::command::{Command, Name, Subscribe};
use super::numbers::two_uint64;
use command_parts::Kind;
use wire_fields::field::{DELIMITED, VARINT, WIRE_TYPES};
use wire_fields::pick::pick;
use wire_fields::select::{Place, Width};

// Fields of CommandSubscribe.
const TOPIC: u64 = 1 * WIRE_TYPES + DELIMITED;

const SUBSCRIPTION: u64 = 2 * WIRE_TYPES + DELIMITED;

const SUB_TYPE: u64 = 3 * WIRE_TYPES + VARINT;

const CONSUMER_ID: u64 = 4;

const REQUEST_ID: u64 = 5;

// The sub type Shared; any other is plain.
const SHARED: u64 = 1;

// A name of a message that stands at a place of the input.
fn name(at: usize, part: Place) -> Name
    requires { (part.start ≤ part.next) × (at + part.start < 2 ^ 64) }
    ensures { result ≡ name_at at part.start part.next }
{
    Name {
        start: (at + part.start) as u64,
        size: (part.next - part.start) as u64,
    }
}

// A kind, from a sub type; no From<u64>, since in a word of a call 0 is plain, and here only 1 is shared.
#[tactic(auto, unfolding(wire::specs::Commands::kind_of, crate::specs::Found::as_kind))]
fn kind_of(sub_type: u64) -> Kind
    ensures { result ≡ as_kind (kind_of sub_type) }
{
    if sub_type == SHARED {
        return Kind::Shared;
    }
    Kind::Plain
}

// CommandSubscribe at a place of the input: topic 1, subscription 2, subType 3, consumer_id 4, request_id 5.
pub fn subscribe(m: &[u8], at: usize) -> Option<Command>
    requires { at + length m.now < 2 ^ 64 }
    ensures { result ≡ answered as_command (subscribe_of at m.now) }
{
    let [x, y, z] = pick(m, [TOPIC, SUBSCRIPTION, SUB_TYPE])?;
    let topic = x.part()?;
    let subscription = y.part()?;
    let sub_type = z.required(Width::Int32)?;
    let (consumer, request) = two_uint64(m, CONSUMER_ID, REQUEST_ID)?;
    Some(Command::Subscribe(Subscribe {
        consumer,
        request,
        kind: kind_of(sub_type),
        topic: name(at, topic),
        subscription: name(at, subscription),
    }))
}
