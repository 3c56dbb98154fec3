// CommandSeek. An absent id is the start; of an id only ledger and entry are looked at.
ghost use Rattle.std.specs.Prelude.{◌≡◌};
ghost use Rattle.wire.specs.Commands.{seek_of};
ghost use Rattle.wire_fields.specs.Found.{answered};
ghost use Rattle.wire_command.specs.Found.{target_in, target_of_bytes, as_target, as_command};

use super::command::{Command, Seek};
use super::numbers::{CONSUMER_ID, REQUEST_ID, two_uint64};
use command_parts::Target;
use wire_fields::field::{DELIMITED, WIRE_TYPES};
use wire_fields::format::{ENTRY_ID, LEDGER_ID};
use wire_fields::pick::pick;

// The id of CommandSeek.
const MESSAGE_ID: u64 = 3 * WIRE_TYPES + DELIMITED;

// The target that an id's own bytes say: ledgerId 1 and entryId 2.
fn target_in(m: &[u8]) -> Option<Target>
    ensures { result ≡ answered as_target (target_in m.now) }
{
    let (ledger, entry) = two_uint64(m, LEDGER_ID, ENTRY_ID)?;
    Some(Target::Id(ledger, entry))
}

// The target of a seek.
fn target_of(m: &[u8]) -> Option<Target>
    ensures { result ≡ answered as_target (target_of_bytes m.now) }
{
    let [x] = pick(m, [MESSAGE_ID])?;
    if x.count == 0 {
        return Some(Target::Start);
    }
    let id = x.part()?;
    target_in(&m[id.start..id.next])
}

// CommandSeek: consumer_id 1, request_id 2, message_id 3.
pub fn seek(m: &[u8]) -> Option<Command>
    ensures { result ≡ answered as_command (seek_of m.now) }
{
    let (consumer, request) = two_uint64(m, CONSUMER_ID, REQUEST_ID)?;
    let target = target_of(m)?;
    Some(Command::Seek(Seek {
        consumer,
        request,
        target,
    }))
}
