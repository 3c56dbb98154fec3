// Seek: the cursor of a consumer goes to the start or to a message id, and its nacked entries are
// cleared. A shared consumer's dispatcher does not move.
#![tactic(auto)]

pub mod command;

ghost use Rattle.std.specs.Prelude.{◌≡◌, true};
ghost use Rattle.rules.specs.State.{ledger_of};
ghost use Rattle.rules.specs.Ledger.{seek_position};
ghost use Rattle.rules.specs.Commands.{target_position};
ghost use Rattle.layout.specs.Layout.{decode, spells};
ghost use Rattle.layout.specs.Calls.{answer, after};
ghost use Rattle.layout.specs.Canon.{CanonStore};
ghost use Rattle.layout.specs.Fields.{consumer_now};
ghost use Rattle.refusal.specs.Words.{word_of};
ghost use Rattle.consumer.specs.Live.{Live};
ghost use Rattle.command_parts.specs.Parts.{target_of};
ghost use Rattle.seek.specs.Targets.{seek_to, seek_call};

use command::Seek;
use command_parts::Target;
use consumer::fields::{set_cursor, topic};
use consumer::lookup::find_consumer;
use consumer::nacked::clear_nacked;
use message_id::Id;
use refusal::{Answer, Refusal};
use store::header::entries;
use topic::find::first_at_or_after;
use topic::table::existing_topic;

// 4 if not live. The value is the cursor.
pub fn seek(store: &mut [u64], command: Seek) -> Answer
    requires { spells store.old ≡ true }
    ensures answer { word_of result ≡ answer store.old (seek_call command) }
    ensures words { store.new ≡ after store.old (seek_call command) }
{
    let e = entries(store);
    let Some(i) = find_consumer(store, e, command.consumer) else {
        return Err(Refusal::NotLive);
    };
    seek_live(store, e, i, command.target)
}

// A seek of the live consumer `i`.
fn seek_live(store: &mut [u64], e: usize, i: usize, target: Target) -> Answer
    requires { Live e store.old i }
    ensures answer { word_of result ≡ answer store.old (seek_to (consumer_now store.old i).id target) }
    ensures words { store.new ≡ after store.old (seek_to (consumer_now store.old i).id target) }
{
    let number = topic(store, e, i);
    let cursor = target_position(store, e, number, target);
    set_cursor(store, e, i, cursor);
    clear_nacked(store, e, i);
    Ok(cursor as u64)
}

// The position of a target in the ledger of a topic.
fn target_position(store: &[u64], e: usize, topic: u64, target: Target) -> usize
    requires { CanonStore e store.now }
    ensures { result ≡ target_position (ledger_of (decode store.now) topic) (target_of target) }
{
    match target {
        Target::Start => 0,
        Target::Id(ledger, entry) => seek_position(store, e, topic, Id { ledger, entry }),
    }
}

// The first position in the ledger of a topic at or after an id, else its length: 0 where the topic does not exist.
fn seek_position(store: &[u64], e: usize, topic: u64, id: Id) -> usize
    requires { CanonStore e store.now }
    ensures { result ≡ seek_position id (ledger_of (decode store.now) topic) }
{
    let Some(t) = existing_topic(store, e, topic) else {
        return 0;
    };
    first_at_or_after(store, e, t, id)
}
