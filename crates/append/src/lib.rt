// Append: a message joins the ledger of a topic, which it makes if it is the first.
#![tactic(auto)]

mod entry;

ghost use Rattle.std.specs.Prelude.{◌≡◌, true, ◌<◌};
ghost use Rattle.rules.specs.State.{by_number};
ghost use Rattle.rules.specs.Calls.Call.{Append};
ghost use Rattle.layout.specs.Layout.{decode, spells};
ghost use Rattle.layout.specs.Calls.{answer, after};
ghost use Rattle.layout.specs.Canon.{CanonStore};
ghost use Rattle.layout.specs.Fields.{state_changed};
ghost use Rattle.refusal.specs.Words.{word_of, refusal_or_0};
ghost use Rattle.store.specs.Find.{slot};
ghost use Rattle.topic.specs.Ids.{id_of, message_of};
ghost use Rattle.append.specs.Appends.{append_refusal, with_topic, append_state, AppendsTo};

use entry::new_entries;
use message_id::Id;
use refusal::{Answer, Refusal};
use store::header::entries;
use store::limits::{MOST_BATCH, MOST_TOPICS};
use topic::append::append_message;
use topic::find::position_of;
use topic::message::StoredMessage;
use topic::table::{find_topic, message_count, raise_topics, set_number, topic_count};

// 8 if the batch size is not 0 to 256. 7 if the topic holds that id. 5 if the topic is new and 8
// exist. 6 if it has E entries.
pub fn append(
    store: &mut [u64],
    topic: u8,
    ledger: u64,
    entry: u64,
    handle: u64,
    batch: u64,
) -> Answer
    requires { spells store.old ≡ true }
    ensures answer { word_of result ≡ answer store.old (Append topic (message_of ledger entry handle batch)) }
    ensures words { store.new ≡ after store.old (Append topic (message_of ledger entry handle batch)) }
{
    if MOST_BATCH < batch {
        return Err(Refusal::BadBatch);
    }
    let e = entries(store);
    let t = find_topic(store, e, topic as u64);
    admit(store, e, t, Id { ledger, entry })?;
    let message = StoredMessage {
        ledger,
        entry,
        handle,
        batch_size: batch,
    };
    append_entry(store, e, t, topic as u64, message);
    Ok(0)
}

// Whether the topic at slot `t` takes an append.
fn admit(store: &[u64], e: usize, t: usize, id: Id) -> Result<(), Refusal>
    requires { CanonStore e store.now }
    ensures { refusal_or_0 result ≡ append_refusal (decode store.now) t id }
{
    let topics = topic_count(store, e);
    if topics <= t {
        return if MOST_TOPICS <= topics {
            Err(Refusal::TopicsFull)
        } else {
            Ok(())
        };
    }
    if position_of(store, e, t, id).is_some() {
        return Err(Refusal::IdTaken);
    }
    if e <= message_count(store, e, t) {
        Err(Refusal::EntriesFull)
    } else {
        Ok(())
    }
}

// An append that no refusal applies to, to the topic at slot `t`.
fn append_entry(store: &mut [u64], e: usize, t: usize, topic: u64, message: StoredMessage)
    requires { AppendsTo e store.old t topic (id_of message.ledger message.entry) }
    ensures { store.new ≡ state_changed store.old
        (λ s. append_state s topic (message_of message.ledger message.entry message.handle message.batch_size)) }
{
    let id = Id {
        ledger: message.ledger,
        entry: message.entry,
    };
    make_topic(store, e, t, topic);
    append_message(store, e, t, message);
    new_entries(store, e, topic, id);
}

// The topic `topic`, whose slot is `t`, is made if it does not exist.
fn make_topic(store: &mut [u64], e: usize, t: usize, topic: u64)
    requires { CanonStore e store.old × (t ≡ slot by_number topic (decode store.old).topics) × (t < 8) }
    ensures { store.new ≡ state_changed store.old (λ s. with_topic s t topic) }
{
    if topic_count(store, e) <= t {
        raise_topics(store, e);
        set_number(store, e, t, topic);
    }
}
