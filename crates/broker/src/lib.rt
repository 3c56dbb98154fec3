// What makers' firmware calls, as a library: the crates above use these functions, and broker_c exports them to C. Each here takes
// the store as a slice of words, in C a pointer and a length, and answers value × 256 + number, the number 0 when done. None of
// them requires anything; the contracts are one equation for the answer and one for every lent slice. Kinds, targets and switches
// are numbers, as C hands them over; broker_c passes them on.
// Every call here but opening is made by `on_state`, which first checks that the words spell a state, and answers 1 where they do
// not; a row makes the same test itself, since its script is a slice of words too.
#![tactic(auto)]

pub mod commands;
pub mod rows;

ghost use Rattle.std.specs.Prelude.{◌≡◌, ◌/◌, length, true, false};
ghost use Rattle.std.specs.Fn.{FnOnceTakesAtMut, CalledAtMut};
ghost use Rattle.rules.specs.Calls.Call.{Append, Flow, Ack, Redeliver, Close, Push, Seek as Seek_call, Subscribe as Subscribe_call};
ghost use Rattle.layout.specs.Layout.{spells};
ghost use Rattle.layout.specs.Fields.{pair_of};
ghost use Rattle.layout.specs.Calls.{outcome, answer, after, list_after, open_answer, open_after};
ghost use Rattle.topic.specs.Ids.{message_of};
ghost use Rattle.rules.specs.Calls.{target_from, kind_from};
ghost use Rattle.refusal.specs.Words.{word_of};

use ack::ack;
use append::append;
use check_state::spells;
use close::close;
use command_parts::{Kind, Target};
use flow::flow;
use push::push;
use redeliver::redeliver;
use refusal::{Answer, Refusal, word_of};
use seek::command::Seek;
use seek::seek;
use subscribe::command::Subscribe;
use subscribe::subscribe;

// A call on words that spell a state; 1 where they spell none, and then nothing changes. The call is lent, so that what it leaves
// in a list that it captured is known.
fn on_state<F: FnMut(&mut [u64]) -> Answer>(store: &mut [u64], call: &mut F) -> u64
    requires { spells store.old ≡ true → FnOnceTakesAtMut F.FnOnce call.old store.old }
    ensures unspelt { spells store.old ≡ false → (result ≡ 1) × (store.new ≡ store.old) × (call.new ≡ call.old) }
    ensures spelt { spells store.old ≡ true → (told : _)
        × CalledAtMut F.FnMut call.old store.old told call.new store.new × (result ≡ word_of told) }
{
    if !spells(store) {
        return word_of(Err(Refusal::NoState));
    }
    word_of(call(store))
}

// Opens a store for `entries` entries per topic; the two switches are off at 0, else on.
pub fn broker_open(store: &mut [u64], entries: u64, leak: u64, noop: u64) -> u64
    ensures answer { result ≡ open_answer store.old entries leak noop }
    ensures words { store.new ≡ open_after store.old entries leak noop }
{
    word_of(store::open::open(store, entries, leak, noop))
}

// Appends a message of a batch size to a topic's ledger.
pub fn broker_append(
    store: &mut [u64],
    topic: u8,
    ledger: u64,
    entry: u64,
    handle: u64,
    batch: u64,
) -> u64
    ensures answer { result ≡ answer store.old (Append topic (message_of ledger entry handle batch)) }
    ensures words { store.new ≡ after store.old (Append topic (message_of ledger entry handle batch)) }
{
    on_state(
        store,
        &mut |store| append(store, topic, ledger, entry, handle, batch),
    )
}

// Makes a consumer of a topic's subscription, or replaces a live one: kind 0 is plain, else shared.
pub fn broker_subscribe(
    store: &mut [u64],
    consumer: u64,
    kind: u64,
    topic: u8,
    subscription: u8,
) -> u64
    ensures answer { result ≡ answer store.old (Subscribe_call consumer (kind_from kind) (pair_of topic subscription)) }
    ensures words { store.new ≡ after store.old (Subscribe_call consumer (kind_from kind) (pair_of topic subscription)) }
{
    let command = Subscribe {
        consumer,
        kind: Kind::from(kind),
        topic,
        subscription,
    };
    on_state(store, &mut |store| subscribe(store, command))
}

// Grants permits to a consumer. The value is its permits after, signed.
pub fn broker_flow(store: &mut [u64], consumer: u64, grant: u32) -> u64
    ensures answer { result ≡ answer store.old (Flow consumer grant) }
    ensures words { store.new ≡ after store.old (Flow consumer grant) }
{
    on_state(store, &mut |store| flow(store, consumer, grant))
}

// Acknowledges entries: a list of groups of ledger, entry, n and n words of its ack set. The value is
// mark-delete × 2, plus 1 if it moved; of a plain consumer 0.
pub fn broker_ack(store: &mut [u64], consumer: u64, list: &[u64]) -> u64
    ensures answer { result ≡ answer store.old (Ack consumer list.now) }
    ensures words { store.new ≡ after store.old (Ack consumer list.now) }
{
    on_state(store, &mut |store| ack(store, consumer, list))
}

// Moves a consumer's cursor: target 0 is the start, else the id. The value is the cursor.
pub fn broker_seek(store: &mut [u64], consumer: u64, target: u64, ledger: u64, entry: u64) -> u64
    ensures answer { result ≡ answer store.old (Seek_call consumer (target_from target ledger entry)) }
    ensures words { store.new ≡ after store.old (Seek_call consumer (target_from target ledger entry)) }
{
    let target = Target::from_words(target, ledger, entry);
    on_state(store, &mut |store| seek(store, Seek { consumer, target }))
}

// Hands entries back: a list of groups of ledger, entry, n and n words, which are ignored.
pub fn broker_redeliver(store: &mut [u64], consumer: u64, list: &[u64]) -> u64
    ensures answer { result ≡ answer store.old (Redeliver consumer list.now) }
    ensures words { store.new ≡ after store.old (Redeliver consumer list.now) }
{
    on_state(store, &mut |store| redeliver(store, consumer, list))
}

// Closes a consumer. The value is 1 if one was live, else 0.
pub fn broker_close(store: &mut [u64], consumer: u64) -> u64
    ensures answer { result ≡ answer store.old (Close consumer) }
    ensures words { store.new ≡ after store.old (Close consumer) }
{
    on_state(store, &mut |store| close(store, consumer))
}

// Hands out all that is due. The list is filled with records of 13 words; the value is how many. With 15
// the value is how many are due, and neither store nor list changes.
pub fn broker_push(store: &mut [u64], list: &mut [u64]) -> u64
    ensures answer { result ≡ answer store.old (Push (length list.old / 13)) }
    ensures words { store.new ≡ after store.old (Push (length list.old / 13)) }
    ensures records { list.new ≡ list_after list.old
        (outcome store.old (Push (length list.old / 13))) }
{
    on_state(store, &mut |store| push(store, list))
}
