// A live consumer in a store, by its slot: what operations read and write of it.
ghost use Rattle.std.specs.Prelude.{◌≡◌, ◌<◌, length};
ghost use Rattle.rules.specs.State.{by_pair};
ghost use Rattle.rules.specs.Commands.{with_permits, with_reading};
ghost use Rattle.layout.specs.Records.{flag_of};
ghost use Rattle.layout.specs.Layout.{decode};
ghost use Rattle.layout.specs.Fields.{consumer_now, consumer_changed};
ghost use Rattle.layout.specs.Placed.{ConsumerIn};
ghost use Rattle.store.specs.Find.{slot};
ghost use Rattle.store.specs.Found.{found};
ghost use Rattle.command_parts.specs.Parts.{kind_of};
ghost use Rattle.dispatcher.specs.Pairs.{pair_in};
ghost use Rattle.consumer.specs.Live.{LiveShared};

use command_parts::Kind;
use dispatcher::table::{Pair, find_dispatcher};
use store::offsets::{CONSUMER_CURSOR_IN, CONSUMER_TOPIC_IN, KIND_IN, PERMITS_IN, consumer_at};
use store::stretch::word;

// The id of consumer `i`.
pub fn consumer_id(store: &[u64], e: usize, i: usize) -> u64
    requires { ConsumerIn e store.now i }
    ensures { result ≡ (consumer_now store.now i).id }
{
    let at = consumer_at(i);
    store[at]
}

// The permits of consumer `i`, in excess form.
pub fn permits(store: &[u64], e: usize, i: usize) -> u64
    requires { ConsumerIn e store.now i }
    ensures { result ≡ (consumer_now store.now i).permits }
{
    let at = consumer_at(i);
    store[at + PERMITS_IN]
}

// The topic of consumer `i`.
pub fn topic(store: &[u64], e: usize, i: usize) -> u64
    requires { ConsumerIn e store.now i }
    ensures { result ≡ (consumer_now store.now i).pair.topic }
{
    let at = consumer_at(i);
    store[at + CONSUMER_TOPIC_IN]
}

// The pair of consumer `i`.
pub fn pair(store: &[u64], e: usize, i: usize) -> Pair
    requires { ConsumerIn e store.now i }
    ensures { pair_in result ≡ (consumer_now store.now i).pair }
{
    Pair::at(store, consumer_at(i) + CONSUMER_TOPIC_IN)
}

// The kind of consumer `i`.
pub fn kind(store: &[u64], e: usize, i: usize) -> Kind
    requires { ConsumerIn e store.now i }
    ensures { kind_of result ≡ (consumer_now store.now i).kind }
{
    let at = consumer_at(i);
    Kind::from(store[at + KIND_IN])
}

// Whether consumer `i` is a shared one.
pub fn is_shared(store: &[u64], e: usize, i: usize) -> bool
    requires { ConsumerIn e store.now i }
    ensures { result ≡ flag_of (consumer_now store.now i).kind }
{
    kind(store, e, i) == Kind::Shared
}

// The cursor of consumer `i`.
pub fn cursor(store: &[u64], e: usize, i: usize) -> usize
    requires { ConsumerIn e store.now i }
    ensures { result ≡ (consumer_now store.now i).cursor }
{
    let at = consumer_at(i);
    word(store, at + CONSUMER_CURSOR_IN)
}

// The slot of the dispatcher of consumer `i`.
pub fn dispatcher_of(store: &[u64], e: usize, i: usize) -> Option<usize>
    requires { ConsumerIn e store.now i }
    ensures { result ≡ found by_pair (consumer_now store.now i).pair (decode store.now).dispatchers }
{
    find_dispatcher(store, e, pair(store, e, i))
}

// The slot of the dispatcher of the live shared consumer `i`, which has one.
pub fn shared_dispatcher(store: &[u64], e: usize, i: usize) -> usize
    requires { LiveShared e store.now i }
    ensures { (result ≡ slot by_pair (consumer_now store.now i).pair (decode store.now).dispatchers)
        × (result < length (decode store.now).dispatchers) }
{
    dispatcher_of(store, e, i).unwrap()
}

// Consumer `i` gets other permits.
pub fn set_permits(store: &mut [u64], e: usize, i: usize, permits: u64)
    requires { ConsumerIn e store.old i }
    ensures { store.new ≡ consumer_changed store.old i (λ x. with_permits x permits) }
{
    let at = consumer_at(i);
    store[at + PERMITS_IN] = permits;
}

// Consumer `i` gets another cursor.
pub fn set_cursor(store: &mut [u64], e: usize, i: usize, cursor: usize)
    requires { ConsumerIn e store.old i }
    ensures { store.new ≡ consumer_changed store.old i (λ x. with_reading x cursor x.nacked) }
{
    let at = consumer_at(i);
    store[at + CONSUMER_CURSOR_IN] = cursor as u64;
}
