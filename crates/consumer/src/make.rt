// A consumer as a subscribe makes it, written word by word.
ghost use Rattle.std.specs.Prelude.{◌≡◌};
ghost use Rattle.rules.specs.Commands.{new_consumer};
ghost use Rattle.layout.specs.Fields.{put_consumer_at};
ghost use Rattle.layout.specs.Placed.{ConsumerIn};
ghost use Rattle.dispatcher.specs.Pairs.{pair_in};
ghost use Rattle.command_parts.specs.Parts.{kind_of};

use super::nacked::clear_nacked;
use command_parts::Kind;
use dispatcher::table::Pair;
use store::offsets::{
    CONSUMER_CURSOR_IN, CONSUMER_SUBSCRIPTION_IN, CONSUMER_TOPIC_IN, KIND_IN, PERMITS_IN,
    consumer_at,
};
use store::permits::ZERO_PERMITS;

// Consumer `i` becomes a new one.
pub fn make_consumer(store: &mut [u64], e: usize, i: usize, id: u64, kind: Kind, pair: Pair)
    requires { ConsumerIn e store.old i }
    ensures { store.new ≡ put_consumer_at store.old i (new_consumer id (kind_of kind) (pair_in pair)) }
{
    let word = u64::from(kind);
    clear_nacked(store, e, i);
    let at = consumer_at(i);
    store[at] = id;
    store[at + CONSUMER_TOPIC_IN] = pair.topic;
    store[at + CONSUMER_SUBSCRIPTION_IN] = pair.subscription;
    store[at + KIND_IN] = word;
    store[at + PERMITS_IN] = ZERO_PERMITS;
    store[at + CONSUMER_CURSOR_IN] = 0;
}
