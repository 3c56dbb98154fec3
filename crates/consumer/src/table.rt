// The table of consumers, by ascending id: their number, the place of a new one, a gap opened for it, and one left out.
ghost use Rattle.std.specs.Prelude.{◌≡◌, ◌++◌, ◌∷◌, ◌≤◌, ◌<◌, ◌+◌, length, take, drop};
ghost use Rattle.rules.specs.State.{with_consumers};
ghost use Rattle.layout.specs.Layout.{decode};
ghost use Rattle.layout.specs.Canon.{CanonStore};
ghost use Rattle.layout.specs.Fields.{zero_consumer, state_changed};
ghost use Rattle.layout.specs.Placed.{ConsumerIn};
ghost use Rattle.store.specs.Find.{slot};
ghost use Rattle.operation_laws.specs.Place.{by_above};

use super::fields::consumer_id;
use search::first_row;
use store::counted::Counted;
use store::offsets::{CONSUMER_COUNT_AT, CONSUMER_WORDS, CONSUMERS_AT};

// The consumers, as a list in a store.
const CONSUMERS: Counted = Counted {
    count_at: CONSUMER_COUNT_AT,
    first: CONSUMERS_AT,
    width: CONSUMER_WORDS,
};

// The number of consumers.
pub fn consumer_count(store: &[u64], e: usize) -> usize
    requires { CanonStore e store.now }
    ensures { result ≡ length (decode store.now).consumers }
{
    CONSUMERS.count(store)
}

// How many consumers stand before the first whose id is above `id`.
pub fn place_of(store: &[u64], e: usize, id: u64) -> usize
    requires { CanonStore e store.now }
    ensures { result ≡ slot by_above id (decode store.now).consumers }
{
    let n = consumer_count(store, e);
    first_row(n, |i| id < consumer_id(store, e, i)).unwrap_or(n)
}

// The table of consumers, which has room, gains a blank one at `i`.
pub fn open_consumer(store: &mut [u64], e: usize, i: usize)
    requires { CanonStore e store.old × (i ≤ length (decode store.old).consumers) × (length (decode store.old).consumers < 32) }
    ensures { store.new ≡ state_changed store.old
        (λ s. with_consumers s (take i s.consumers ++ zero_consumer ∷ drop i s.consumers)) }
{
    CONSUMERS.insert_blank(store, i);
}

// Consumer `i` is left out; those after it keep their order.
pub fn remove_consumer(store: &mut [u64], e: usize, i: usize)
    requires { ConsumerIn e store.old i }
    ensures { store.new ≡ state_changed store.old
        (λ s. with_consumers s (take i s.consumers ++ drop (i + 1) s.consumers)) }
{
    CONSUMERS.remove(store, i);
}
