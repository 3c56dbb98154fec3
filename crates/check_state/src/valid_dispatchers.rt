// Whether the dispatchers of a store are valid: pairs distinct, and each dispatcher's head, ring,
// places, marks and outside ids right. The store is spelt as it should be, so that every count is
// within its list's room.
ghost use Rattle.std.specs.Prelude.{◌≡◌, ◌+◌};
ghost use Rattle.rules.specs.Table.{all};
ghost use Rattle.rules.specs.Valid.{valid_dispatcher};
ghost use Rattle.layout.specs.Layout.{decode};
ghost use Rattle.layout.specs.Canon.{CanonStore};
ghost use Rattle.layout.specs.Fields.{dispatcher_now};
ghost use Rattle.layout.specs.Placed.{DispatcherIn};
ghost use Rattle.check_state.specs.Places.{Unused, Tested, Counted};
ghost use Rattle.check_state.specs.Dispatchers.{head_right, next_right, ring_right, front_right, dispatchers_right};

use super::dispatcher_at::DispatcherAt;
use super::stamps::Stamps;
use check_rows::{PairRows, Rows};
use check_topics::valid_topics::ValidTopics;
use store::limits::{MOST_ENTRIES, MOST_NUMBER};
use store::offsets::{
    CURSOR_IN, DISPATCHER_COUNT_AT, DISPATCHER_WORDS, DISPATCHER_WORDS_E, DISPATCHERS_AT_E,
    MARK_DELETE_IN, NEXT_IN, RING_IDS_IN, RING_IN, SUBSCRIPTION_IN, TOTAL_IN, dispatcher_at,
};
use store::permits::{LEAST_TOTAL, MOST_TOTAL};
use store::stretch::word;

// Whether next is a slot of a ring of n, or 0 where the ring is empty.
fn next_valid(next: usize, n: usize) -> bool
    ensures { result ≡ next_right next n }
{
    if n == 0 {
        return next == 0;
    }
    next < n
}

impl DispatcherAt<'_> {
    // Its head.
    #[tactic(auto, unfolding(crate::specs::Dispatchers::head_right, rules::specs::Valid::is_byte))]
    fn head_valid(&self) -> bool
        ensures { result ≡ head_right self.now.store.now self.now.at self.now.ledger.rows.count }
    {
        let at = self.at;
        let entries = self.ledger.rows.count;
        self.store[at] <= MOST_NUMBER
            && self.store[at + SUBSCRIPTION_IN] <= MOST_NUMBER
            && LEAST_TOTAL <= self.store[at + TOTAL_IN]
            && self.store[at + TOTAL_IN] <= MOST_TOTAL
            && word(self.store, at + CURSOR_IN) <= entries
            && word(self.store, at + MARK_DELETE_IN) <= entries
    }

    // Its ring.
    fn ring_valid(&self) -> bool
        ensures { result ≡ ring_right self.now.store.now self.now.at }
    {
        let ring = Rows {
            store: self.store,
            first: self.at + RING_IDS_IN,
            width: 1,
            count: word(self.store, self.at + RING_IN),
        };
        ring.distinct() && next_valid(word(self.store, self.at + NEXT_IN), ring.count)
    }

    // What does not look into the ledger: head, ring, places.
    fn front_valid(&self, stamps: &mut Stamps) -> bool
        requires { Unused stamps.old }
        ensures { Tested stamps.old stamps.new result (front_right self.now.store.now self.now.e self.now.at self.now.ledger.rows.count) }
    {
        self.head_valid() && self.ring_valid() && self.places_valid(stamps)
    }
}

// Dispatcher d.
fn dispatcher_valid(topics: &ValidTopics, d: usize, stamps: &mut Stamps) -> bool
    requires there { DispatcherIn topics.now.e topics.now.store.now d }
    requires stamp { stamps.old.stamp ≡ d }
    ensures { Counted d stamps.new result (valid_dispatcher (decode topics.now.store.now) (dispatcher_now topics.now.store.now d)) }
{
    let at = dispatcher_at(topics.e, d);
    let dispatcher = DispatcherAt {
        store: topics.store,
        e: topics.e,
        at,
        ledger: topics.ledger(topics.store[at]),
    };
    stamps.advance();
    dispatcher.front_valid(stamps) && dispatcher.rest_valid()
}

// Each of the dispatchers.
fn each_valid(topics: &ValidTopics) -> bool
    requires { CanonStore topics.now.e topics.now.store.now }
    ensures { result ≡ all (valid_dispatcher (decode topics.now.store.now)) (decode topics.now.store.now).dispatchers }
{
    let mut stamps = Stamps {
        list: [0; MOST_ENTRIES as usize],
        stamp: 0,
    };
    let n = word(
        topics.store,
        DISPATCHER_COUNT_AT + DISPATCHERS_AT_E * topics.e,
    );
    for d in 0..n {
        if !dispatcher_valid(topics, d, &mut stamps) {
            return false;
        }
    }
    true
}

// The dispatchers of a store whose topics are valid.
pub(crate) fn dispatchers_valid(topics: &ValidTopics) -> bool
    requires { CanonStore topics.now.e topics.now.store.now }
    ensures { result ≡ dispatchers_right (decode topics.now.store.now) }
{
    let e = topics.e;
    let rows = Rows {
        store: topics.store,
        first: dispatcher_at(e, 0),
        width: DISPATCHER_WORDS + DISPATCHER_WORDS_E * e,
        count: word(topics.store, DISPATCHER_COUNT_AT + DISPATCHERS_AT_E * e),
    };
    let pairs = PairRows {
        rows,
        ascend: false,
    };
    pairs.pairs_distinct() && each_valid(topics)
}
