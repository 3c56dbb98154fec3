// A dispatcher while it is served: what is looked up once, and what its turns move.
ghost use Rattle.std.specs.Prelude.{◌≡◌};
ghost use Rattle.layout.specs.Layout.{decode};
ghost use Rattle.layout.specs.Placed.{DispatcherIn};
ghost use Rattle.push_turn.specs.Turns.{served_in, numbers_from};

use dispatcher::numbers::topic;
use head::Head;
use topic::table::{find_topic, ledger_length};

// Where it is: E, its slot, the slot of its topic, and how many entries its ledger has. The slot of the topic is used
// only where the ledger has entries, and then the topic is there. What holds of these places is a fact of them and of
// the words that they were found in, so it is no invariant of the struct alone. So is what its turns know of the ring, which is
// lent beside it: an array of the caller's.
#[derive(Clone, Copy)]
pub struct Served {
    pub e: usize,
    pub d: usize,
    pub t: usize,
    pub n: usize,
}

// What its turns move beside the consumers' permits: its four numbers, and how many were taken off its queue. Of the four
// mark-delete stays.
#[derive(Clone, Copy)]
pub struct Numbers {
    pub head: Head,
    pub taken: usize,
}

// The numbers before the first turn: those of the dispatcher, and nothing is taken.
impl From<Head> for Numbers {
    ghost from_gives = { λ head numbers. numbers ≡ numbers_from head };

    #[tactic(auto, unfolding(crate::specs::Turns::numbers_from))]
    fn from(head: Head) -> Numbers {
        Numbers { head, taken: 0 }
    }
}

// Dispatcher `d`, to be served.
pub fn find_served(store: &[u64], e: usize, d: usize) -> Served
    requires { DispatcherIn e store.now d }
    ensures { result ≡ served_in (decode store.now) e d }
{
    let number = topic(store, e, d);
    Served {
        e,
        d,
        t: find_topic(store, e, number),
        n: ledger_length(store, e, number),
    }
}
