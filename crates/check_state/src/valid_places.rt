// The places of a dispatcher: only ring ids hold entries, and a position is in flight or queued at
// most once and below the cursor.
ghost use Rattle.std.specs.Prelude.{◌≡◌, ◌+◌, ◌≤◌, ◌<◌, is_some, IfSome, get_or};
ghost use Rattle.check_rows.specs.Values.{word_among};
ghost use Rattle.check_state.specs.Places.{Unused, PlacedRows, FlownRows, Tested, places_right};

use super::dispatcher_at::DispatcherAt;
use super::stamps::Stamps;
use check_rows::{PairRows, Rows};
use store::offsets::{
    CURSOR_IN, FLIGHT_IN, HELD_IN, HELD_WORDS, QUEUE_IN, QUEUED_IN, RING_IDS_IN, RING_IN,
};
use store::stretch::word;

// The slot of a holder among the ring's ids. `guess` is looked at first.
fn holder_slot(ring: &Rows, guess: usize, id: u64) -> Option<usize>
    ensures there { is_some result ≡ word_among ring.now ring.now.count id }
    ensures inside { IfSome result (λ slot. slot < ring.now.count) }
{
    if guess < ring.count && ring.word(guess) == id {
        return Some(guess);
    }
    ring.row_of(id)
}

// Whether the entries in flight, a holder and a position each, are held by ring ids, and their positions
// are fresh; each is stamped. Holders come in the order of the ring, so each is looked for first in the
// slot after the last one.
fn flight_fresh(ring: &Rows, flight: &PairRows, cursor: usize, stamps: &mut Stamps) -> bool
    requires widths { (ring.now.width ≡ 1) × (flight.now.rows.width ≡ 2) }
    requires store { flight.now.rows.store.now ≡ ring.now.store.now }
    requires cursor { cursor ≤ 4096 }
    ensures { FlownRows ring.now flight.now cursor stamps.old stamps.new result }
{
    let mut guess = 0;
    for i in 0..flight.rows.count {
        let Some(slot) = holder_slot(ring, guess, flight.rows.word(i)) else {
            return false;
        };
        guess = slot + 1;
        if !stamps.place(flight.second(i) as usize, cursor) {
            return false;
        }
    }
    true
}

// Whether positions are fresh; each is stamped.
fn places_fresh(places: &Rows, cursor: usize, stamps: &mut Stamps) -> bool
    requires { cursor ≤ 4096 }
    ensures { PlacedRows places.now cursor stamps.old stamps.new result }
{
    for i in 0..places.count {
        if !stamps.place(places.word(i) as usize, cursor) {
            return false;
        }
    }
    true
}

impl DispatcherAt<'_> {
    // Its places, told apart by a stamp that none carries yet.
    pub(crate) fn places_valid(&self, stamps: &mut Stamps) -> bool
        requires cursor { get_or self.now.store.now (self.now.at + 3) 0 ≤ 4096 }
        requires unused { Unused stamps.old }
        ensures { Tested stamps.old stamps.new result (places_right self.now.store.now self.now.e self.now.at) }
    {
        let cursor = word(self.store, self.at + CURSOR_IN);
        let ring = Rows {
            store: self.store,
            first: self.at + RING_IDS_IN,
            width: 1,
            count: word(self.store, self.at + RING_IN),
        };
        let held = Rows {
            store: self.store,
            first: self.at + (HELD_IN + self.e),
            width: HELD_WORDS,
            count: word(self.store, self.at + (FLIGHT_IN + self.e)),
        };
        let flight = PairRows {
            rows: held,
            ascend: false,
        };
        if !flight_fresh(&ring, &flight, cursor, stamps) {
            return false;
        }
        let queue = Rows {
            store: self.store,
            first: self.at + QUEUED_IN,
            width: 1,
            count: word(self.store, self.at + QUEUE_IN),
        };
        places_fresh(&queue, cursor, stamps)
    }
}
