// A dispatcher's marks and outside ids against the ledger of its topic, whose rows have four words: a
// mark for each entry, outside ids that ascend, none of them among the entries.
ghost use Rattle.std.specs.Prelude.{◌≡◌, true, ◌+◌, ◌*◌, ◌≤◌, length, get_or};
ghost use Rattle.bits.specs.Four.{words};
ghost use Rattle.check_rows.specs.Values.{pairs_ascend};
ghost use Rattle.check_state.specs.Marks.{mark_fits, joined, marks_right, absent, outside_right};
ghost use Rattle.check_state.specs.Dispatchers.{rest_right};
ghost use Rattle.layout.specs.Offsets.{marks_in, mark_in};

use super::dispatcher_at::DispatcherAt;
use bits::UnackedBits;
use check_rows::{PairRows, Rows};
use store::limits::MOST_REDELIVERIES;
use store::offsets::{
    BATCH_IN, BITS_1_IN, BITS_2_IN, BITS_3_IN, BITS_IN, ID_WORDS, MARK_IN, MARK_WORDS, MARKS_IN,
    MARKS_IN_E, MESSAGE_WORDS, OUTSIDE_IDS_IN, OUTSIDE_IN, REDELIVERY_COUNT_IN,
};
use store::stretch::word;

// Whether a count and bits suit an entry of a batch size. Most marks have no bits, and need no look at
// the size.
fn mark_fits(count: u64, bits: UnackedBits, batch: u64) -> bool
    ensures { result ≡ mark_fits count (words bits) batch }
{
    if MOST_REDELIVERIES < count {
        return false;
    }
    if bits.bits_empty() {
        return true;
    }
    if batch <= 1 {
        return false;
    }
    bits.bits_below(batch)
}

// The bits together with those of the mark that words begin with.
fn joined(bits: UnackedBits, mark: &[u64]) -> UnackedBits
    requires { 6 ≤ length mark.now }
    ensures { result ≡ joined bits mark.now 0 }
{
    UnackedBits {
        w0: bits.w0 | mark[BITS_IN],
        w1: bits.w1 | mark[BITS_1_IN],
        w2: bits.w2 | mark[BITS_2_IN],
        w3: bits.w3 | mark[BITS_3_IN],
    }
}

// Whether none of the ids, which ascend, stands in the ledger. Where the ledger's ids ascend too, as
// they mostly do, ids above the last entry are told by the first of them, and others are searched for
// by halves.
fn ids_absent(ids: &PairRows, ledger: &PairRows) -> bool
    requires width { (ids.now.rows.width ≡ 2) × (ledger.now.rows.width ≡ 4) }
    requires store { ids.now.rows.store.now ≡ ledger.now.rows.store.now }
    requires ids { pairs_ascend ids.now ≡ true }
    ensures { result ≡ absent ids.now.rows.store.now ids.now.rows.first ids.now.rows.count ledger.now.rows.first ledger.now.rows.count }
{
    if ids.rows.count == 0 {
        return true;
    }
    if ledger.ascend && ledger.is_past(ids.rows.word(0), ids.second(0)) {
        return true;
    }
    (0..ids.rows.count).all(|j| !ledger.has(ids.rows.word(j), ids.second(j)))
}

impl DispatcherAt<'_> {
    // Whether its marks are one for each entry, and each suits its entry. The marks of entries that follow
    // each other and have one batch size are or-ed together and tested once: no count or-ed is too great,
    // and no bit too high, unless one mark's is.
    fn marks_valid(&self) -> bool
        ensures { result ≡ marks_right self.now.store.now self.now.ledger.rows.first self.now.ledger.rows.count
            (self.now.at + mark_in self.now.e 0) (get_or self.now.store.now (self.now.at + marks_in self.now.e) 0) }
    {
        let ledger = self.ledger.rows.first;
        let n = word(self.store, self.at + (MARKS_IN + MARKS_IN_E * self.e));
        if n != self.ledger.rows.count {
            return false;
        }
        let first = self.at + (MARK_IN + MARKS_IN_E * self.e);
        let mut batch = 0;
        let mut count = 0;
        let mut bits = UnackedBits::default();
        for i in 0..n {
            let next = self.store[ledger + i * MESSAGE_WORDS + BATCH_IN];
            if next != batch {
                if !mark_fits(count, bits, batch) {
                    return false;
                }
                batch = next;
                count = 0;
                bits = UnackedBits::default();
            }
            let at = first + i * MARK_WORDS;
            count |= self.store[at + REDELIVERY_COUNT_IN];
            bits = joined(bits, &self.store[at..]);
        }
        mark_fits(count, bits, batch)
    }

    // Whether its outside ids ascend and none stands in the ledger.
    fn outside_valid(&self) -> bool
        ensures { result ≡ outside_right self.now.store.now self.now.at self.now.ledger.rows.first self.now.ledger.rows.count }
    {
        let rows = Rows {
            store: self.store,
            first: self.at + OUTSIDE_IDS_IN,
            width: ID_WORDS,
            count: word(self.store, self.at + OUTSIDE_IN),
        };
        let ids = PairRows {
            rows,
            ascend: false,
        };
        ids.pairs_ascend() && ids_absent(&ids, &self.ledger)
    }

    // What looks into the ledger: marks and outside ids.
    pub(crate) fn rest_valid(&self) -> bool
        ensures { result ≡ rest_right self.now.store.now self.now.e self.now.at self.now.ledger.rows.first self.now.ledger.rows.count }
    {
        self.marks_valid() && self.outside_valid()
    }
}
