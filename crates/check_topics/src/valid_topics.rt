// Topics that a store spells and that are valid, and their ledgers as rows.
ghost use Rattle.bits.specs.Bits.{AreWords};
ghost use Rattle.check_topics.specs.Orders.{Known};

use check_rows::{PairRows, Rows};
use store::limits::MOST_TOPICS;
use store::offsets::{MESSAGE_IN, MESSAGE_WORDS, MESSAGES_IN, topic_at};
use store::stretch::word;
use topic::table::existing_topic;

// Topics that are valid, and of each slot whether its ids are known to ascend: one beside each, as the words of a topic have no
// place for it. That the store is spelt as it should be is asked where it is used and is no ghost field: its definition goes by
// recursion (`All`), so that it has one proof at most, which a ghost field asks, would have to be shown by hand.
#[derive(Clone, Copy)]
pub struct ValidTopics<'a> {
    pub store: &'a [u64],
    pub e: usize,
    pub ascend: [bool; MOST_TOPICS],
    pub ghost words: { AreWords store.now },
    pub ghost known: { Known e store.now ascend },
}

impl<'a> ValidTopics<'a> {
    ghost use Rattle.layout.specs.Canon.{CanonStore};
    ghost use Rattle.check_topics.specs.Ledgers.{LedgerRows};

    // The ledger of a topic as rows; none where the topic does not exist.
    pub fn ledger(&self, topic: u64) -> PairRows<'a>
        requires { CanonStore self.now.e self.now.store.now }
        ensures { LedgerRows self.now.store.now topic result }
    {
        let Some(t) = existing_topic(self.store, self.e, topic) else {
            let rows = Rows {
                store: self.store,
                first: 0,
                width: MESSAGE_WORDS,
                count: 0,
            };
            return PairRows {
                rows,
                ascend: false,
            };
        };
        let at = topic_at(self.e, t);
        let rows = Rows {
            store: self.store,
            first: at + MESSAGE_IN,
            width: MESSAGE_WORDS,
            count: word(self.store, at + MESSAGES_IN),
        };
        PairRows {
            rows,
            ascend: self.ascend[t],
        }
    }
}
