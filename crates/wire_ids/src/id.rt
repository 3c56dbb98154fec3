// The test of one id, in one walk over its fields that keeps three numbers: how many ledgers, entries and words of its ack set
// there were.
ghost use Rattle.std.specs.Prelude.{◌≡◌};
ghost use Rattle.wire.specs.Ids.{group_of};
ghost use Rattle.wire_fields.specs.Found.{answered};
ghost use Rattle.wire_ids.specs.Parts.{one_more, parts_with, words_in};

use wire_fields::field::VARINT;
use wire_fields::fields::Fields;
use wire_fields::format::{ENTRY_ID, LEDGER_ID};

// The number of an ack set's words.
pub const ACK_SET: u64 = 5;

// The words of an id beside those of its ack set: ledger, entry, how many.
pub const HEAD_WORDS: usize = 3;

// One ledger and one entry is right, two is too many; so are 17 words.
const TOO_MANY: u64 = 2;

const TOO_MANY_WORDS: u64 = 17;

// The most words of an id's ack set.
const MOST_WORDS: u64 = 16;

// How many ledgers, entries and words there were. Each number stops where it is too many, and a field of another wire type
// takes it there, since `id_words` refuses both alike.
#[derive(Clone, Copy, Default)]
pub struct Parts {
    pub ledgers: u64,
    pub entries: u64,
    pub words: u64,
}

// One field more under a number.
#[tactic(auto, unfolding(crate::specs::Parts::one_more))]
fn one_more(n: u64, wire: u64, most: u64) -> u64
    ensures { result ≡ one_more most wire n }
{
    if wire != VARINT {
        return most;
    }
    n.saturating_add(1).min(most)
}

impl Parts {
    // One field more.
    #[tactic(auto, unfolding(crate::specs::Parts::parts_with, crate::specs::Parts::counted))]
    fn with(self, number: u64, wire: u64) -> Parts
        ensures { result ≡ parts_with number wire self }
    {
        match number {
            ACK_SET => Parts {
                words: one_more(self.words, wire, TOO_MANY_WORDS),
                ..self
            },
            LEDGER_ID => Parts {
                ledgers: one_more(self.ledgers, wire, TOO_MANY),
                ..self
            },
            ENTRY_ID => Parts {
                entries: one_more(self.entries, wire, TOO_MANY),
                ..self
            },
            _ => self,
        }
    }
}

// How many words the ack set of the id has whose message is `m`.
pub fn id_words(m: &[u8]) -> Option<u64>
    ensures { result ≡ answered words_in (group_of m.now) }
{
    let mut p = Parts::default();
    for field in Fields::of(m) {
        let f = field?;
        p = p.with(f.number, f.wire);
    }
    if p.ledgers != 1 {
        return None;
    }
    if p.entries != 1 {
        return None;
    }
    if MOST_WORDS < p.words {
        return None;
    }
    Some(p.words)
}
