// The first pass: every id is tested, and the words that they take in a list are counted.
ghost use Rattle.std.specs.Prelude.{◌≡◌, ◌+◌, ◌*◌, ◌≤◌, length};
ghost use Rattle.wire_fields.specs.Found.{answered};
ghost use Rattle.wire_ids.specs.Sizes.{size_of, ids_of, tally_id};

use super::id::id_words;
use wire_fields::field::DELIMITED;
use wire_fields::fields::Fields;

// The most ids of a list.
const MOST_IDS: u64 = 64;

// The words of an id beside those of its ack set, as a number of words.
pub const HEAD_WORDS: u64 = super::id::HEAD_WORDS as u64;

// How many ids may follow, and the words of those before.
#[derive(Clone, Copy)]
pub struct Tally {
    pub left: u64,
    pub words: u64,
}

// One id more from its own bytes, if its field is a part, the id is right and it is not one too many.
#[tactic(auto, unfolding(crate::specs::Sizes::tally_id))]
fn with_id(bytes: &[u8], wire: u64, t: Tally) -> Option<Tally>
    requires { t.words + 19 * t.left ≤ 1216 }
    ensures { result ≡ tally_id bytes.now wire t }
{
    if wire != DELIMITED {
        return None;
    }
    if t.left == 0 {
        return None;
    }
    let n = id_words(bytes)?;
    Some(Tally {
        left: t.left - 1,
        words: t.words + (HEAD_WORDS + n),
    })
}

// The words that the ids under a number of a message take.
pub fn list_size(m: &[u8], number: u64) -> Option<u64>
    ensures { result ≡ answered size_of (ids_of m.now number) }
{
    let mut t = Tally {
        left: MOST_IDS,
        words: 0,
    };
    for field in Fields::of(m) {
        let f = field?;
        if f.number != number {
            continue;
        }
        t = with_id(&m[f.start..f.next], f.wire, t)?;
    }
    Some(t.words)
}
