// Whether words spell a state: the check that every call on a store but opening makes first. One pass over the
// needed words tests that they are spelt as the layout has them; then each record is tested against
// the rules on states. Nothing is required of the words.
#![tactic(auto)]

mod dispatcher_at;
mod stamps;
mod valid_consumers;
mod valid_dispatchers;
mod valid_marks;
mod valid_places;

ghost use Rattle.std.specs.Prelude.{◌≡◌};
ghost use Rattle.rules.specs.Valid.{valid};
ghost use Rattle.layout.specs.Layout.{decode};
ghost use Rattle.layout.specs.Layout as layout;
ghost use Rattle.layout.specs.Canon.{CanonStore};

use check_topics::topics_valid;
use check_words::canonical::body_canonical;
use check_words::header::header_right;
use store::offsets::{ENTRIES_AT, NEEDED_WORDS, NEEDED_WORDS_E};
use store::stretch::word;
use valid_consumers::consumers_valid;
use valid_dispatchers::dispatchers_valid;

// Whether the state that well-spelt words decode to obeys the rules.
fn state_valid(store: &[u64], e: usize) -> bool
    requires { CanonStore e store.now }
    ensures { result ≡ valid (decode store.now) }
{
    let Some(topics) = topics_valid(store, e) else {
        return false;
    };
    consumers_valid(store, e) && dispatchers_valid(&topics)
}

// Whether the words spell a state.
pub fn spells(store: &[u64]) -> bool
    ensures { result ≡ layout.spells store.now }
{
    if !header_right(store) {
        return false;
    }
    let e = word(store, ENTRIES_AT);
    NEEDED_WORDS + NEEDED_WORDS_E * e <= store.len()
        && body_canonical(store, e)
        && state_valid(store, e)
}
