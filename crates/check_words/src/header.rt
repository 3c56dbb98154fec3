// The header of a store: whether its words are what they should be.
ghost use Rattle.std.specs.Prelude.{◌≡◌};
ghost use Rattle.layout.specs.Check.{header_right};

use store::limits::MOST_ENTRIES;
use store::offsets::{ENTRIES_AT, HEADER_RESERVED_AT, HEADER_WORDS, LAYOUT_TAG, LEAK_AT, NOOP_AT};
use store::stretch::is_blank;

// Whether the header is there: the tag, E in its range, two switches, the rest 0.
#[tactic(auto, unfolding(layout::specs::Check::header_right))]
pub fn header_right(store: &[u64]) -> bool
    ensures { result ≡ header_right store.now }
{
    HEADER_WORDS <= store.len()
        && store[0] == LAYOUT_TAG
        && 1 <= store[ENTRIES_AT]
        && store[ENTRIES_AT] <= MOST_ENTRIES
        && store[LEAK_AT] <= 1
        && store[NOOP_AT] <= 1
        && is_blank(store, HEADER_RESERVED_AT, HEADER_WORDS)
}
