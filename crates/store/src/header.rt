// What every operation reads of the header first: E.
ghost use Rattle.std.specs.Prelude.{◌≡◌, true};
ghost use Rattle.layout.specs.Layout.{decode, spells};

use super::offsets::ENTRIES_AT;
use super::stretch::word;

// E, the entries per topic.
pub fn entries(store: &[u64]) -> usize
    requires { spells store.now ≡ true }
    ensures { result ≡ (decode store.now).entries }
{
    word(store, ENTRIES_AT)
}
