// Opening a store: the words of a state with no topic, consumer or dispatcher.
ghost use Rattle.std.specs.Prelude.{◌≡◌, not, ◌≤◌, eqb, length};
ghost use Rattle.words.specs.Codec.{bit};
ghost use Rattle.layout.specs.Calls.{open_answer, open_after};
ghost use Rattle.refusal.specs.Words.{word_of};
ghost use Rattle.store.specs.Open.{opened_words};

use super::limits::MOST_ENTRIES;
use super::offsets::{ENTRIES_AT, LAYOUT_TAG, LEAK_AT, NEEDED_WORDS, NEEDED_WORDS_E, NOOP_AT};
use refusal::{Answer, Refusal};

// The words become those of a store just opened, or stay as they are: 2 if E is not 1 to 4,096,
// 3 if the store is too short.
pub fn open(store: &mut [u64], entries: u64, leak: u64, noop: u64) -> Answer
    ensures answer { word_of result ≡ open_answer store.old entries leak noop }
    ensures words { store.new ≡ open_after store.old entries leak noop }
{
    if !(1..=MOST_ENTRIES).contains(&entries) {
        return Err(Refusal::BadEntries);
    }
    let needed = NEEDED_WORDS + NEEDED_WORDS_E * (entries as usize);
    if store.len() < needed {
        return Err(Refusal::StoreShort);
    }
    open_words(store, entries, needed, switch(leak), switch(noop));
    Ok(0)
}

// The needed words become those of the empty state.
fn open_words(store: &mut [u64], entries: u64, needed: usize, leak: u64, noop: u64)
    requires { (4 ≤ needed) × (needed ≤ length store.old) }
    ensures { store.new ≡ opened_words store.old entries needed leak noop }
{
    store[..needed].fill(0);
    store[0] = LAYOUT_TAG;
    store[ENTRIES_AT] = entries;
    store[LEAK_AT] = leak;
    store[NOOP_AT] = noop;
}

// A switch as it is stored: 0 is off, anything else is on.
fn switch(word: u64) -> u64
    ensures { result ≡ bit (not (eqb word 0)) }
{
    u64::from(word != 0)
}
