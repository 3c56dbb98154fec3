// A new dispatcher at the end of the table, written word by word.
ghost use Rattle.std.specs.Prelude.{◌≡◌, ◌++◌, ◌∷◌, [], ◌≤◌, ◌<◌, length};
ghost use Rattle.rules.specs.State.{new_dispatcher, with_dispatchers};
ghost use Rattle.layout.specs.Layout.{decode};
ghost use Rattle.layout.specs.Canon.{CanonStore};
ghost use Rattle.layout.specs.Fields.{zero_dispatcher, state_changed};
ghost use Rattle.dispatcher.specs.Pairs.{pair_in};

use super::table::{Pair, dispatcher_count, dispatcher_list};
use store::offsets::{MARKS_IN, MARKS_IN_E, SUBSCRIPTION_IN, TOTAL_IN, dispatcher_at};
use store::permits::ZERO_PERMITS;

// The table, which has room, gains a blank dispatcher at its end: the words there are 0 already.
fn raise_dispatchers(store: &mut [u64], e: usize)
    requires { CanonStore e store.old × (length (decode store.old).dispatchers < 8) }
    ensures { store.new ≡ state_changed store.old (λ s. with_dispatchers s (s.dispatchers ++ zero_dispatcher ∷ [])) }
{
    dispatcher_list(e).raise(store);
}

// The table, which has room, gains a new dispatcher over a ledger of `entries`.
pub fn make_dispatcher(store: &mut [u64], e: usize, pair: Pair, entries: usize)
    requires { CanonStore e store.old × (length (decode store.old).dispatchers < 8) × (entries ≤ e) }
    ensures { store.new ≡ state_changed store.old
        (λ s. with_dispatchers s (s.dispatchers ++ new_dispatcher (pair_in pair) entries ∷ [])) }
{
    let n = dispatcher_count(store, e);
    raise_dispatchers(store, e);
    let at = dispatcher_at(e, n);
    store[at] = pair.topic;
    store[at + SUBSCRIPTION_IN] = pair.subscription;
    store[at + TOTAL_IN] = ZERO_PERMITS;
    store[at + MARKS_IN + MARKS_IN_E * e] = entries as u64;
}
