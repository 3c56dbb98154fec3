// How many entries wait, whatever the permits: a push dispatches no more of them. No turn is made to
// know it, and of a ledger only its length is read.
ghost use Rattle.std.specs.Prelude.{◌≡◌};
ghost use Rattle.layout.specs.Layout.{decode};
ghost use Rattle.layout.specs.Canon.{CanonStore};
ghost use Rattle.layout.specs.Fields.{dispatcher_now};
ghost use Rattle.layout.specs.Placed.{DispatcherIn};
ghost use Rattle.push.specs.Bound.{waiting_at, waiting_shared, waiting_plain, most_due};

use consumer::table::consumer_count;
use dispatcher::numbers::{load_head, topic};
use dispatcher::queue::queue_count;
use dispatcher::table::dispatcher_count;
use push_plain::due::waiting_for;
use push_plain::sum::added_up;
use topic::table::ledger_length;

// How many entries wait for dispatcher `d`.
fn waiting_at(store: &[u64], e: usize, d: usize) -> usize
    requires { DispatcherIn e store.now d }
    ensures { result ≡ waiting_at (decode store.now) (dispatcher_now store.now d) }
{
    let n = ledger_length(store, e, topic(store, e, d));
    let head = load_head(store, e, d);
    queue_count(store, e, d) + n.saturating_sub(head.cursor)
}

// How many entries wait for the dispatchers. This and the next are one call of `added_up` each.
fn waiting_shared(store: &[u64], e: usize) -> usize
    requires { CanonStore e store.now }
    ensures { result ≡ waiting_shared (decode store.now) }
{
    added_up(dispatcher_count(store, e), |d| waiting_at(store, e, d))
}

// How many entries wait for the plain consumers.
fn waiting_plain(store: &[u64], e: usize) -> usize
    requires { CanonStore e store.now }
    ensures { result ≡ waiting_plain (decode store.now) }
{
    added_up(consumer_count(store, e), |i| waiting_for(store, e, i))
}

// How many entries wait: a list with room for as many records has room for all that a push dispatches.
pub(crate) fn most_due(store: &[u64], e: usize) -> usize
    requires { CanonStore e store.now }
    ensures { result ≡ most_due (decode store.now) }
{
    waiting_shared(store, e) + waiting_plain(store, e)
}
