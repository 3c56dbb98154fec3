// The topic of a dispatcher, its four numbers as one record, and its next slot and mark-delete by themselves. Each
// has one word.
ghost use Rattle.std.specs.Prelude.{◌≡◌};
ghost use Rattle.rules.specs.Dispatcher.{with_next};
ghost use Rattle.layout.specs.Fields.{dispatcher_now, dispatcher_changed};
ghost use Rattle.layout.specs.Placed.{DispatcherIn};
ghost use Rattle.dispatcher.specs.Values.{head_of, with_head};

use head::Head;
use store::offsets::{CURSOR_IN, MARK_DELETE_IN, NEXT_IN, TOTAL_IN, dispatcher_at};
use store::stretch::word;

// The topic of dispatcher `d`.
pub fn topic(store: &[u64], e: usize, d: usize) -> u64
    requires { DispatcherIn e store.now d }
    ensures { result ≡ (dispatcher_now store.now d).pair.topic }
{
    let at = dispatcher_at(e, d);
    store[at]
}

// The next slot of dispatcher `d`.
pub fn next(store: &[u64], e: usize, d: usize) -> usize
    requires { DispatcherIn e store.now d }
    ensures { result ≡ (dispatcher_now store.now d).next }
{
    let at = dispatcher_at(e, d);
    word(store, at + NEXT_IN)
}

// Dispatcher `d` gets another next slot.
pub fn set_next(store: &mut [u64], e: usize, d: usize, to: usize)
    requires { DispatcherIn e store.old d }
    ensures { store.new ≡ dispatcher_changed store.old d (λ x. with_next x to) }
{
    let at = dispatcher_at(e, d);
    store[at + NEXT_IN] = to as u64;
}

// The mark-delete of dispatcher `d`.
pub fn mark_delete(store: &[u64], e: usize, d: usize) -> usize
    requires { DispatcherIn e store.now d }
    ensures { result ≡ (dispatcher_now store.now d).mark_delete }
{
    let at = dispatcher_at(e, d);
    word(store, at + MARK_DELETE_IN)
}

// The four numbers of dispatcher `d`.
pub fn load_head(store: &[u64], e: usize, d: usize) -> Head
    requires { DispatcherIn e store.now d }
    ensures { result ≡ head_of (dispatcher_now store.now d) }
{
    let at = dispatcher_at(e, d);
    Head {
        next: word(store, at + NEXT_IN),
        cursor: word(store, at + CURSOR_IN),
        mark_delete: word(store, at + MARK_DELETE_IN),
        total_available_permits: store[at + TOTAL_IN],
    }
}

// Dispatcher `d` gets other four numbers.
pub fn save_head(store: &mut [u64], e: usize, d: usize, head: Head)
    requires { DispatcherIn e store.old d }
    ensures { store.new ≡ dispatcher_changed store.old d (λ x. with_head x head) }
{
    let at = dispatcher_at(e, d);
    store[at + NEXT_IN] = head.next as u64;
    store[at + CURSOR_IN] = head.cursor as u64;
    store[at + MARK_DELETE_IN] = head.mark_delete as u64;
    store[at + TOTAL_IN] = head.total_available_permits;
}
