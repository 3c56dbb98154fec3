// The positions that a dispatcher is to hand out again, front first. Each has one word.
ghost use Rattle.std.specs.Prelude.{◌≡◌, ◌++◌, ◌∷◌, [], ◌<◌, ◌≤◌, length, get_or, drop};
ghost use Rattle.rules.specs.Dispatcher.{with_places};
ghost use Rattle.layout.specs.Fields.{dispatcher_now, dispatcher_changed};
ghost use Rattle.layout.specs.Placed.{DispatcherIn};
ghost use Rattle.dispatcher.specs.Lists.{queue_list};

use store::counted::Counted;
use store::offsets::{QUEUE_IN, QUEUED_IN, dispatcher_at};
use store::stretch::word;

// The queued positions of dispatcher `d`, as a list in a store.
fn queue_list(e: usize, d: usize) -> Counted
    requires { (e ≤ 4096) × (d ≤ 8) }
    ensures { result ≡ queue_list e d }
{
    let at = dispatcher_at(e, d);
    Counted {
        count_at: at + QUEUE_IN,
        first: at + QUEUED_IN,
        width: 1,
    }
}

// The number of queued positions of dispatcher `d`.
pub fn queue_count(store: &[u64], e: usize, d: usize) -> usize
    requires { DispatcherIn e store.now d }
    ensures { result ≡ length (dispatcher_now store.now d).redelivery }
{
    queue_list(e, d).count(store)
}

// Queued position `j` of dispatcher `d`.
pub fn queued(store: &[u64], e: usize, d: usize, j: usize) -> usize
    requires { DispatcherIn e store.now d × (j < length (dispatcher_now store.now d).redelivery) }
    ensures { result ≡ get_or (dispatcher_now store.now d).redelivery j 0 }
{
    let at = dispatcher_at(e, d);
    word(store, at + QUEUED_IN + j)
}

// Position `k` goes to the end of the queue of dispatcher `d`.
pub fn append_queue(store: &mut [u64], e: usize, d: usize, k: usize)
    requires { DispatcherIn e store.old d × (length (dispatcher_now store.old d).redelivery < e) }
    ensures { store.new ≡ dispatcher_changed store.old d (λ x. with_places x (x.redelivery ++ k ∷ []) x.in_flight) }
{
    queue_list(e, d).push(store, [k as u64]);
}

// The first `n` positions leave the queue of dispatcher `d`; none, and no word is moved.
pub fn drop_queue(store: &mut [u64], e: usize, d: usize, n: usize)
    requires { DispatcherIn e store.old d × (n ≤ length (dispatcher_now store.old d).redelivery) }
    ensures { store.new ≡ dispatcher_changed store.old d (λ x. with_places x (drop n x.redelivery) x.in_flight) }
{
    if n == 0 {
        return;
    }
    queue_list(e, d).drop_first(store, n);
}
