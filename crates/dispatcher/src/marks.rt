// The marks of a dispatcher, one for each entry of its topic.
ghost use Rattle.std.specs.Prelude.{◌≡◌, true, ◌++◌, ◌∷◌, [], ◌≤◌, ◌<◌, length, get_or, set};
ghost use Rattle.rules.specs.State.{new_mark};
ghost use Rattle.rules.specs.Dispatcher.{with_marks, mark_at, complete_at};
ghost use Rattle.rules.specs.Commands.{raised};
ghost use Rattle.layout.specs.Fields.{dispatcher_now, dispatcher_changed, with_complete};
ghost use Rattle.layout.specs.Placed.{DispatcherIn};
ghost use Rattle.dispatcher.specs.Lists.{mark_list};
ghost use Rattle.dispatcher.specs.Values.{mark_of};

use bits::UnackedBits;
use store::counted::Counted;
use store::limits::MOST_REDELIVERIES;
use store::offsets::{
    BITS_1_IN, BITS_2_IN, BITS_3_IN, BITS_IN, MARK_IN, MARK_WORDS, MARKS_IN, MARKS_IN_E,
    REDELIVERY_COUNT_IN, REDELIVERY_COUNTS_IN, dispatcher_at,
};

// A mark by value: whether its entry is complete, its redelivery count, its stored bits. A complete entry may have bits
// (an ack in part after it was completed), so neither says the other.
#[derive(Clone, Copy)]
pub struct Mark {
    pub complete: bool,
    pub redelivery_count: u64,
    pub unacked: UnackedBits,
}

// The marks of dispatcher `d`, as a list in a store.
fn mark_list(e: usize, d: usize) -> Counted
    requires { (e ≤ 4096) × (d ≤ 8) }
    ensures { result ≡ mark_list e d }
{
    let at = dispatcher_at(e, d);
    Counted {
        count_at: at + MARKS_IN + MARKS_IN_E * e,
        first: at + MARK_IN + MARKS_IN_E * e,
        width: MARK_WORDS,
    }
}

// The number of marks of dispatcher `d`.
pub fn mark_count(store: &[u64], e: usize, d: usize) -> usize
    requires { DispatcherIn e store.now d }
    ensures { result ≡ length (dispatcher_now store.now d).marks }
{
    mark_list(e, d).count(store)
}

// Dispatcher `d`, which has room, gains a new mark at the end: the words there are 0 already.
pub fn raise_marks(store: &mut [u64], e: usize, d: usize)
    requires { DispatcherIn e store.old d × (length (dispatcher_now store.old d).marks < e) }
    ensures { store.new ≡ dispatcher_changed store.old d (λ x. with_marks x (x.marks ++ new_mark ∷ []) x.outside) }
{
    mark_list(e, d).raise(store);
}

// Mark `k` of dispatcher `d` becomes complete.
pub fn complete_mark(store: &mut [u64], e: usize, d: usize, k: usize)
    requires { DispatcherIn e store.old d × (k < length (dispatcher_now store.old d).marks) }
    ensures { store.new ≡ dispatcher_changed store.old d
        (λ x. with_marks x (set x.marks k (with_complete (get_or x.marks k new_mark) true)) x.outside) }
{
    let at = dispatcher_at(e, d);
    store[at + MARK_IN + MARKS_IN_E * e + k * MARK_WORDS] = 1;
}

// The redelivery count of mark `k` of dispatcher `d` goes up by 1, stopping at 2^32 - 1.
pub fn raise_count(store: &mut [u64], e: usize, d: usize, k: usize)
    requires { DispatcherIn e store.old d × (k < length (dispatcher_now store.old d).marks) }
    ensures { store.new ≡ dispatcher_changed store.old d
        (λ x. with_marks x (set x.marks k (raised (mark_at x k))) x.outside) }
{
    let at = dispatcher_at(e, d);
    let count = at + REDELIVERY_COUNTS_IN + MARKS_IN_E * e + k * MARK_WORDS;
    store[count] = store[count].saturating_add(1).min(MOST_REDELIVERIES);
}

// Mark `k` of dispatcher `d`.
pub fn load_mark(store: &[u64], e: usize, d: usize, k: usize) -> Mark
    requires { DispatcherIn e store.now d × (k < length (dispatcher_now store.now d).marks) }
    ensures { mark_of result ≡ mark_at (dispatcher_now store.now d) k }
{
    let at = dispatcher_at(e, d) + MARK_IN + MARKS_IN_E * e + k * MARK_WORDS;
    Mark {
        complete: store[at] == 1,
        redelivery_count: store[at + REDELIVERY_COUNT_IN],
        unacked: UnackedBits {
            w0: store[at + BITS_IN],
            w1: store[at + BITS_1_IN],
            w2: store[at + BITS_2_IN],
            w3: store[at + BITS_3_IN],
        },
    }
}

// Whether mark `k` of dispatcher `d` is complete.
pub(crate) fn is_complete(store: &[u64], e: usize, d: usize, k: usize) -> bool
    requires { DispatcherIn e store.now d × (k < length (dispatcher_now store.now d).marks) }
    ensures { result ≡ complete_at (dispatcher_now store.now d) k }
{
    let at = dispatcher_at(e, d);
    store[at + MARK_IN + MARKS_IN_E * e + k * MARK_WORDS] == 1
}

// Dispatcher `d` gets another mark `k`.
pub fn save_mark(store: &mut [u64], e: usize, d: usize, k: usize, mark: Mark)
    requires { DispatcherIn e store.old d × (k < length (dispatcher_now store.old d).marks) }
    ensures { store.new ≡ dispatcher_changed store.old d
        (λ x. with_marks x (set x.marks k (mark_of mark)) x.outside) }
{
    let at = dispatcher_at(e, d) + MARK_IN + MARKS_IN_E * e + k * MARK_WORDS;
    store[at] = mark.complete as u64;
    store[at + REDELIVERY_COUNT_IN] = mark.redelivery_count;
    store[at + BITS_IN] = mark.unacked.w0;
    store[at + BITS_1_IN] = mark.unacked.w1;
    store[at + BITS_2_IN] = mark.unacked.w2;
    store[at + BITS_3_IN] = mark.unacked.w3;
}
