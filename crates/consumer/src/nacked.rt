// The nacked positions of a plain consumer: entries that it handed back, oldest first. Each has one word.
ghost use Rattle.std.specs.Prelude.{◌≡◌, [], ◌++◌, ◌∷◌, ◌≤◌, ◌<◌, length, get_or, drop};
ghost use Rattle.rules.specs.Commands.{with_reading};
ghost use Rattle.layout.specs.Fields.{consumer_now, consumer_changed};
ghost use Rattle.layout.specs.Placed.{ConsumerIn};
ghost use Rattle.consumer.specs.Lists.{nacked_list};

use store::counted::Counted;
use store::offsets::{NACKED_IN, NACKED_LIST_IN, consumer_at};
use store::stretch::word;

// The nacked positions of consumer `i`, as a list in a store.
fn nacked_list(i: usize) -> Counted
    requires { i ≤ 32 }
    ensures { result ≡ nacked_list i }
{
    let at = consumer_at(i);
    Counted {
        count_at: at + NACKED_IN,
        first: at + NACKED_LIST_IN,
        width: 1,
    }
}

// The number of nacked entries of consumer `i`.
pub fn nacked_count(store: &[u64], e: usize, i: usize) -> usize
    requires { ConsumerIn e store.now i }
    ensures { result ≡ length (consumer_now store.now i).nacked }
{
    nacked_list(i).count(store)
}

// Nacked position `j` of consumer `i`.
pub fn nacked(store: &[u64], e: usize, i: usize, j: usize) -> usize
    requires { ConsumerIn e store.now i × (j < length (consumer_now store.now i).nacked) }
    ensures { result ≡ get_or (consumer_now store.now i).nacked j 0 }
{
    let at = consumer_at(i);
    word(store, at + NACKED_LIST_IN + j)
}

// Position `k` joins the nacked positions of consumer `i`, at their end.
pub fn append_nacked(store: &mut [u64], e: usize, i: usize, k: usize)
    requires { ConsumerIn e store.old i × (length (consumer_now store.old i).nacked < 64) }
    ensures { store.new ≡ consumer_changed store.old i (λ x. with_reading x x.cursor (x.nacked ++ k ∷ [])) }
{
    nacked_list(i).push(store, [k as u64]);
}

// The first `n` nacked positions of consumer `i` are taken out.
pub fn drop_nacked(store: &mut [u64], e: usize, i: usize, n: usize)
    requires { ConsumerIn e store.old i × (n ≤ length (consumer_now store.old i).nacked) }
    ensures { store.new ≡ consumer_changed store.old i (λ x. with_reading x x.cursor (drop n x.nacked)) }
{
    nacked_list(i).drop_first(store, n);
}

// The nacked entries of consumer `i` are cleared.
pub fn clear_nacked(store: &mut [u64], e: usize, i: usize)
    requires { ConsumerIn e store.old i }
    ensures { store.new ≡ consumer_changed store.old i (λ x. with_reading x x.cursor []) }
{
    nacked_list(i).cut(store, 0);
}
