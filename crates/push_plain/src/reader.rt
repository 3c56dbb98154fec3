// What a plain consumer is to read: its nacked entries, then its ledger from the cursor on.
ghost use Rattle.std.specs.Prelude.{◌≡◌, ◌+◌, ◌-◌, ◌≤◌, length, drop};
ghost use Rattle.rules.specs.Commands.{with_reading};
ghost use Rattle.layout.specs.Fields.{consumer_now, consumer_changed};
ghost use Rattle.push_plain.specs.Reading.{ReadableIn, position_at};

use consumer::fields::{cursor, set_cursor};
use consumer::nacked::{drop_nacked, nacked, nacked_count};

// A consumer with the permits that a push leaves it: E, its slot and these permits.
#[derive(Clone, Copy)]
pub(crate) struct Reader {
    pub e: usize,
    pub i: usize,
    pub permits: u64,
}

// The position of entry `j` of those that wait for consumer `i`.
pub(crate) fn position(store: &[u64], e: usize, i: usize, j: usize) -> usize
    requires { ReadableIn e store.now i × (j ≤ 8192) }
    ensures { result ≡ position_at (consumer_now store.now i) j }
{
    let n = nacked_count(store, e, i);
    if j < n {
        nacked(store, e, i, j)
    } else {
        cursor(store, e, i) + (j - n)
    }
}

// Consumer `i` reads `n` entries: nacked ones are taken out, and the cursor moves on by the others.
pub(crate) fn read_on(store: &mut [u64], e: usize, i: usize, n: usize)
    requires { ReadableIn e store.old i × (n ≤ 4160) }
    ensures { store.new ≡ consumer_changed store.old i
        (λ x. with_reading x (x.cursor + (n - length x.nacked)) (drop n x.nacked)) }
{
    let taken = n.min(nacked_count(store, e, i));
    let from = cursor(store, e, i);
    set_cursor(store, e, i, from + (n - taken));
    drop_nacked(store, e, i, taken);
}
