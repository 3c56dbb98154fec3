// How many entries the plain consumers are due.
ghost use Rattle.std.specs.Prelude.{◌≡◌, true, ◌+◌, ◌-◌, min, length};
ghost use Rattle.rules.specs.Permits.{zero_permits};
ghost use Rattle.layout.specs.Layout.{decode, spells};
ghost use Rattle.layout.specs.Fields.{consumer_now};
ghost use Rattle.layout.specs.Placed.{ConsumerIn};
ghost use Rattle.push_plain.specs.Reading.{ledger_now, waiting_for, due_now, plain_records_now};

use super::reader::Reader;
use super::sum::added_up;
use command_parts::Kind;
use consumer::fields::{cursor, kind, topic};
use consumer::nacked::nacked_count;
use store::permits::ZERO_PERMITS;
use topic::table::ledger_length;

// How many of `n` entries some permits are enough for.
fn permitted(permits: u64, n: usize) -> usize
    ensures { result ≡ min (permits - zero_permits) n }
{
    (permits.saturating_sub(ZERO_PERMITS) as usize).min(n)
}

// How many entries wait for consumer `i`.
pub fn waiting(store: &[u64], e: usize, i: usize) -> usize
    requires { ConsumerIn e store.now i }
    ensures { result ≡ length (consumer_now store.now i).nacked
        + (length (ledger_now store.now i) - (consumer_now store.now i).cursor) }
{
    let n = ledger_length(store, e, topic(store, e, i));
    nacked_count(store, e, i) + n.saturating_sub(cursor(store, e, i))
}

// How many entries wait for consumer `i`, if it is a plain one.
pub fn waiting_for(store: &[u64], e: usize, i: usize) -> usize
    requires { ConsumerIn e store.now i }
    ensures { result ≡ waiting_for (decode store.now) (consumer_now store.now i) }
{
    match kind(store, e, i) {
        Kind::Plain => waiting(store, e, i),
        Kind::Shared => 0,
    }
}

// How many entries a consumer is due with the permits that it is left.
pub(crate) fn plain_due(store: &[u64], reader: Reader) -> usize
    requires { ConsumerIn reader.e store.now reader.i }
    ensures { result ≡ due_now store.now reader.i reader.permits }
{
    permitted(reader.permits, waiting_for(store, reader.e, reader.i))
}

// How many entries all consumers are due, each with its permits of `permits`.
pub fn due_plain(store: &[u64], e: usize, permits: &[u64]) -> usize
    requires { (spells store.now ≡ true) × (e ≡ (decode store.now).entries)
        × (length permits.now ≡ length (decode store.now).consumers) }
    ensures { result ≡ length (plain_records_now store.now permits.now) }
{
    added_up(permits.len(), |i| {
        plain_due(
            store,
            Reader {
                e,
                i,
                permits: permits[i],
            },
        )
    })
}
