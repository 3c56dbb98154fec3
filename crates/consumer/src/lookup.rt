// The live consumer with an id: what each operation on a consumer looks for first.
ghost use Rattle.std.specs.Prelude.{◌≡◌};
ghost use Rattle.rules.specs.State.{Consumer, by_id};
ghost use Rattle.rules.specs.Outcome.{Outcome, with_live};
ghost use Rattle.layout.specs.Layout.{decode};
ghost use Rattle.layout.specs.Canon.{CanonStore};
ghost use Rattle.store.specs.Found.{found};
ghost use Rattle.consumer.specs.Lookup.{lookup_outcome};

use super::fields::consumer_id;
use super::table::consumer_count;
use search::first_row;

// The slot of the live consumer with an id. With none flow, ack, seek and redeliver stop with refusal 4, else they go on
// with the consumer there, as the rules have it, whatever they go on to do.
pub fn find_consumer(store: &[u64], e: usize, id: u64) -> Option<usize>
    requires { CanonStore e store.now }
    ensures slot { result ≡ found by_id id (decode store.now).consumers }
    ensures answer { (f : Consumer → Outcome) → lookup_outcome (decode store.now).consumers f result
        ≡ with_live (decode store.now) id f }
{
    first_row(consumer_count(store, e), |i| id == consumer_id(store, e, i))
}
