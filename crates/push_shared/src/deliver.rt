// One dispatch written: its record to the start of a lent list, its entry at the end of what is in flight.
ghost use Rattle.std.specs.Prelude.{◌≡◌, cond, ◌++◌, ◌∷◌, [], ◌≤◌, ◌<◌, length};
ghost use Rattle.bits.specs.Bits.{bits_empty, word_count};
ghost use Rattle.bits.specs.Four.{words};
ghost use Rattle.rules.specs.Dispatcher.{with_places};
ghost use Rattle.rules.specs.Push.{flat};
ghost use Rattle.layout.specs.Layout.{decode};
ghost use Rattle.layout.specs.Fields.{dispatcher_now, dispatcher_changed};
ghost use Rattle.record.specs.Flat.{filled, record_words};
ghost use Rattle.push_laws.specs.Applied.{record_to, record_of, held_of};
ghost use Rattle.push_turn.specs.Turns.{step_of, fixed_now, ServedHere};

use bits::UnackedBits;
use consumer::fields::consumer_id;
use dispatcher::flight::append_flight;
use dispatcher::marks::load_mark;
use push_turn::service::Served;
use push_turn::turn::Step;
use record::{Dispatch, signed, write_record};
use topic::message::load_message;

// The number of words of an entry's ack set: as many as its batch takes, none without stored bits.
fn ack_set_words(bits: UnackedBits, batch: u64) -> u64
    requires { batch ≤ 256 }
    ensures { result ≡ cond (bits_empty (words bits)) 0 (word_count batch) }
{
    if bits.bits_empty() {
        0
    } else {
        batch.div_ceil(64)
    }
}

// The record of a step of a dispatcher, to the consumer `id`.
fn record_to(store: &[u64], served: Served, id: u64, step: Step) -> Dispatch
    requires { ServedHere served store.now × (step.position < served.n) }
    ensures { record_words result ≡ flat (record_to id (fixed_now store.now served.d) (step_of step)) }
{
    let message = load_message(store, served.e, served.t, step.position);
    let mark = load_mark(store, served.e, served.d, step.position);
    let bits = mark.unacked;
    let words = ack_set_words(bits, message.batch_size);
    Dispatch {
        consumer: id,
        ledger: message.ledger,
        entry: message.entry,
        handle: message.handle,
        batch_size: message.batch_size,
        ack_set_words: words,
        ack_set: bits,
        redelivery_count: mark.redelivery_count,
        cost: step.price,
        permits: signed(step.permits),
    }
}

// The first record of the list becomes that of a step of a dispatcher, and its entry is in flight.
pub(crate) fn deliver(store: &mut [u64], served: Served, list: &mut [u64], step: Step)
    requires { ServedHere served store.old × (step.position < served.n) × (step.consumer < length (decode store.old).consumers)
        × (length (dispatcher_now store.old served.d).in_flight < served.e) × (13 ≤ length list.old) }
    ensures words { store.new ≡ dispatcher_changed store.old served.d
        (λ x. with_places x x.redelivery (x.in_flight ++ held_of (decode store.old) (step_of step) ∷ [])) }
    ensures records { list.new ≡ filled list.old 0
        (record_of (decode store.old) (fixed_now store.old served.d) (step_of step) ∷ []) }
{
    let id = consumer_id(store, served.e, step.consumer);
    let k = step.position;
    let record = record_to(store, served, id, step);
    write_record(list, record);
    append_flight(store, served.e, served.d, id, k);
}
