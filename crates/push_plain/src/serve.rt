// Plain consumers served: the records of their entries, then their own words.
ghost use Rattle.std.specs.Prelude.{◌≡◌, ◌+◌, ◌*◌, ◌≤◌, ◌<◌, length};
ghost use Rattle.words.specs.Act.{lay};
ghost use Rattle.rules.specs.State.{with_consumers};
ghost use Rattle.rules.specs.Commands.{with_permits};
ghost use Rattle.rules.specs.Push.{flat};
ghost use Rattle.layout.specs.Layout.{decode};
ghost use Rattle.layout.specs.Canon.{CanonStore};
ghost use Rattle.layout.specs.Fields.{consumer_now, topic_now, state_changed, consumer_changed};
ghost use Rattle.layout.specs.Placed.{TopicIn};
ghost use Rattle.record.specs.Flat.{filled, record_words};
ghost use Rattle.push_laws.specs.Plain.{plain_served};
ghost use Rattle.push_plain.specs.Reading.{record_to, entry_record, entries_taken, ledger_now, due_now, records_now, plain_records_now};
ghost use Rattle.push_plain.specs.Reading.{ReadableIn, Readable, SendableTo, all_served};

use super::due::plain_due;
use super::reader::{Reader, position, read_on};
use bits::UnackedBits;
use consumer::fields::{consumer_id, set_permits, topic};
use record::{Dispatch, RECORD_WORDS, signed, write_record};
use topic::message::load_message;
use topic::table::find_topic;

// The record of message `k` of topic `t`, to the consumer with an id, with its permits after it.
fn plain_record(store: &[u64], e: usize, t: usize, k: usize, id: u64, permits: u64) -> Dispatch
    requires { TopicIn e store.now t × (k < length (topic_now store.now t).messages) }
    ensures { record_words result ≡ flat (record_to (topic_now store.now t).messages id k permits) }
{
    let m = load_message(store, e, t, k);
    Dispatch {
        consumer: id,
        ledger: m.ledger,
        entry: m.entry,
        handle: m.handle,
        batch_size: m.batch_size,
        ack_set_words: 0,
        ack_set: UnackedBits::default(),
        redelivery_count: 0,
        cost: 1,
        permits: signed(permits),
    }
}

// Entry `j` of those that wait for a reader, whose topic is `t`, becomes the first record of a list.
fn send_entry(store: &[u64], reader: Reader, t: usize, j: usize, list: &mut [u64])
    requires { SendableTo reader t store.now (j + 1) × (13 ≤ length list.old) }
    ensures { list.new ≡ (lay (flat (entry_record (ledger_now store.now reader.i)
        (with_permits (consumer_now store.now reader.i) reader.permits) j))).run 0 list.old }
{
    let k = position(store, reader.e, reader.i, j);
    let id = consumer_id(store, reader.e, reader.i);
    let left = reader.permits - (j as u64) - 1;
    let x = plain_record(store, reader.e, t, k, id, left);
    write_record(list, x);
}

// The next `n` entries of a reader become the first records of a list.
fn serve_records(store: &[u64], reader: Reader, t: usize, n: usize, list: &mut [u64])
    requires { SendableTo reader t store.now n × (n * 13 ≤ length list.old) }
    ensures { list.new ≡ filled list.old 0 (records_now store.now reader.i reader.permits n) }
{
    for j in 0..n {
        send_entry(store, reader, t, j, &mut list[j * RECORD_WORDS..]);
    }
}

// The `n` entries that a reader is due become the first records of a list; its topic is looked up only
// if there are any.
fn serve_due(store: &[u64], reader: Reader, n: usize, list: &mut [u64])
    requires { ReadableIn reader.e store.now reader.i × (n ≡ due_now store.now reader.i reader.permits) × (n * 13 ≤ length list.old) }
    ensures { list.new ≡ filled list.old 0 (records_now store.now reader.i reader.permits n) }
{
    if n == 0 {
        return;
    }
    let t = find_topic(store, reader.e, topic(store, reader.e, reader.i));
    serve_records(store, reader, t, n, list);
}

// A reader gets its permits and has `n` entries taken.
fn take_entries(store: &mut [u64], reader: Reader, n: usize)
    requires { ReadableIn reader.e store.old reader.i × (n ≤ 4160) × (n ≤ reader.permits) }
    ensures { store.new ≡ consumer_changed store.old reader.i (λ x. entries_taken (with_permits x reader.permits) n) }
{
    set_permits(store, reader.e, reader.i, reader.permits - (n as u64));
    read_on(store, reader.e, reader.i, n);
}

// A reader gets its permits and what it is then due, as the first records of a list; answers how many these are.
fn serve_consumer(store: &mut [u64], reader: Reader, list: &mut [u64]) -> usize
    requires { ReadableIn reader.e store.old reader.i × (due_now store.old reader.i reader.permits * 13 ≤ length list.old) }
    ensures value { result ≡ due_now store.old reader.i reader.permits }
    ensures words { store.new ≡ consumer_changed store.old reader.i
        (λ x. plain_served (decode store.old) (with_permits x reader.permits)) }
    ensures records { list.new ≡ filled list.old 0
        (records_now store.old reader.i reader.permits (due_now store.old reader.i reader.permits)) }
{
    let n = plain_due(store, reader);
    serve_due(store, reader, n, list);
    take_entries(store, reader, n);
    n
}

// Every consumer, by ascending slot, gets its permits of `permits`, and a plain one what it is then
// due. The list begins with the records; the answer is how many there are.
pub fn serve_plain(store: &mut [u64], e: usize, permits: &[u64], list: &mut [u64]) -> usize
    requires { CanonStore e store.old × Readable (decode store.old) × (length permits.now ≡ length (decode store.old).consumers)
        × (length (plain_records_now store.old permits.now) * 13 ≤ length list.old) }
    ensures value { result ≡ length (plain_records_now store.old permits.now) }
    ensures words { store.new ≡ state_changed store.old
        (λ s. with_consumers s (all_served s permits.now)) }
    ensures records { list.new ≡ filled list.old 0 (plain_records_now store.old permits.now) }
{
    let mut made = 0;
    for (i, held) in permits.iter().enumerate() {
        let reader = Reader {
            e,
            i,
            permits: *held,
        };
        made += serve_consumer(store, reader, &mut list[made * RECORD_WORDS..]);
    }
    made
}
