// Push: the shared part and the plain part are written, if the list has room for their records. It surely
// has if it has room for all entries that wait; else the number due is counted first, on local numbers,
// and 15 is answered with it before the first write if the list has no room for as many.
#![tactic(auto)]

mod bound;

ghost use Rattle.std.specs.Prelude.{◌≡◌, true, ◌*◌, ◌/◌, ◌≤◌, length};
ghost use Rattle.rules.specs.Calls.Call.{Push};
ghost use Rattle.layout.specs.Layout.{decode, spells};
ghost use Rattle.layout.specs.Canon.{CanonStore};
ghost use Rattle.layout.specs.Fields.{state_changed};
ghost use Rattle.layout.specs.Calls.{outcome, answer, after, list_after};
ghost use Rattle.refusal.specs.Words.{word_of};
ghost use Rattle.record.specs.Flat.{filled};
ghost use Rattle.push_laws.specs.Whole.{permits_now, local_push};

use bound::most_due;
use consumer::fields::permits;
use consumer::table::consumer_count;
use push_plain::due::due_plain;
use push_plain::serve::serve_plain;
use push_shared::push_pending_shared;
use push_turn::due::due_shared;
use record::RECORD_WORDS;
use refusal::{Answer, Refusal};
use store::header::entries;

// The permits of all consumers, by slot. They stay a plain list: that it has a number for each consumer is a fact of the list
// and of the store, so no invariant of the list alone.
fn load_permits(store: &[u64], e: usize, list: &mut [u64])
    requires { CanonStore e store.now × (length list.old ≡ length (decode store.now).consumers) }
    ensures { list.new ≡ permits_now (decode store.now) }
{
    for (i, held) in list.iter_mut().enumerate() {
        *held = permits(store, e, i);
    }
}

// How many dispatches are due.
fn due(store: &[u64], e: usize) -> usize
    requires { (spells store.now ≡ true) × (e ≡ (decode store.now).entries) }
    ensures { result ≡ length (local_push (decode store.now)).dispatched }
{
    let n = consumer_count(store, e);
    // 32 at most, and no heap: the array is lent as long as it is used.
    let mut all = [0u64; 32];
    let permits = &mut all[..n];
    load_permits(store, e, permits);
    let shared = due_shared(store, e, permits);
    shared + due_plain(store, e, permits)
}

// What is due is dispatched; the list has room for its records. The answer is how many were made.
fn push_pending(store: &mut [u64], e: usize, list: &mut [u64]) -> usize
    requires { (spells store.old ≡ true) × (e ≡ (decode store.old).entries)
        × (length (local_push (decode store.old)).dispatched * 13 ≤ length list.old) }
    ensures value { result ≡ length (local_push (decode store.old)).dispatched }
    ensures words { store.new ≡ state_changed store.old (λ s. (local_push s).state) }
    ensures records { list.new ≡ filled list.old 0 (local_push (decode store.old)).dispatched }
{
    let n = consumer_count(store, e);
    // 32 at most, and no heap: the array is lent as long as it is used.
    let mut all = [0u64; 32];
    let permits = &mut all[..n];
    load_permits(store, e, permits);
    let shared = push_pending_shared(store, e, permits, list);
    shared + serve_plain(store, e, permits, &mut list[shared * RECORD_WORDS..])
}

// 15 with the number due if more dispatches are due than the list holds records of 13 words. The value is
// the dispatches made.
pub fn push(store: &mut [u64], list: &mut [u64]) -> Answer
    requires { spells store.old ≡ true }
    ensures answer { word_of result ≡ answer store.old (Push (length list.old / 13)) }
    ensures words { store.new ≡ after store.old (Push (length list.old / 13)) }
    ensures records { list.new ≡ list_after list.old
        (outcome store.old (Push (length list.old / 13))) }
{
    let e = entries(store);
    let room = list.len() / RECORD_WORDS;
    if room < most_due(store, e) {
        let n = due(store, e);
        if room < n {
            return Err(Refusal::ListShort(n as u64));
        }
    }
    let made = push_pending(store, e, list);
    Ok(made as u64)
}
