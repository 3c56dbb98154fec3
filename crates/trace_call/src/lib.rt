// A call of a trace or of a script, made. What fits no kind or has a word too wide for its field is no call, and changes nothing.
// The store is not checked: the caller knows that it spells a state, and every call leaves it so. That it does is asked by each
// function and is no type's fact: every call writes the store, so a value that holds the fact would be made anew after each.
#![tactic(auto)]

ghost use Rattle.std.specs.Prelude.{◌≡◌, true, ◌/◌, length};
ghost use Rattle.layout.specs.Layout.{spells};
ghost use Rattle.layout.specs.Calls.{outcome, answer, after, list_after};
ghost use Rattle.refusal.specs.Words.{word_of};
ghost use Rattle.trace.specs.Calls.{call_of};
ghost use Rattle.trace_form.specs.Calls.{as_call};
ghost use Rattle.trace_call.specs.Made.{words_told, made, answer_of, answered, words_made, list_made};

use ack::ack;
use append::append;
use close::close;
use flow::flow;
use push::push;
use redeliver::redeliver;
use refusal::Answer;
use seek::command::Seek;
use seek::seek;
use subscribe::command::Subscribe;
use subscribe::subscribe;
use trace_form::{Call, call_of};

// Makes the call of a kind and its words, if they are one, and answers as its export does; a push fills the list.
pub fn make_call(store: &mut [u64], kind: u64, words: &[u64], list: &mut [u64]) -> Option<Answer>
    requires { spells store.old ≡ true }
    ensures answer { words_told result ≡ made store.old (call_of (length list.old / 13) kind words.now) }
    ensures number { answer_of (words_told result) ≡ answered store.old (call_of (length list.old / 13) kind words.now) }
    ensures words { store.new ≡ words_made store.old (call_of (length list.old / 13) kind words.now) }
    ensures records { list.new ≡ list_made store.old list.old
        (call_of (length list.old / 13) kind words.now) }
{
    let call = call_of(kind, words)?;
    Some(answer_call(store, call, list))
}

// Makes a call, and answers as its export does; a push fills the list.
pub fn answer_call(store: &mut [u64], call: Call, list: &mut [u64]) -> Answer
    requires { spells store.old ≡ true }
    ensures answer { word_of result ≡ answer store.old (as_call (length list.old / 13) call.entry) }
    ensures words { store.new ≡ after store.old (as_call (length list.old / 13) call.entry) }
    ensures records { list.new ≡ list_after list.old
        (outcome store.old (as_call (length list.old / 13) call.entry)) }
{
    match call {
        Call::Append {
            topic,
            ledger,
            entry,
            handle,
            batch_size,
        } => append(store, topic, ledger, entry, handle, batch_size),
        Call::Subscribe {
            consumer,
            kind,
            topic,
            subscription,
        } => subscribe(
            store,
            Subscribe {
                consumer,
                kind,
                topic,
                subscription,
            },
        ),
        Call::Flow { consumer, grant } => flow(store, consumer, grant),
        Call::Ack { consumer, list } => ack(store, consumer, list),
        Call::Seek { consumer, target } => seek(store, Seek { consumer, target }),
        Call::Redeliver { consumer, list } => redeliver(store, consumer, list),
        Call::Close { consumer } => close(store, consumer),
        Call::Push => push(store, list),
    }
}
