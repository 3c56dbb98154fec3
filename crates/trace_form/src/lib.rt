// A call, read from a kind and its words, as a record of a trace or of a script has them: they are as many as the kind asks for,
// and none is too wide for its field. This is the one place where code reads the forms of calls; no call is made here.
#![tactic(auto)]

ghost use Rattle.std.specs.Prelude.{◌≡◌, ℕ, true};
ghost use Rattle.std.proofs.Math.Option.{bind};
ghost use Rattle.rules.specs.Valid.{is_word};
ghost use Rattle.trace.specs.Calls.{that_fits, call_of, kind_of, append_from, subscribe_from, flow_from, ack_from, seek_from};
ghost use Rattle.trace.specs.Calls.{redeliver_from, close_from, push_from};
ghost use Rattle.trace_kind.specs.Commands.{number_of};
ghost use Rattle.trace_form.specs.Calls.{as_call, as_read};

use command_parts::{Kind, Target};
use trace_kind::{Command, MOST_8, MOST_32};

// A call, with what its export takes. What a push's list holds is known when the call is made.
#[derive(Clone, Copy)]
pub enum Call<'a> {
    Append {
        topic: u8,
        ledger: u64,
        entry: u64,
        handle: u64,
        batch_size: u64,
    },
    Subscribe {
        consumer: u64,
        kind: Kind,
        topic: u8,
        subscription: u8,
    },
    Flow {
        consumer: u64,
        grant: u32,
    },
    Ack {
        consumer: u64,
        list: &'a [u64],
    },
    Seek {
        consumer: u64,
        target: Target,
    },
    Redeliver {
        consumer: u64,
        list: &'a [u64],
    },
    Close {
        consumer: u64,
    },
    Push,
}

// What a call asks for.
pub fn command_of(call: Call) -> Command
    ensures { number_of result ≡ kind_of (as_call 0 call.entry) }
{
    match call {
        Call::Append { .. } => Command::Append,
        Call::Subscribe { .. } => Command::Subscribe,
        Call::Flow { .. } => Command::Flow,
        Call::Ack { .. } => Command::Ack,
        Call::Seek { .. } => Command::Seek,
        Call::Redeliver { .. } => Command::Redeliver,
        Call::Close { .. } => Command::Close,
        Call::Push => Command::Push,
    }
}

// A narrow field is tested by its width, and then read by `try_from`, which finds it right: cast in its place, it took each call
// of a row 26 instructions more.

// An append: topic, ledger, entry, handle, batch size.
#[inline(always)]
fn append_of(words: &[u64]) -> Option<Call>
    ensures { as_read 0 result ≡ bind (append_from words.now) that_fits }
{
    if words.len() != 5 {
        return None;
    }
    if MOST_8 < words[0] {
        return None;
    }
    let topic = u8::try_from(words[0]).ok()?;
    Some(Call::Append {
        topic,
        ledger: words[1],
        entry: words[2],
        handle: words[3],
        batch_size: words[4],
    })
}

// The largest number of a kind.
const SHARED: u64 = 1;

// A subscribe: consumer, 0 plain or 1 shared, topic, subscription.
#[inline(always)]
fn subscribe_of(words: &[u64]) -> Option<Call>
    ensures { as_read 0 result ≡ bind (subscribe_from words.now) that_fits }
{
    if words.len() != 4 {
        return None;
    }
    if SHARED < words[1] {
        return None;
    }
    if MOST_8 < words[2] {
        return None;
    }
    if MOST_8 < words[3] {
        return None;
    }
    let topic = u8::try_from(words[2]).ok()?;
    let subscription = u8::try_from(words[3]).ok()?;
    Some(Call::Subscribe {
        consumer: words[0],
        kind: Kind::from(words[1]),
        topic,
        subscription,
    })
}

// A flow: consumer, grant.
#[inline(always)]
fn flow_of(words: &[u64]) -> Option<Call>
    ensures { as_read 0 result ≡ bind (flow_from words.now) that_fits }
{
    if words.len() != 2 {
        return None;
    }
    if MOST_32 < words[1] {
        return None;
    }
    let grant = u32::try_from(words[1]).ok()?;
    Some(Call::Flow {
        consumer: words[0],
        grant,
    })
}

// An ack: consumer, list.
#[inline(always)]
fn ack_of(words: &[u64]) -> Option<Call>
    ensures { as_read 0 result ≡ bind (ack_from words.now) that_fits }
{
    let [consumer, list @ ..] = words else {
        return None;
    };
    Some(Call::Ack {
        consumer: *consumer,
        list,
    })
}

// The numbers of a seek's target: the start, or an id.
const TO_START: u64 = 0;

const TO_AN_ID: u64 = 1;

// A seek: consumer, then 0, or 1, ledger, entry.
#[inline(always)]
fn seek_of(words: &[u64]) -> Option<Call>
    ensures { as_read 0 result ≡ bind (seek_from words.now) that_fits }
{
    if words.len() == 2 {
        if words[1] != TO_START {
            return None;
        }
        return Some(Call::Seek {
            consumer: words[0],
            target: Target::Start,
        });
    }
    if words.len() != 4 {
        return None;
    }
    if words[1] != TO_AN_ID {
        return None;
    }
    Some(Call::Seek {
        consumer: words[0],
        target: Target::Id(words[2], words[3]),
    })
}

// A redeliver: consumer, list.
#[inline(always)]
fn redeliver_of(words: &[u64]) -> Option<Call>
    ensures { as_read 0 result ≡ bind (redeliver_from words.now) that_fits }
{
    let [consumer, list @ ..] = words else {
        return None;
    };
    Some(Call::Redeliver {
        consumer: *consumer,
        list,
    })
}

// A close: consumer.
#[inline(always)]
fn close_of(words: &[u64]) -> Option<Call>
    ensures { as_read 0 result ≡ bind (close_from words.now) that_fits }
{
    if words.len() != 1 {
        return None;
    }
    Some(Call::Close { consumer: words[0] })
}

// A push: no words.
#[inline(always)]
fn push_of(words: &[u64]) -> Option<Call>
    ensures { as_read 0 result ≡ bind (push_from 0 words.now) that_fits }
{
    words.is_empty().then_some(Call::Push)
}

// The call that a kind and its words are, if they are one. Inlined with what reads each kind: called, it took a call of a row
// 185 instructions beside the check, where it takes 77.
#[inline(always)]
pub fn call_of(kind: u64, words: &[u64]) -> Option<Call>
    ensures { as_read 0 result ≡ call_of 0 kind words.now }
{
    match Command::try_from(kind).ok()? {
        Command::Append => append_of(words),
        Command::Subscribe => subscribe_of(words),
        Command::Flow => flow_of(words),
        Command::Ack => ack_of(words),
        Command::Seek => seek_of(words),
        Command::Redeliver => redeliver_of(words),
        Command::Close => close_of(words),
        Command::Push => push_of(words),
    }
}
