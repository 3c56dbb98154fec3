// A dispatch by value, and its record in flat words: 13 of them, the fields in their order. It is written to the start of a
// lent slice and read from there.
#![tactic(auto)]

ghost use Rattle.std.specs.Prelude.{◌≡◌, ◌+◌, ◌-◌, ◌%◌, ◌^◌, ◌≤◌, length};
ghost use Rattle.words.specs.Act.{lay};
ghost use Rattle.record.specs.Flat.{record_words, record_at};

use bits::UnackedBits;

// A dispatch as push records it: its numbers are the words of its flat record, in their order. The permits
// after it are in two's complement. The default is a dispatch of nothing, all zeros.
#[derive(Clone, Copy, Default)]
pub struct Dispatch {
    pub consumer: u64,
    pub ledger: u64,
    pub entry: u64,
    pub handle: u64,
    pub batch_size: u64,
    pub ack_set_words: u64,
    pub ack_set: UnackedBits,
    pub redelivery_count: u64,
    pub cost: u64,
    pub permits: u64,
}

// The words of a record.
pub const RECORD_WORDS: usize = 13;

// What turns permits in excess form into two's complement: 2^64 - 2^62.
const TO_SIGNED: u64 = 13_835_058_055_282_163_712;

// Permits in two's complement, from the excess form of the store.
pub fn signed(permits: u64) -> u64
    ensures { result ≡ (permits + (2 ^ 64 - 2 ^ 62)) % 2 ^ 64 }
{
    std::num::wrapping_add_u64(permits, TO_SIGNED)
}

// Writes the record of a dispatch to the start of some words, one by one: an array of them in between is as many lines and
// a copy more.
pub fn write_record(words: &mut [u64], dispatch: Dispatch)
    requires { 13 ≤ length words.old }
    ensures { words.new ≡ (lay (record_words dispatch)).run 0 words.old }
{
    words[0] = dispatch.consumer;
    words[1] = dispatch.ledger;
    words[2] = dispatch.entry;
    words[3] = dispatch.handle;
    words[4] = dispatch.batch_size;
    words[5] = dispatch.ack_set_words;
    words[6] = dispatch.ack_set.w0;
    words[7] = dispatch.ack_set.w1;
    words[8] = dispatch.ack_set.w2;
    words[9] = dispatch.ack_set.w3;
    words[10] = dispatch.redelivery_count;
    words[11] = dispatch.cost;
    words[12] = dispatch.permits;
}

// The dispatch whose record some words begin with.
pub fn read_record(words: &[u64]) -> Dispatch
    requires { 13 ≤ length words.now }
    ensures { result ≡ record_at words.now 0 }
{
    Dispatch {
        consumer: words[0],
        ledger: words[1],
        entry: words[2],
        handle: words[3],
        batch_size: words[4],
        ack_set_words: words[5],
        ack_set: UnackedBits {
            w0: words[6],
            w1: words[7],
            w2: words[8],
            w3: words[9],
        },
        redelivery_count: words[10],
        cost: words[11],
        permits: words[12],
    }
}
