// Readings of document 01 taken by running the code, a line each. What is printed is compared and not
// proved. An error of a function here is that of a write.
#![tactic(auto)]

use bits::UnackedBits;
use std::io;
use told::number_in;

// K1 to K4 as far as they concern bits, and the largest batch.
pub fn bit_readings(rt: &impl Print) -> io::Result<()> {
    println!(rt; "# bits of an entry")?;
    show_bits(rt, "K1 batch 65", UnackedBits::fresh_unacked_bits(65))?;
    show_bits(rt, "K2 batch 0", UnackedBits::fresh_unacked_bits(0))?;
    show_bits(rt, "K2 batch 1", UnackedBits::fresh_unacked_bits(1))?;
    let five = [5];
    let two = [2];
    let ones = [0xffff_ffff_ffff_ffff];
    let left = UnackedBits::fresh_unacked_bits(3).and_into(&five);
    show_bits(rt, "K3 batch 3, words 5", left)?;
    show_bits(rt, "K3 then words 2", left.and_into(&two))?;
    show_bits(
        rt,
        "K4 batch 65, one word of ones",
        UnackedBits::fresh_unacked_bits(65).and_into(&ones),
    )?;
    show_bits(rt, "batch 256", UnackedBits::fresh_unacked_bits(256))
}

// Opening the runner's store: E at and past its limit, and the length at and below what E = 32
// needs.
pub fn open_readings(rt: &impl Print) -> io::Result<()> {
    println!(rt; "# opening the store: E 4,096 and 4,097, 8,192 and 8,191 words")?;
    let mut store = [0u64; 8192];
    open_reading(rt, "open, E 4096, 8192 words", &mut store, 4096)?;
    open_reading(rt, "open, E 4097, 8192 words", &mut store, 4097)?;
    open_reading(rt, "open, E 0, 8192 words", &mut store, 0)?;
    open_reading(rt, "open, E 32, 8192 words", &mut store, 32)?;
    let mut short = [0u64; 8191];
    open_reading(rt, "open, E 32, 8191 words", &mut short, 32)
}

// One opening, with both switches off.
fn open_reading(rt: &impl Print, label: &str, store: &mut [u64], entries: u64) -> io::Result<()> {
    show_answer(rt, label, broker::broker_open(store, entries, 0, 0))
}

// Appends to the runner's store, opened for two entries: words that spell no state, each refusal that
// one topic can show, and a word changed past the needed ones and among them.
pub fn append_readings(rt: &impl Print) -> io::Result<()> {
    println!(rt; "# append")?;
    let mut store = [0u64; 8192];
    append_reading(rt, "append, words all 0", &mut store, 0, 1)?;
    broker::broker_open(&mut store, 2, 0, 0);
    append_reading(rt, "append (0,0)", &mut store, 0, 1)?;
    append_reading(rt, "append (0,0) again", &mut store, 0, 1)?;
    append_reading(rt, "append (0,0), batch 257", &mut store, 0, 257)?;
    append_reading(rt, "append (0,1), batch 256", &mut store, 1, 256)?;
    append_reading(rt, "append a third, E 2", &mut store, 2, 1)?;
    store[4352] = 1;
    append_reading(
        rt,
        "append (0,0), a word past the needed ones 1",
        &mut store,
        0,
        1,
    )?;
    store[4351] = 1;
    append_reading(rt, "append (0,0), the last needed word 1", &mut store, 0, 1)
}

// One append to topic 1, in ledger 0, with handle 500.
fn append_reading(
    rt: &impl Print,
    label: &str,
    store: &mut [u64],
    entry: u64,
    batch: u64,
) -> io::Result<()> {
    let answer = broker::broker_append(store, 1, 0, entry, 500, batch);
    show_answer(rt, label, answer)
}

// Flow, seek and close of a consumer that is not live, before and after the store is opened. Each line is a reading, written as
// it is printed.
pub fn consumer_readings(rt: &impl Print) -> io::Result<()> {
    println!(rt; "# a consumer that is not live")?;
    let mut store = [0u64; 8192];
    show_answer(
        rt,
        "flow, words all 0",
        broker::broker_flow(&mut store, 7, 1),
    )?;
    show_answer(
        rt,
        "seek, words all 0",
        broker::broker_seek(&mut store, 7, 0, 0, 0),
    )?;
    show_answer(
        rt,
        "close, words all 0",
        broker::broker_close(&mut store, 7),
    )?;
    broker::broker_open(&mut store, 32, 0, 0);
    show_answer(
        rt,
        "flow, 7 not live",
        broker::broker_flow(&mut store, 7, 1),
    )?;
    show_answer(
        rt,
        "seek, 7 not live",
        broker::broker_seek(&mut store, 7, 0, 0, 0),
    )?;
    show_answer(rt, "close, 7 not live", broker::broker_close(&mut store, 7))
}

// A line: the label, the four words, how many bits are set, and whether none is.
fn show_bits(rt: &impl Print, label: &str, bits: UnackedBits) -> io::Result<()> {
    print!(rt; "{label}: ")?;
    show_word(rt, bits.w0)?;
    show_word(rt, bits.w1)?;
    show_word(rt, bits.w2)?;
    show_word(rt, bits.w3)?;
    print!(rt; "set {}", bits.bits_cardinality())?;
    if bits.bits_empty() {
        print!(rt; " complete")?;
    }
    println!(rt)
}

// A word in hexadecimal, and a blank.
fn show_word(rt: &impl Print, w: u64) -> io::Result<()> {
    print!(rt; "{w:016x} ")
}

// A line: the label, and done or the refusal's number. The runner calls what makers call, whose answer is one word: its refusals
// are told by number.
fn show_answer(rt: &impl Print, label: &str, answer: u64) -> io::Result<()> {
    match number_in(answer) {
        0 => println!(rt; "{label}: done"),
        number => println!(rt; "{label}: refused {number}"),
    }
}
