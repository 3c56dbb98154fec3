// The bytes of a trace read, all numbers high byte first: how far a header or a record reaches from the front of some bytes, and
// the words of a record that is whole. Nothing is taken out before it is known to be there.
#![tactic(auto)]

ghost use Rattle.std.specs.Prelude.{◌≡◌, ◌≤◌, length};
ghost use Rattle.words.specs.Wrote.{Wrote};
ghost use Rattle.trace.specs.Format.{MOST_WORDS as most_words, number, header_reach, record_reach, record_in};
ghost use Rattle.trace.specs.Format.Reach.{ends};
ghost use Rattle.trace_read.specs.Reached.{reached};

// How far something reaches from the front of some bytes: to a place in them; it is cut off, there are too few to tell; or it
// is wrong, whatever follows. Three outcomes, as the definitions have them: the player goes on, waits or stops. An Option in a
// Result says no more.
#[derive(Clone, Copy, Debug, PartialEq, Eq)]
pub enum Reach {
    Ends(usize),
    CutOff,
    Wrong,
}

// The header as one number: the mark `HBT` in three bytes and the version in two.
const HEADER: u64 = 0x48_42_54_00_01;

const HEADER_BYTES: usize = 5;

// The front of a record: the kind in one byte and the count of words in two.
const COUNT_AT: usize = 1;

const FRONT_BYTES: usize = 3;

// The bytes of a word; the most words of a record, and the bytes of such a record.
const WORD_BYTES: usize = 8;

pub const MOST_WORDS: usize = 1217;

pub const MOST_BYTES: usize = FRONT_BYTES + WORD_BYTES * MOST_WORDS;

// The number in some bytes, at most eight of them.
fn number(bytes: &[u8]) -> u64
    requires { length bytes.now ≤ 8 }
    ensures { result ≡ number bytes.now }
{
    let mut n = 0;
    for i in 0..bytes.len() {
        n = n * 256 + u64::from(bytes[i]);
    }
    n
}

// How far the header at the front of some bytes reaches.
pub fn header_reach(bytes: &[u8]) -> Reach
    ensures { result ≡ reached (header_reach bytes.now) }
{
    if bytes.len() < HEADER_BYTES {
        return Reach::CutOff;
    }
    if number(&bytes[..HEADER_BYTES]) != HEADER {
        return Reach::Wrong;
    }
    Reach::Ends(HEADER_BYTES)
}

// How far the record at the front of some bytes reaches.
pub fn record_reach(bytes: &[u8]) -> Reach
    ensures { result ≡ reached (record_reach bytes.now) }
{
    if bytes.len() < FRONT_BYTES {
        return Reach::CutOff;
    }
    let n = number(&bytes[COUNT_AT..FRONT_BYTES]) as usize;
    if MOST_WORDS < n {
        return Reach::Wrong;
    }
    let size = FRONT_BYTES + WORD_BYTES * n;
    if bytes.len() < size {
        return Reach::CutOff;
    }
    Reach::Ends(size)
}

// The kind of a record.
pub fn kind_of(bytes: &[u8]) -> u64
    requires { record_reach bytes.now ≡ ends (length bytes.now) }
    ensures { result ≡ (record_in bytes.now).kind }
{
    u64::from(bytes[0])
}

// Puts the words of a record at the start of `words`, and answers how many they are.
pub fn read_words(bytes: &[u8], words: &mut [u64]) -> usize
    requires { (record_reach bytes.now ≡ ends (length bytes.now)) × (most_words ≤ length words.old) }
    ensures { Wrote most_words words.old 0 (record_in bytes.now).words words.new result }
{
    let count = (bytes.len() - FRONT_BYTES) / WORD_BYTES;
    for n in 0..count {
        let at = FRONT_BYTES + WORD_BYTES * n;
        words[n] = number(&bytes[at..at + WORD_BYTES]);
    }
    count
}
