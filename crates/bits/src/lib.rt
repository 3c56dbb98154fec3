// The bit set of a batched entry: which of its messages are still unacknowledged. Four words by
// value, bit i % 64 of word i / 64 for message i, so that a batch of up to 256 fits. Each method
// takes the bits and hands them back. The names are those of broker.rs; nothing here knows of a
// broker.
#![tactic(auto)]

ghost use Rattle.std.specs.Prelude.{◌≡◌, ◌-◌, ◌%◌, ◌^◌, ◌≤◌, min, leb, get_or};
ghost use Rattle.bits.specs.Bits.{fresh_unacked_bits, and_into, bits_empty, bits_cardinality, bits_below, count_ones};
ghost use Rattle.bits.specs.Four.{four, words};
ghost use Rattle.bits.specs.Masks.{mask};

// Four fields and no array: the rules' own state holds this type (`Acked` in rules/specs/State.antt), so its form is part of
// what is promised; and an array, in clauses a list of any length, would need a ghost field that says four. The default is
// the empty set.
#[derive(Clone, Copy, Default)]
pub struct UnackedBits {
    pub w0: u64,
    pub w1: u64,
    pub w2: u64,
    pub w3: u64,
}

impl UnackedBits {
    // The last word of a batch by what its size leaves when divided by 64: mask r has the lowest r
    // bits set, mask 0 all 64.
    const MASKS: [u64; 64] = [
        0xffff_ffff_ffff_ffff,
        0x0000_0000_0000_0001,
        0x0000_0000_0000_0003,
        0x0000_0000_0000_0007,
        0x0000_0000_0000_000f,
        0x0000_0000_0000_001f,
        0x0000_0000_0000_003f,
        0x0000_0000_0000_007f,
        0x0000_0000_0000_00ff,
        0x0000_0000_0000_01ff,
        0x0000_0000_0000_03ff,
        0x0000_0000_0000_07ff,
        0x0000_0000_0000_0fff,
        0x0000_0000_0000_1fff,
        0x0000_0000_0000_3fff,
        0x0000_0000_0000_7fff,
        0x0000_0000_0000_ffff,
        0x0000_0000_0001_ffff,
        0x0000_0000_0003_ffff,
        0x0000_0000_0007_ffff,
        0x0000_0000_000f_ffff,
        0x0000_0000_001f_ffff,
        0x0000_0000_003f_ffff,
        0x0000_0000_007f_ffff,
        0x0000_0000_00ff_ffff,
        0x0000_0000_01ff_ffff,
        0x0000_0000_03ff_ffff,
        0x0000_0000_07ff_ffff,
        0x0000_0000_0fff_ffff,
        0x0000_0000_1fff_ffff,
        0x0000_0000_3fff_ffff,
        0x0000_0000_7fff_ffff,
        0x0000_0000_ffff_ffff,
        0x0000_0001_ffff_ffff,
        0x0000_0003_ffff_ffff,
        0x0000_0007_ffff_ffff,
        0x0000_000f_ffff_ffff,
        0x0000_001f_ffff_ffff,
        0x0000_003f_ffff_ffff,
        0x0000_007f_ffff_ffff,
        0x0000_00ff_ffff_ffff,
        0x0000_01ff_ffff_ffff,
        0x0000_03ff_ffff_ffff,
        0x0000_07ff_ffff_ffff,
        0x0000_0fff_ffff_ffff,
        0x0000_1fff_ffff_ffff,
        0x0000_3fff_ffff_ffff,
        0x0000_7fff_ffff_ffff,
        0x0000_ffff_ffff_ffff,
        0x0001_ffff_ffff_ffff,
        0x0003_ffff_ffff_ffff,
        0x0007_ffff_ffff_ffff,
        0x000f_ffff_ffff_ffff,
        0x001f_ffff_ffff_ffff,
        0x003f_ffff_ffff_ffff,
        0x007f_ffff_ffff_ffff,
        0x00ff_ffff_ffff_ffff,
        0x01ff_ffff_ffff_ffff,
        0x03ff_ffff_ffff_ffff,
        0x07ff_ffff_ffff_ffff,
        0x0fff_ffff_ffff_ffff,
        0x1fff_ffff_ffff_ffff,
        0x3fff_ffff_ffff_ffff,
        0x7fff_ffff_ffff_ffff,
    ];

    // The first `batch_size` bits set, all 256 where it is greater: every message of the batch is
    // unacknowledged.
    pub fn fresh_unacked_bits(batch_size: u64) -> Self
        ensures { result ≡ four (fresh_unacked_bits 4 batch_size) }
    {
        let last = Self::MASKS[(batch_size % 64) as usize];
        UnackedBits {
            w0: fresh_word(batch_size, 0, last),
            w1: fresh_word(batch_size, 64, last),
            w2: fresh_word(batch_size, 128, last),
            w3: fresh_word(batch_size, 192, last),
        }
    }

    // The bits that are also set in `incoming`; a word that `incoming` lacks counts as 0, and
    // words past the fourth are ignored.
    pub fn and_into(self, incoming: &[u64]) -> Self
        ensures { result ≡ four (and_into (words self) incoming.now) }
    {
        UnackedBits {
            w0: self.w0 & word_or_zero(incoming, 0),
            w1: self.w1 & word_or_zero(incoming, 1),
            w2: self.w2 & word_or_zero(incoming, 2),
            w3: self.w3 & word_or_zero(incoming, 3),
        }
    }

    // Whether no bit is set: every message is acknowledged.
    pub fn bits_empty(self) -> bool
        ensures { result ≡ bits_empty (words self) }
    {
        self.w0 | self.w1 | self.w2 | self.w3 == 0
    }

    // How many bits are set: the messages still unacknowledged.
    pub fn bits_cardinality(self) -> u64
        ensures { result ≡ bits_cardinality (words self) }
    {
        set_bits(self.w0) + set_bits(self.w1) + set_bits(self.w2) + set_bits(self.w3)
    }

    // Whether no bit at or past `batch_size` is set. It makes no fresh set to compare with: the check
    // asks this of marks in a loop, and the compiled code builds the masks anew for each fresh set.
    pub fn bits_below(self, batch_size: u64) -> bool
        ensures { result ≡ bits_below batch_size (words self) }
    {
        word_below(self.w0, batch_size, 0)
            & word_below(self.w1, batch_size, 64)
            & word_below(self.w2, batch_size, 128)
            & word_below(self.w3, batch_size, 192)
    }
}

// How many bits of a word are set.
fn set_bits(word: u64) -> u64
    ensures { (result ≡ count_ones word) × (result ≤ 64) }
{
    u64::count_ones(word) as u64
}

// The word of a fresh bit set that begins with message `from`: all ones where the batch goes on past
// it, `last` where the batch ends in it, 0 where it ended before.
fn fresh_word(batch_size: u64, from: u64, last: u64) -> u64
    requires { (from % 64 ≡ 0) × (from ≤ 192) × (last ≡ mask (batch_size % 64)) }
    ensures { result ≡ 2 ^ min (batch_size - from) 64 - 1 }
{
    if from + 64 < batch_size {
        return 0xffff_ffff_ffff_ffff;
    }
    if from < batch_size {
        return last;
    }
    0
}

// Whether a word that begins with message `from` has no bit set at or past `batch_size`: any word where
// the batch goes on to its end, by the bits behind the batch where it ends in it, else 0 alone.
fn word_below(word: u64, batch_size: u64, from: u64) -> bool
    requires { from ≤ 192 }
    ensures { result ≡ leb word (2 ^ min (batch_size - from) 64 - 1) }
{
    if from + 64 <= batch_size {
        return true;
    }
    if from < batch_size {
        return word >> (batch_size - from) == 0;
    }
    word == 0
}

// The word at `at`, or 0 where the list is shorter.
fn word_or_zero(list: &[u64], at: usize) -> u64
    ensures { result ≡ get_or list.now at 0 }
{
    list.get(at).copied().unwrap_or(0)
}
