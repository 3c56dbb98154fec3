// Words of a store: read one, compare one, test a stretch for zeros. Nothing here knows what the words mean.
ghost use Rattle.std.specs.Prelude.{◌≡◌, ◌&&◌, ◌+◌, ◌-◌, ◌≤◌, ◌<◌, eqb, length, get_or, drop};
ghost use Rattle.words.specs.Words.{blank};

// The word at `at`, as a count or an offset.
pub fn word(store: &[u64], at: usize) -> usize
    requires { at < length store.now }
    ensures { result ≡ get_or store.now at 0 }
{
    store[at] as usize
}

// Whether the word at `at` is `value`.
pub fn is_word(store: &[u64], at: usize, value: u64) -> bool
    requires { at < length store.now }
    ensures { result ≡ eqb value (get_or store.now at 0) }
{
    value == store[at]
}

// The eight words from `at` on, or-ed.
fn eight_words(store: &[u64], at: usize) -> u64
    requires { at + 8 ≤ length store.now }
    ensures { eqb result 0 ≡ blank 8 (drop at store.now) }
{
    store[at]
        | store[at + 1]
        | store[at + 2]
        | store[at + 3]
        | store[at + 4]
        | store[at + 5]
        | store[at + 6]
        | store[at + 7]
}

// Whether `before` and the words from `from` up to `to` are all 0.
fn rest_blank(store: &[u64], from: usize, to: usize, before: u64) -> bool
    requires { (from ≤ to) × (to ≤ length store.now) }
    ensures { result ≡ (eqb before 0 && blank (to - from) (drop from store.now)) }
{
    let mut any = before;
    for i in from..to {
        any |= store[i];
    }
    any == 0
}

// Whether the words from `from` up to `to` are all 0: the store and two places, since the laws of the check say it of the
// whole store from an offset on, and a part of it would say no more. They are or-ed, sixteen at a time, and tested once,
// which the compiler turns into wide operations. The place is counted by hand: 400 words take 594 instructions so, 730 by
// a fold over them, 963 by `chunks(16)`, 1,775 by `step_by(16)` and 2,413 by `all`.
pub fn is_blank(store: &[u64], from: usize, to: usize) -> bool
    requires { (from ≤ to) × (to ≤ length store.now) }
    ensures { result ≡ blank (to - from) (drop from store.now) }
{
    let mut any = 0;
    let mut i = from;
    while 16 <= to - i {
        any |= eight_words(store, i) | eight_words(store, i + 8);
        i += 16;
    }
    rest_blank(store, i, to, any)
}
