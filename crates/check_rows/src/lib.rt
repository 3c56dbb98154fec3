// Rows of words: each row is known by its first word or its first two. Whether one is there, whether
// all are distinct, whether they ascend. Nothing here knows what the words mean.
#![tactic(auto)]

ghost use Rattle.std.specs.Prelude.{ℕ, Bool, ◌≡◌, true, ◌+◌, ◌*◌, ◌≤◌, ◌<◌, length};
ghost use Rattle.check_rows.specs.Alike.{Orders, Tells, none_alike};
ghost use Rattle.check_rows.specs.Rows.{pair_above, twos_ascend};

// Rows of `width` words each, which stand in a store from `first` on.
#[derive(Clone, Copy)]
pub struct Rows<'a> {
    pub store: &'a [u64],
    pub first: usize,
    pub width: usize,
    pub count: usize,
    pub ghost some: { 1 ≤ width },
    pub ghost inside: { first + count * width ≤ length store.now },
}

// Rows of two words or more, and whether it is known that they ascend by these two.
#[derive(Clone, Copy)]
pub struct PairRows<'a> {
    pub rows: Rows<'a>,
    pub ascend: bool,
    pub ghost wide: { 2 ≤ rows.width },
    pub ghost known: { ascend ≡ true → twos_ascend rows.store.now rows.first rows.width rows.count ≡ true },
}

// Whether two words are above another two: by the first words, or by the second where the first are
// the same. `c < a || (a == c && d < b)` took half as long again over rows that ascend, and the order of
// tuples, `(c, d) < (a, b)`, 587 µs for 347 over rows that descend.
pub fn is_above(a: u64, b: u64, c: u64, d: u64) -> bool
    ensures { result ≡ pair_above a b c d }
{
    if a == c {
        return d < b;
    }
    c < a
}

// Whether no two of `count` rows are alike, by tests of two rows. A row above the greatest before it is not compared, so that
// ascending rows are passed over once.
fn none_alike<S: Fn(usize, usize) -> bool, A: Fn(usize, usize) -> bool>(
    count: usize,
    alike: S,
    above: A,
) -> bool
    requires alike { (i j : ℕ) → i < count → j < count → S.pre alike i j }
    requires above { (i j : ℕ) → i < count → j < count → A.pre above i j }
    ensures { (same over : ℕ → ℕ → Bool) → Orders same over → Tells (S.post alike) same → Tells (A.post above) over
        → result ≡ none_alike same count }
{
    let mut greatest = 0;
    for i in 0..count {
        if above(i, greatest) {
            greatest = i;
        } else if (0..i).any(
            |j|
                requires { S.pre alike i j }
            { alike(i, j) },
        ) {
            return false;
        }
    }
    true
}

impl Rows<'_> {
    ghost use Rattle.check_rows.specs.Values.{word_of, first_with, words_distinct};

    // The first word of row i.
    pub fn word(&self, i: usize) -> u64
        requires { i < self.now.count }
        ensures { result ≡ word_of self.now i }
    {
        self.store[self.first + i * self.width]
    }

    // The first row that starts with a word.
    pub fn row_of(&self, a: u64) -> Option<usize>
        ensures { result ≡ first_with self.now a }
    {
        (0..self.count).find(|&i| a == self.word(i))
    }

    // Whether no two rows start with the same word.
    pub fn distinct(&self) -> bool
        ensures { result ≡ words_distinct self.now }
    {
        none_alike(
            self.count,
            |i, j| self.word(i) == self.word(j),
            |i, j| self.word(j) < self.word(i),
        )
    }
}

impl PairRows<'_> {
    ghost use Rattle.check_rows.specs.Values.{second_of, pair_among, pairs_distinct, pairs_ascend, past_last};

    // The second word of row i. One function for both words would have one argument more at each of its 32 calls, and a bound
    // of it in its contract.
    pub fn second(&self, i: usize) -> u64
        requires { i < self.now.rows.count }
        ensures { result ≡ second_of self.now i }
    {
        self.rows.store[self.rows.first + i * self.rows.width + 1]
    }

    // Whether one of the first n rows starts with two words.
    fn is_pair_among(&self, n: usize, a: u64, b: u64) -> bool
        requires { n ≤ self.now.rows.count }
        ensures { result ≡ pair_among self.now n a b }
    {
        (0..n).any(|i| a == self.rows.word(i) && b == self.second(i))
    }

    // Whether no two rows start with the same two words.
    pub fn pairs_distinct(&self) -> bool
        ensures { result ≡ pairs_distinct self.now }
    {
        none_alike(
            self.rows.count,
            |i, j| self.rows.word(i) == self.rows.word(j) && self.second(i) == self.second(j),
            |i, j| is_above(
                self.rows.word(i),
                self.second(i),
                self.rows.word(j),
                self.second(j),
            ),
        )
    }

    // Whether the rows ascend by their two words.
    pub fn pairs_ascend(&self) -> bool
        ensures { result ≡ pairs_ascend self.now }
    {
        (1..self.rows.count).all(|i| is_above(
            self.rows.word(i),
            self.second(i),
            self.rows.word(i - 1),
            self.second(i - 1),
        ))
    }

    // Whether two words are above those of the last row.
    pub fn is_past(&self, a: u64, b: u64) -> bool
        ensures { result ≡ past_last self.now a b }
    {
        if self.rows.count == 0 {
            return false;
        }
        is_above(
            a,
            b,
            self.rows.word(self.rows.count - 1),
            self.second(self.rows.count - 1),
        )
    }

    // Whether one of the rows, which ascend, starts with two words: the half that cannot have it is left
    // out again and again. The library's searches by halves are over the elements of a slice, and a row is
    // several of them.
    fn is_found(&self, a: u64, b: u64) -> bool
        requires { self.now.ascend ≡ true }
        ensures { result ≡ pair_among self.now self.now.rows.count a b }
    {
        let mut low = 0;
        let mut high = self.rows.count;
        while low < high {
            let middle = low + (high - low) / 2;
            let x = self.rows.word(middle);
            let y = self.second(middle);
            if is_above(a, b, x, y) {
                low = middle + 1;
            } else if is_above(x, y, a, b) {
                high = middle;
            } else {
                return true;
            }
        }
        false
    }

    // Whether one of the rows starts with two words. Words above the last of ascending rows are not
    // searched for.
    pub fn has(&self, a: u64, b: u64) -> bool
        ensures { result ≡ pair_among self.now self.now.rows.count a b }
    {
        if self.ascend {
            return !self.is_past(a, b) && self.is_found(a, b);
        }
        self.is_pair_among(self.rows.count, a, b)
    }
}
