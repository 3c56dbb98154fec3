// A list of records in a store, with a word for how many there are. Nothing here knows what the records mean, so a list's
// own functions stand with it: each says in its contract which list of the rules its words are.
//
// The value has places alone and no borrow, so that other words may be written between two of its calls; that its words
// lie in the store is asked at each.
ghost use Rattle.std.specs.Prelude.{◌≡◌, ◌+◌, ◌*◌, ◌^◌, ◌≤◌, ◌<◌, length, replicate};
ghost use Rattle.words.specs.Act.{lay};
ghost use Rattle.store.specs.Counted.{Inside, HasRoom, size, without, without_first, cut_to, with_last, with_inserted, one_more};

use super::movers::{close_gap, open_gap};
use super::stretch::word;

// Where the word of the count is, where record 0 starts, and how many words a record has.
#[derive(Clone, Copy)]
pub struct Counted {
    pub count_at: usize,
    pub first: usize,
    pub width: usize,
}

impl Counted {
    // How many records there are.
    pub fn count(self, store: &[u64]) -> usize
        requires { Inside self store.now }
        ensures { result ≡ size self store.now }
    {
        word(store, self.count_at)
    }

    // Where record `j` starts.
    fn place(self, j: usize) -> usize
        requires { self.first + j * self.width < 2 ^ 63 }
        ensures { result ≡ self.first + j * self.width }
    {
        self.first + j * self.width
    }

    // Record `j` is left out; those after it keep their order.
    pub fn remove(self, store: &mut [u64], j: usize)
        requires { Inside self store.old × (j < size self store.old) }
        ensures { store.new ≡ without self j store.old }
    {
        let n = self.count(store);
        let part = &mut store[self.place(j)..self.place(n)];
        close_gap(part, self.width);
        store[self.count_at] = (n - 1) as u64;
    }

    // The first `k` records are left out.
    pub fn drop_first(self, store: &mut [u64], k: usize)
        requires { Inside self store.old × (k ≤ size self store.old) }
        ensures { store.new ≡ without_first self k store.old }
    {
        let n = self.count(store);
        let part = &mut store[self.first..self.place(n)];
        close_gap(part, k * self.width);
        store[self.count_at] = (n - k) as u64;
    }

    // The first `k` records stay, the others go.
    pub fn cut(self, store: &mut [u64], k: usize)
        requires { Inside self store.old × (k ≤ size self store.old) }
        ensures { store.new ≡ cut_to self k store.old }
    {
        let n = self.count(store);
        let part = &mut store[self.place(k)..self.place(n)];
        part.fill(0);
        store[self.count_at] = k as u64;
    }

    // A record joins at the end.
    pub fn push<const N: usize>(self, store: &mut [u64], words: [u64; N])
        requires { Inside self store.old × (size self store.old < length store.old)
            × (self.first + size self store.old * self.width + N ≤ length store.old) }
        ensures { store.new ≡ with_last self words.entry store.old }
    {
        let n = self.count(store);
        write_words(store, self.place(n), words);
        store[self.count_at] = (n + 1) as u64;
    }

    // A record is put in at `j`; those from there on come after it.
    pub fn insert<const N: usize>(self, store: &mut [u64], j: usize, words: [u64; N])
        requires { HasRoom self store.old × (j ≤ size self store.old) × (N ≤ self.width) }
        ensures { store.new ≡ with_inserted self j words.entry store.old }
    {
        let n = self.count(store);
        let part = &mut store[self.place(j)..self.place(n + 1)];
        open_gap(part, self.width);
        write_words(store, self.place(j), words);
        store[self.count_at] = (n + 1) as u64;
    }

    // A record of zeros is put in at `j`; those from there on come after it.
    pub fn insert_blank(self, store: &mut [u64], j: usize)
        requires { HasRoom self store.old × (j ≤ size self store.old) }
        ensures { store.new ≡ with_inserted self j (replicate self.width 0) store.old }
    {
        let n = self.count(store);
        let part = &mut store[self.place(j)..self.place(n + 1)];
        open_gap(part, self.width);
        store[self.place(j)..self.place(j + 1)].fill(0);
        store[self.count_at] = (n + 1) as u64;
    }

    // The words behind the last record become one more.
    pub fn raise(self, store: &mut [u64])
        requires { Inside self store.old × (size self store.old < length store.old) }
        ensures { store.new ≡ one_more self store.old }
    {
        let more = self.count(store) + 1;
        store[self.count_at] = more as u64;
    }
}

// Some words stand from `at` on.
fn write_words<const N: usize>(store: &mut [u64], at: usize, words: [u64; N])
    requires { at + N ≤ length store.old }
    ensures { store.new ≡ (lay words.entry).run at store.old }
{
    for i in 0..N {
        store[at + i] = words[i];
    }
}
