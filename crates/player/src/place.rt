// Where the player stands between two turns.

// The bytes held, from a place to a place; the number of the record at their front, 0 for the header; and how many bytes of
// text are not printed yet. There is no heap: the bytes held and the text lie between places of two arrays.
#[derive(Clone, Copy, Debug, PartialEq, Eq)]
pub(crate) struct Place {
    pub(crate) from: usize,
    pub(crate) to: usize,
    pub(crate) number: u64,
    pub(crate) filled: usize,
}
