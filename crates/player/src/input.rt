// The bytes of the input that are held: more are read behind them, and only where there is no room left behind them are they
// moved to the front. So a byte is moved at most once for each block, however short the pieces are that a pipe delivers.
ghost use Rattle.std.specs.Prelude.{◌+◌, ◌≤◌, length};

use std::io::Read;

// Makes room behind the bytes held, and answers where they start.
pub(crate) fn make_room(held: &mut [u8], from: usize, to: usize) -> usize
    requires { (from ≤ to) × (to ≤ length held.old) }
    ensures { result ≤ from }
{
    if to < held.len() {
        return from;
    }
    held.copy_within(from..to, 0);
    0
}

// Reads what there is of the input, as far as there is room from a place on, and answers how many bytes these are: 0 at its
// end, and where the read fails.
pub(crate) fn read_more(input: &mut impl Read, held: &mut [u8], to: usize) -> usize
    requires { to ≤ length held.old }
    ensures { to + result ≤ length held.old }
{
    input.read(&mut held[to..]).unwrap_or(0)
}
