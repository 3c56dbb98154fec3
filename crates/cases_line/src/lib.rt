// The runner's input: lines of words with one blank between them, as reference/src/script.rs writes
// calls. A word of digits is its number; a name is the number that its last eight letters spell in
// base 256, so that names are compared as numbers.
#![tactic(auto)]

pub mod name;

ghost use Rattle.std.specs.Prelude.{◌≡◌, cond, ◌<◌, min, ltb, length, get_or, replicate};
ghost use Rattle.std.specs.Io.{ReadsAtMost};
ghost use Rattle.cases_line.specs.Line.{with_digit, with_byte, numbers};
ghost use Rattle.cases_line.specs.Words.{first_words};

use std::io;
use std::io::BufRead;

// Reads a line into the start of `line`, without its end, and answers its length: 0 at the end of the
// input. A line that is longer than `line` is cut there. An error leaves in `line` what was read
// before it.
pub fn read_line(input: &mut impl BufRead, line: &mut [u8]) -> io::Result<usize>
    ensures { ReadsAtMost result line.new }
{
    for n in 0..line.len() {
        let Some(b) = next_byte(input)? else {
            return Ok(n);
        };
        line[n] = b;
    }
    Ok(line.len())
}

// Reads the next byte of a line, if there is one: a line ends at its newline, at a byte that is 0, or with the input.
fn next_byte(input: &mut impl BufRead) -> io::Result<Option<u8>> {
    let b = match input.fill_buf()?.first() {
        Some(b) => *b,
        None => return Ok(None),
    };
    input.consume(1);
    if b == b'\n' || b == 0 {
        return Ok(None);
    }
    Ok(Some(b))
}

// Puts the words of a line at the start of `words`, where zeros stand, as many as there is room for, and
// answers how many these are.
pub fn words_of(line: &[u8], words: &mut [u64]) -> usize
    requires { words.old ≡ replicate (length words.old) 0 }
    ensures count { result ≡ min (length words.old) (length (numbers line.now)) }
    ensures words { words.new ≡ first_words (length words.old) (numbers line.now) }
{
    let mut n = 0;
    for b in line {
        if n >= words.len() {
            return n;
        }
        words[n] = joined(words[n], *b);
        n += blanks(*b);
    }
    words.len().min(n + 1)
}

// 1 for a byte that ends a word, else 0.
fn blanks(b: u8) -> usize
    ensures { result ≡ cond (ltb 32 b) 0 1 }
{
    usize::from(b <= b' ')
}

// What seven letters spell is below this, 2^56.
const SEVEN_LETTERS: u64 = 72_057_594_037_927_936;

// A word with one more digit or letter; any byte below the digits leaves it.
fn joined(word: u64, b: u8) -> u64
    ensures { result ≡ with_byte word b }
{
    if b < b'0' {
        return word;
    }
    if b <= b'9' {
        return with_digit(word, u64::from(b - b'0'));
    }
    word % SEVEN_LETTERS * 256 + u64::from(b)
}

// A number with one more digit; the largest where it would pass it.
fn with_digit(word: u64, d: u64) -> u64
    requires { d < 10 }
    ensures { result ≡ with_digit word d }
{
    word.saturating_mul(10).saturating_add(d)
}

// The word at a place of a slice, or 0 past its end.
pub fn word_or_zero(words: &[u64], i: usize) -> u64
    ensures { result ≡ get_or words.now i 0 }
{
    words.get(i).copied().unwrap_or(0)
}
