// Numbers as text, written into a lent buffer of bytes: decimal digits in ASCII, a minus before a negative number. Each
// writer lays its bytes from a place on and answers the place after them. The digits are counted first, and then laid from
// the last to the first. Not by `Display`: its writer would be a struct that holds the lent
// buffer, whose cost the next lines tell, and each number written would answer an error that cannot come.
// Each writer takes the whole buffer and a place in it: over the rest of the buffer alone each call would lend a part and add what
// it answers to the place, and a struct that holds the buffer costs each contract a clause that it still holds the same one.
#![tactic(auto)]

ghost use Rattle.std.specs.Prelude.{◌≡◌, ◌+◌, ◌≤◌, length};
ghost use Rattle.std.proofs.Math.IntN.{sub_ℕ};
ghost use Rattle.words.specs.Wrote.{Wrote};
ghost use Rattle.decimal.specs.Decimal.{decimal, integer};

// The characters.
const ZERO: u8 = b'0';

const MINUS: u8 = b'-';

// How many digits a number has in decimal.
fn digits(number: u64) -> usize
    ensures { result ≡ length (decimal number) }
{
    match number.checked_ilog10() {
        Some(power) => power as usize + 1,
        None => 1,
    }
}

// Writes a number in decimal. Any 64-bit number has at most 20 digits.
pub fn write_decimal(buffer: &mut [u8], at: usize, number: u64) -> usize
    requires { at + 20 ≤ length buffer.old }
    ensures { Wrote 20 buffer.old at (decimal number) buffer.new result }
{
    let end = at + digits(number);
    let mut rest = number;
    for here in (at + 1..end).rev() {
        buffer[here] = ZERO + (rest % 10) as u8;
        rest = rest / 10;
    }
    buffer[at] = ZERO + rest as u8;
    end
}

// Writes the integer a - b, with a minus where b is the larger.
pub fn write_difference(buffer: &mut [u8], at: usize, a: u64, b: u64) -> usize
    requires { at + 21 ≤ length buffer.old }
    ensures { Wrote 21 buffer.old at (integer (sub_ℕ a b)) buffer.new result }
{
    if a < b {
        buffer[at] = MINUS;
        return write_decimal(buffer, at + 1, b - a);
    }
    write_decimal(buffer, at, a - b)
}
