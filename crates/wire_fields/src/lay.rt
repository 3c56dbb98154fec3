// The numbers of a message's fields of one number, laid into a lent list in order. The list goes with a place in it: `Laid` says
// at once what the whole list is then, which over the rest of it each caller would put together.
ghost use Rattle.std.specs.Prelude.{◌≡◌, ◌+◌, ◌≤◌, length};
ghost use Rattle.words.specs.Act.{lay};
ghost use Rattle.wire_fields.specs.Values.{one_value, values_of, Ready, Laid};

use super::field::Field;
use super::fields::Fields;

// Lays the number of a field if the field is of the number, and answers the place after it.
fn lay_number(f: Field, number: u64, list: &mut [u64], to: usize) -> usize
    requires { to + length (one_value number f) ≤ length list.old }
    ensures { Laid list.old to (one_value number f) list.new result }
{
    if f.number != number {
        return to;
    }
    list[to] = f.value;
    to + 1
}

// Lays the numbers of all fields of a number from a place on.
pub fn lay_numbers(m: &[u8], number: u64, list: &mut [u64], to: usize)
    requires { Ready m.now number (length list.old) to }
    ensures { list.new ≡ (lay (values_of m.now number)).run to list.old }
{
    let mut next = to;
    for field in Fields::of(m) {
        let Some(f) = field else {
            return;
        };
        next = lay_number(f, number, list, next);
    }
}
