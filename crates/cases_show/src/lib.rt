// What the runner prints of a call: the same words as reference/src/play.rs. It is compared and not proved. An error of a
// function here is that of a write.
#![tactic(auto)]

ghost use Rattle.std.specs.Prelude.{◌≡◌, ◌*◌, ◌/◌, min, length, drop, IfOk};

use bits::UnackedBits;
use cases_line::name::Name;
use record::{Dispatch, RECORD_WORDS, read_record, signed};
use std::io;
use told::{number_in, value_in};
use trace_kind::Command;

// Done and the value, or the refusal's number, and the end of the line; 255 where no call was made. The runner calls what makers
// call, whose answer is one word: its refusals are told by number.
pub fn show_outcome(rt: &impl Print, name: Option<Name>, answer: Option<u64>) -> io::Result<()> {
    let Some(answer) = answer else {
        return println!(rt; "refused 255");
    };
    let value = value_in(answer);
    match number_in(answer) {
        0 => {
            print!(rt; "done")?;
            show_value(rt, name, value)?;
        }
        15 => print!(rt; "refused 15, due {value}")?,
        64 => print!(rt; "refused 64, calls {value}")?,
        number => print!(rt; "refused {number}")?,
    }
    println!(rt)
}

// The value of a call that has one.
fn show_value(rt: &impl Print, name: Option<Name>, value: u64) -> io::Result<()> {
    match name {
        Some(Name::Call(Command::Flow)) => {
            print!(rt; ", permits ")?;
            show_value_signed(rt, value)
        }
        Some(Name::Call(Command::Ack)) => {
            show_field(rt, ", mark_delete ", value / 2)?;
            show_moved(rt, value % 2 == 1)
        }
        Some(Name::Call(Command::Seek)) => show_field(rt, ", cursor ", value),
        Some(Name::Call(Command::Close)) => show_field(rt, ", closed ", value),
        Some(Name::Call(Command::Push)) => show_field(rt, ", dispatches ", value),
        Some(Name::Row) => show_field(rt, ", calls ", value),
        _ => Ok(()),
    }
}

// Whether mark-delete moved.
fn show_moved(rt: &impl Print, moved: bool) -> io::Result<()> {
    if moved {
        print!(rt; " moved")
    } else {
        print!(rt; " not moved")
    }
}

// A value of an answer, which has 56 bits, as a signed number: moved up by 8 bits and down again, it is signed as a word.
fn show_value_signed(rt: &impl Print, value: u64) -> io::Result<()> {
    print!(rt; "{}", (value << 8).cast_signed() >> 8)
}

// Whether a push into records gave the same as the flat push.
pub fn show_twin(rt: &impl Print, same: bool) -> io::Result<()> {
    if same {
        println!(rt; "  as records: the same")
    } else {
        println!(rt; "  as records: DIFFERENT")
    }
}

// The records at the start of a list, a line each, of which it may hold fewer than `count`; answers what stands behind them.
pub fn show_records<'a>(rt: &impl Print, list: &'a [u64], count: u64) -> io::Result<&'a [u64]>
    ensures { IfOk result (λ rest. rest.now ≡ drop (min count (length list.now / 13) * 13) list.now) }
{
    let shown = (count as usize).min(list.len() / RECORD_WORDS);
    let (shown, rest) = list.split_at(shown * RECORD_WORDS);
    let (records, _) = shown.as_chunks::<RECORD_WORDS>();
    for record in records {
        show_dispatch(rt, read_record(record))?;
    }
    Ok(rest)
}

// A dispatch, in the order of its record.
fn show_dispatch(rt: &impl Print, dispatch: Dispatch) -> io::Result<()> {
    show_message(rt, dispatch)?;
    show_ack_set(rt, dispatch)?;
    show_field(rt, "] redelivery_count ", dispatch.redelivery_count)?;
    show_field(rt, " cost ", dispatch.cost)?;
    println!(rt; " permits {}", dispatch.permits.cast_signed())
}

// Who is sent what.
fn show_message(rt: &impl Print, dispatch: Dispatch) -> io::Result<()> {
    show_field(rt, "  + ", dispatch.consumer)?;
    show_field(rt, ": id (", dispatch.ledger)?;
    show_field(rt, ",", dispatch.entry)?;
    show_field(rt, ") handle ", dispatch.handle)?;
    show_field(rt, " batch ", dispatch.batch_size)
}

// As many of the four ack set words as count.
fn show_ack_set(rt: &impl Print, dispatch: Dispatch) -> io::Result<()> {
    print!(rt; " ack_set [")?;
    let UnackedBits { w0, w1, w2, w3 } = dispatch.ack_set;
    let words = [w0, w1, w2, w3];
    for i in 0..dispatch.ack_set_words.min(4) as usize {
        if i > 0 {
            print!(rt; ", ")?;
        }
        print!(rt; "{}", words[i])?;
    }
    Ok(())
}

// How many dispatchers there are, and the end of the line.
pub fn show_count(rt: &impl Print, dispatchers: u64) -> io::Result<()> {
    show_field(rt, "dispatchers ", dispatchers)?;
    println!(rt)
}

// A line: a dispatcher, its balance check and its total, both in excess form.
pub fn show_balance(rt: &impl Print, dispatcher: u64, balance: u64, total: u64) -> io::Result<()> {
    show_field(rt, "  + dispatcher ", dispatcher)?;
    show_permits(rt, ": balance ", balance)?;
    show_permits(rt, " total ", total)?;
    println!(rt)
}

// A label and permits in excess form.
fn show_permits(rt: &impl Print, label: &str, permits: u64) -> io::Result<()> {
    print!(rt; "{label}{}", signed(permits).cast_signed())
}

// A label and a number.
fn show_field(rt: &impl Print, label: &str, value: u64) -> io::Result<()> {
    print!(rt; "{label}{value}")
}
