// The lines that a player prints, written into a lent buffer: of a call's answer with the records that a push left in its
// list, and of what is bad. Each writer lays its bytes from a place on and answers the place after them; room is asked for by
// constants. By hand and not by `write!`: each line would have to be shown by `write_str_gives` of a writer over the buffer, where
// `Wrote` says of the buffer at once what was laid.
// Each writer takes the whole buffer and a place in it, not the rest of the buffer, as push does with its list: a writer of a line
// or of a message lends several parts and not one, and each would add its answer to the place.
#![tactic(auto)]

ghost use Rattle.std.specs.Prelude.{◌≡◌, ◌+◌, ◌*◌, ◌≤◌, length, drop};
ghost use Rattle.words.specs.Wrote.{Wrote};
ghost use Rattle.rules.specs.Push.{record_read, records_read};
ghost use Rattle.trace.specs.Text.{number_and, dispatch_line, dispatch_lines, outcome_line, bad_line};
ghost use Rattle.trace.specs.Played.{ROOM};
ghost use Rattle.told.specs.Told.{dispatches_told};
ghost use Rattle.trace_lines.specs.Told.{lines_bytes, permits_text, text_told};

use decimal::{write_decimal, write_difference};
use record::{RECORD_WORDS, read_record};
use std::num::wrapping_add_u64;
use store::permits::ZERO_PERMITS;
use told::{dispatches_in, number_in};

// The characters.
const PLUS: u8 = b'+';

const BLANK: u8 = b' ';

const NEWLINE: u8 = 10;

// The bytes of a record's line and of a dispatch's at most, and of all lines of a record with the 32 dispatches that a push's
// list holds.
const LINE_BYTES: usize = 84;

const DISPATCH_BYTES: usize = 87;

pub const LINES_BYTES: usize = LINE_BYTES + 32 * DISPATCH_BYTES;

// Writes a number and a character after it.
fn write_number(buffer: &mut [u8], at: usize, number: u64, mark: u8) -> usize
    requires { at + 21 ≤ length buffer.old }
    ensures { Wrote 21 buffer.old at (number_and number mark) buffer.new result }
{
    let end = write_decimal(buffer, at, number);
    buffer[end] = mark;
    end + 1
}

// Writes the line of a record: its number, its kind, the refusal or 0, the dispatches made.
fn write_line(buffer: &mut [u8], number: u64, kind: u64, code: u64, dispatches: u64) -> usize
    requires { 84 ≤ length buffer.old }
    ensures { Wrote 84 buffer.old 0 (outcome_line number kind code dispatches) buffer.new result }
{
    let after_number = write_number(buffer, 0, number, BLANK);
    let after_kind = write_number(buffer, after_number, kind, BLANK);
    let after_code = write_number(buffer, after_kind, code, BLANK);
    write_number(buffer, after_code, dispatches, NEWLINE)
}

// Writes permits, which a record has in two's complement, and the end of the line.
fn write_permits(buffer: &mut [u8], at: usize, word: u64) -> usize
    requires { at + 22 ≤ length buffer.old }
    ensures { Wrote 22 buffer.old at (permits_text word) buffer.new result }
{
    let permits = wrapping_add_u64(word, ZERO_PERMITS);
    let end = write_difference(buffer, at, permits, ZERO_PERMITS);
    buffer[end] = NEWLINE;
    end + 1
}

// Writes a text as it is.
fn write_text(buffer: &mut [u8], at: usize, text: &[u8]) -> usize
    requires { at + length text.now ≤ length buffer.old }
    ensures { Wrote (length text.now) buffer.old at text.now buffer.new result }
{
    for i in 0..text.len() {
        buffer[at + i] = text[i];
    }
    at + text.len()
}

// Writes the line of the record that stands at a place of a list.
fn write_dispatch(buffer: &mut [u8], at: usize, list: &[u64], from: usize) -> usize
    requires { (at + 87 ≤ length buffer.old) × (from + 13 ≤ length list.now) }
    ensures { Wrote 87 buffer.old at (dispatch_line (record_read (drop from list.now))) buffer.new result }
{
    let dispatch = read_record(&list[from..]);
    let after_plus = write_text(buffer, at, &[PLUS, BLANK]);
    let after_consumer = write_number(buffer, after_plus, dispatch.consumer, BLANK);
    let after_ledger = write_number(buffer, after_consumer, dispatch.ledger, BLANK);
    let after_entry = write_number(buffer, after_ledger, dispatch.entry, BLANK);
    write_permits(buffer, after_entry, dispatch.permits)
}

// Writes the lines of the first records of a list.
fn write_dispatches(buffer: &mut [u8], at: usize, list: &[u64], count: usize) -> usize
    requires { (at + 87 * count ≤ length buffer.old) × (13 * count ≤ length list.now) }
    ensures { Wrote (87 * count) buffer.old at (dispatch_lines (records_read count list.now)) buffer.new result }
{
    let mut here = at;
    for i in 0..count {
        here = write_dispatch(buffer, here, list, RECORD_WORDS * i);
    }
    here
}

// Writes all lines of a record that is a call, at the start of a buffer: of its answer, and of what a push left in its list.
pub fn write_outcome(buffer: &mut [u8], number: u64, kind: u64, answer: u64, list: &[u64]) -> usize
    requires { (lines_bytes ≤ length buffer.old) × (dispatches_told kind answer ≤ ROOM)
        × (13 * dispatches_told kind answer ≤ length list.now) }
    ensures { Wrote lines_bytes buffer.old 0 (text_told number kind answer list.now) buffer.new result }
{
    let made = dispatches_in(kind, answer);
    let end = write_line(buffer, number, kind, number_in(answer), made);
    write_dispatches(buffer, end, list, made as usize)
}

// Writes the line of a record that is bad, or of the header, which is number 0, at the start of a buffer.
pub fn write_bad(buffer: &mut [u8], number: u64) -> usize
    requires { 25 ≤ length buffer.old }
    ensures { Wrote 25 buffer.old 0 (bad_line number) buffer.new result }
{
    let after_word = write_text(buffer, 0, &[b'b', b'a', b'd', BLANK]);
    write_number(buffer, after_word, number, NEWLINE)
}
