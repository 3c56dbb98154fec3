// The Message of a record, from the inside out. An id and a message's content take fewer than 128 bytes, so that their
// lengths are one byte each: it is left open while the bytes after it are written, and filled in when their number is known.
ghost use Rattle.std.specs.Prelude.{◌≡◌, ◌+◌, ◌≤◌, length, get_or, IfOk};
ghost use Rattle.wire.specs.Message.{number_bytes, part_bytes, content_bytes, message_bytes};
ghost use Rattle.wire.specs.Answers.{message_from, writable, write_message, bytes_answer, buffer_after};
ghost use Rattle.words.specs.Wrote.{Wrote};
ghost use Rattle.wire_fields.specs.Found.{as_is};
ghost use Rattle.wire_fields.specs.Unread.{unread_word};
ghost use Rattle.wire_write.specs.Numbers.{id_numbers};

use super::fields::{write_ack_set, write_number};
use wire_fields::format::{MESSAGE, MOST_ACK_SET_WORDS, UINT32_END};
use wire_fields::unread::Unread;

// The bytes that a buffer has at least.
const BUFFER_BYTES: usize = 256;

// The largest batch size.
const MOST_BATCH_SIZE: u64 = 256;

// -1 as int32 is written, in ten bytes.
const MINUS_ONE: u64 = 18_446_744_073_709_551_615;

// The tags of a part: of the id in the content, and of the content in the BaseCommand.
const ID_TAG: u8 = 18;

const CONTENT_TAG: u8 = 74;

// Writes the batch size of an id, also where it is 0.
fn write_batch_size(buffer: &mut [u8], at: usize, batch_size: u64) -> usize
    requires { at + 11 ≤ length buffer.old }
    ensures { Wrote 11 buffer.old at (number_bytes 6 batch_size) buffer.new result }
{
    write_number(buffer, at, 6, batch_size)
}

// Writes the numbers of an id: ledger, entry, no partition, no batch index, the batch size.
fn write_id_numbers(buffer: &mut [u8], at: usize, ledger: u64, entry: u64, batch_size: u64) -> usize
    requires { at + 55 ≤ length buffer.old }
    ensures { Wrote 55 buffer.old at (id_numbers ledger entry batch_size) buffer.new result }
{
    let after_ledger = write_number(buffer, at, 1, ledger);
    let after_entry = write_number(buffer, after_ledger, 2, entry);
    let after_partition = write_number(buffer, after_entry, 3, MINUS_ONE);
    let after_batch_index = write_number(buffer, after_partition, 4, MINUS_ONE);
    write_batch_size(buffer, after_batch_index, batch_size)
}

// Writes an id as the content's field 2.
fn write_id(buffer: &mut [u8], at: usize, ledger: u64, entry: u64, batch_size: u64) -> usize
    requires { at + 57 ≤ length buffer.old }
    ensures { Wrote 57 buffer.old at (part_bytes 2 (id_numbers ledger entry batch_size)) buffer.new result }
{
    buffer[at] = ID_TAG;
    let end = write_id_numbers(buffer, at + 2, ledger, entry, batch_size);
    buffer[at + 1] = (end - (at + 2)) as u8;
    end
}

// Writes the content of a record's Message: consumer, id, redelivery count, ack words. The record is read by word numbers: its ack
// words are lent as they stand there, and a `Dispatch` has four fields for them, which would have to become words again.
fn write_content(buffer: &mut [u8], at: usize, record: &[u64; 13]) -> usize
    requires { (get_or «record».now 5 0 ≤ 4) × (at + 123 ≤ length buffer.old) }
    ensures { Wrote 123 buffer.old at (content_bytes (message_from «record».now)) buffer.new result }
{
    let after_consumer = write_number(buffer, at, 1, record[0]);
    let after_id = write_id(buffer, after_consumer, record[1], record[2], record[4]);
    let after_redelivery_count = write_number(buffer, after_id, 3, record[10]);
    let ack_set_end = 6 + record[5] as usize;
    write_ack_set(buffer, after_redelivery_count, &record[6..ack_set_end])
}

// Writes a record's Message as a BaseCommand at the start of a buffer: the type, and the content as its field.
fn write_command(buffer: &mut [u8], record: &[u64; 13]) -> usize
    requires { (get_or «record».now 5 0 ≤ 4) × (256 ≤ length buffer.old) }
    ensures { Wrote 136 buffer.old 0 (message_bytes (message_from «record».now)) buffer.new result }
{
    let at = write_number(buffer, 0, 1, MESSAGE);
    buffer[at] = CONTENT_TAG;
    let end = write_content(buffer, at + 2, record);
    buffer[at + 1] = (end - (at + 2)) as u8;
    end
}

// Whether a record can be written: its count of words, its batch size and its redelivery count are in range.
#[tactic(auto, unfolding(wire::specs::Answers::writable))]
fn can_write(record: &[u64; 13]) -> bool
    ensures { result ≡ writable «record».now }
{
    if MOST_ACK_SET_WORDS < record[5] {
        return false;
    }
    if MOST_BATCH_SIZE < record[4] {
        return false;
    }
    record[10] < UINT32_END
}

// Writes a record's Message as a BaseCommand at the start of a buffer and answers how many bytes it has; or writes nothing, where
// the record is out of limits or the buffer short.
pub fn write_message(record: &[u64; 13], buffer: &mut [u8]) -> Result<usize, Unread>
    ensures answer { unread_word as_is result ≡ bytes_answer (write_message buffer.old «record».now) }
    ensures short { IfOk result (λ size. size ≤ 136) }
    ensures bytes { buffer.new ≡ buffer_after buffer.old (write_message buffer.old «record».now) }
{
    if buffer.len() < BUFFER_BYTES {
        return Err(Unread::Malformed);
    }
    if !can_write(record) {
        return Err(Unread::Malformed);
    }
    Ok(write_command(buffer, record))
}
