// A BaseCommand of type Message read into a record: the type, the message's part, its content, and then the words.
ghost use Rattle.std.specs.Prelude.{◌≡◌, length};
ghost use Rattle.wire.specs.Message.{content_of, message};
ghost use Rattle.wire.specs.Answers.{message_answer, record_after};
ghost use Rattle.wire_fields.specs.Unread.{unread_word};
ghost use Rattle.wire_message.specs.Found.{dispatch_of, content_answer, content_after};

use super::content::{Head, read_content};
use bits::UnackedBits;
use record::{Dispatch, write_record};
use wire_fields::base::read_base;
use wire_fields::format::MESSAGE;
use wire_fields::lay::lay_numbers;
use wire_fields::unread::Unread;

// Its ack words: their field's number, and their place in a record.
const ACK_SET: u64 = 4;

const ACK_SET_AT: usize = 6;

// The record of a Message before its ack words are laid; handle, cost and permits are not on the wire.
impl From<Head> for Dispatch {
    ghost from_gives = { λ head dispatch. dispatch ≡ dispatch_of head };

    #[tactic(auto, unfolding(crate::specs::Found::dispatch_of))]
    fn from(head: Head) -> Dispatch {
        Dispatch {
            consumer: head.consumer,
            ledger: head.id.ledger,
            entry: head.id.entry,
            handle: 0,
            batch_size: head.id.batch_size,
            ack_set_words: head.ack_set_words,
            ack_set: UnackedBits {
                w0: 0,
                w1: 0,
                w2: 0,
                w3: 0,
            },
            redelivery_count: head.redelivery_count,
            cost: 0,
            permits: 0,
        }
    }
}

// Reads a Message's content from its own bytes into a record.
fn fill_record(m: &[u8], record: &mut [u64; 13]) -> Result<(), Unread>
    ensures answer { unread_word (λ _. 0) result ≡ content_answer (content_of m.now) }
    ensures words { «record».new ≡ content_after «record».old (content_of m.now) }
{
    let head = read_content(m).ok_or(Unread::Malformed)?;
    write_record(record, Dispatch::from(head));
    lay_numbers(m, ACK_SET, record, ACK_SET_AT);
    Ok(())
}

// Reads a Message into a record; or says why it is not read, and changes nothing.
pub fn read_message(bytes: &[u8], record: &mut [u64; 13]) -> Result<(), Unread>
    ensures answer { unread_word (λ _. 0) result ≡ message_answer (message bytes.now) }
    ensures words { «record».new ≡ record_after «record».old (message bytes.now) }
{
    let base = read_base(bytes).ok_or(Unread::Malformed)?;
    // The one type that is read here; CommandType has the six commands.
    if base.kind != MESSAGE {
        return Err(Unread::OtherType);
    }
    let place = base.message.ok_or(Unread::Malformed)?;
    fill_record(&bytes[place.start..place.next], record)
}
