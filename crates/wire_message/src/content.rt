// The content of a Message, read from its own bytes: consumer, id, redelivery count, and how many ack words there are. Nothing
// is written here, so that what is not right is refused before a word of the record changes.
ghost use Rattle.std.specs.Prelude.{◌≡◌};
ghost use Rattle.wire.specs.Message.{content_of};
ghost use Rattle.wire_fields.specs.Found.{answered, as_is};
ghost use Rattle.wire_message.specs.Found.{id_of_bytes, ack_count, head_of};

use wire_fields::field::{DELIMITED, VARINT, WIRE_TYPES};
use wire_fields::format::{ENTRY_ID, LEDGER_ID, MOST_ACK_SET_WORDS};
use wire_fields::pick::pick;
use wire_fields::select::Width;

// An id with its batch size.
#[derive(Clone, Copy)]
pub struct BatchId {
    pub ledger: u64,
    pub entry: u64,
    pub batch_size: u64,
}

// A Message's numbers, and how many ack words it has.
#[derive(Clone, Copy)]
pub struct Head {
    pub consumer: u64,
    pub id: BatchId,
    pub redelivery_count: u64,
    pub ack_set_words: u64,
}

// Fields of MessageIdData.
const LEDGER: u64 = LEDGER_ID * WIRE_TYPES + VARINT;

const ENTRY: u64 = ENTRY_ID * WIRE_TYPES + VARINT;

const BATCH_SIZE: u64 = 6 * WIRE_TYPES + VARINT;

// Fields of CommandMessage.
const CONSUMER_ID: u64 = 1 * WIRE_TYPES + VARINT;

const MESSAGE_ID: u64 = 2 * WIRE_TYPES + DELIMITED;

const REDELIVERY_COUNT: u64 = 3 * WIRE_TYPES + VARINT;

const ACK_SET: u64 = 4 * WIRE_TYPES + VARINT;

// The id of its own bytes.
fn id_of(m: &[u8]) -> Option<BatchId>
    ensures { result ≡ answered as_is (id_of_bytes m.now) }
{
    let [x, y, z] = pick(m, [LEDGER, ENTRY, BATCH_SIZE])?;
    let ledger = x.required(Width::Uint64)?;
    let entry = y.required(Width::Uint64)?;
    let batch_size = z.optional(Width::Count)?;
    Some(BatchId {
        ledger,
        entry,
        batch_size,
    })
}

// How many ack words there are, at most four.
fn ack_words(m: &[u8]) -> Option<u64>
    ensures { result ≡ answered as_is (ack_count m.now) }
{
    let [x] = pick(m, [ACK_SET])?;
    x.several(MOST_ACK_SET_WORDS)
}

// The content of its own bytes.
pub fn read_content(m: &[u8]) -> Option<Head>
    ensures { result ≡ answered head_of (content_of m.now) }
{
    let [x, y, z] = pick(m, [CONSUMER_ID, MESSAGE_ID, REDELIVERY_COUNT])?;
    let consumer = x.required(Width::Uint64)?;
    let part = y.part()?;
    let id = id_of(&m[part.start..part.next])?;
    let redelivery_count = z.optional(Width::Uint32)?;
    let ack_set_words = ack_words(m)?;
    Some(Head {
        consumer,
        id,
        redelivery_count,
        ack_set_words,
    })
}
