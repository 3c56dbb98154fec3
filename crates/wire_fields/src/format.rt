// Numbers of the format that more than one reader or the writer goes by.

// The type of a Message; the other types are those of commands.
pub const MESSAGE: u64 = 9;

// The most words of a Message's ack set.
pub const MOST_ACK_SET_WORDS: u64 = 4;

// Fields of MessageIdData.
pub const LEDGER_ID: u64 = 1;

pub const ENTRY_ID: u64 = 2;

// A uint32 is below this, as are tags and the numbers of types.
pub const UINT32_END: u64 = 0x1_0000_0000;
