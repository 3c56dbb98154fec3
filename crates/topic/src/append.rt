// A message at the end of a topic's ledger.
ghost use Rattle.std.specs.Prelude.{◌≡◌, ◌<◌, length};
ghost use Rattle.rules.specs.Ledger.{appended};
ghost use Rattle.layout.specs.Fields.{topic_now, topic_changed};
ghost use Rattle.layout.specs.Placed.{TopicIn};
ghost use Rattle.topic.specs.Ids.{message_of};

use super::message::StoredMessage;
use super::table::message_list;

// Topic `t`, which has room, gains a message at its end.
pub fn append_message(store: &mut [u64], e: usize, t: usize, message: StoredMessage)
    requires { TopicIn e store.old t × (length (topic_now store.old t).messages < e) }
    ensures { store.new ≡ topic_changed store.old t
        (appended (message_of message.ledger message.entry message.handle message.batch_size)) }
{
    let words = [
        message.ledger,
        message.entry,
        message.handle,
        message.batch_size,
    ];
    message_list(e, t).push(store, words);
}
