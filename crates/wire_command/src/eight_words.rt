// The eight words of a command, as the operations' exports take them.
ghost use Rattle.std.specs.Prelude.{◌≡◌};
ghost use Rattle.wire_command.specs.Found.{words_of};
ghost use Rattle.wire_command.specs.InNumbers.{words_of_numbers};

use super::command;
use super::in_numbers::Command;

// The consumer, the request, then what its export takes.
#[tactic(auto, unfolding(crate::specs::InNumbers::words_of_numbers))]
fn words(c: Command) -> [u64; 8]
    ensures { result ≡ words_of_numbers c }
{
    match c {
        Command::Subscribe(s) => [
            s.consumer,
            s.request,
            s.kind,
            s.topic.start,
            s.topic.size,
            s.subscription.start,
            s.subscription.size,
            0,
        ],
        Command::Flow(consumer, permits) => [consumer, 0, permits, 0, 0, 0, 0, 0],
        Command::Ack(consumer, size) => [consumer, 0, size, 0, 0, 0, 0, 0],
        Command::Seek(s) => [
            s.consumer,
            s.request,
            s.target.kind,
            s.target.ledger,
            s.target.entry,
            0,
            0,
            0,
        ],
        Command::Redeliver(consumer, size) => [consumer, 0, size, 0, 0, 0, 0, 0],
        Command::Close(consumer, request) => [consumer, request, 0, 0, 0, 0, 0, 0],
    }
}

// The words of a command that was read. A kind is 0 for plain and 1 for shared, a target is three words of which the first is 0 for
// the start and 1 for an id.
impl From<command::Command> for [u64; 8] {
    ghost from_gives = { λ command eight. eight ≡ words_of command };

    #[tactic(auto, using(crate::proofs::InNumbers::same_words))]
    fn from(c: command::Command) -> [u64; 8] {
        words(Command::from(c))
    }
}

// Writes the words of a command in numbers, whatever its kind or its target.
pub fn write_words(command: &mut [u64; 8], c: Command)
    ensures { command.new ≡ words_of_numbers c }
{
    *command = words(c);
}
