// The parts of a command that are one of two: the kind of a consumer, and where a seek goes.
#![tactic(auto)]

// How a consumer receives: alone, or as one of a ring.
#[derive(Clone, Copy, Debug, PartialEq, Eq)]
pub enum Kind {
    Plain,
    Shared,
}

// Its number, as a store has it: 0 for plain, 1 for shared.
impl From<Kind> for u64 {
    ghost use Rattle.std.specs.Prelude.{◌≡◌};
    ghost use Rattle.command_parts.specs.Parts.{kind_number};

    ghost from_gives = { λ kind number. number ≡ kind_number kind };

    fn from(kind: Kind) -> u64 {
        match kind {
            Kind::Plain => 0,
            Kind::Shared => 1,
        }
    }
}

// From a number: 0 is plain, anything else shared.
impl From<u64> for Kind {
    ghost use Rattle.std.specs.Prelude.{◌≡◌};
    ghost use Rattle.rules.specs.Calls.{kind_from};
    ghost use Rattle.command_parts.specs.Parts.{kind_of};

    ghost from_gives = { λ number kind. kind_of kind ≡ kind_from number };

    fn from(number: u64) -> Kind {
        if number == 0 {
            Kind::Plain
        } else {
            Kind::Shared
        }
    }
}

// Where a seek goes: the start, or the id of a message by ledger and entry: two numbers, since three of the four users read them
// from words or bytes or write them as words, and only a seek makes an id of them.
#[derive(Clone, Copy, Debug, PartialEq, Eq)]
pub enum Target {
    Start,
    Id(u64, u64),
}

impl Target {
    ghost use Rattle.std.specs.Prelude.{◌≡◌};
    ghost use Rattle.rules.specs.Calls.{target_from};
    ghost use Rattle.command_parts.specs.Parts.{target_of};

    // From numbers: 0 is the start, anything else the id. Not a `From`: three words are no value of one type.
    pub fn from_words(target: u64, ledger: u64, entry: u64) -> Target
        ensures { target_of result ≡ target_from target ledger entry }
    {
        if target == 0 {
            Target::Start
        } else {
            Target::Id(ledger, entry)
        }
    }
}
