// The id of a message: the number of its ledger and that of its entry there. Ids are the same if both numbers are, and are
// ordered by ledger, then by entry, as the fields stand. Contracts see the rules' id in its place, and what `==`, `<` and `<=`
// say is said in the rules' words by `proofs/Orders.antt`.
#![tactic(auto)]

use std::marker::Model;

#[derive(Clone, Copy, Debug, PartialEq, Eq, PartialOrd, Ord)]
pub struct Id {
    pub ledger: u64,
    pub entry: u64,
}

impl Model for Id {
    ghost use Rattle.rules.specs.State.{Id as MessageId};

    ghost Value = { MessageId };

    ghost view = { λ i. record { ledger = i.ledger; entry = i.entry } };

    ghost inverse = { λ i. record { ledger = i.ledger; entry = i.entry } };
}
