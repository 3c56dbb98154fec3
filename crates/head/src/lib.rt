// The four numbers of a dispatcher that move together: its next slot, cursor, mark-delete and total
// available permits. Each move is a method of the whole record, by value; a thin method makes the same
// move on a record that is lent. Nothing here knows of a store.
#![tactic(auto)]

#[derive(Clone, Copy)]
pub struct Head {
    pub next: usize,
    pub cursor: usize,
    pub mark_delete: usize,
    pub total_available_permits: u64,
}

impl Head {
    ghost use Rattle.std.specs.Prelude.{◌≡◌, ◌≤◌};
    ghost use Rattle.head.specs.Moves.{dispatched, advanced};

    // A turn of push: next and the cursor stand where they are put, and the cost leaves the total.
    pub fn dispatched(self, next: usize, cursor: usize, cost: u64) -> Head
        requires { cost ≤ self.total_available_permits }
        ensures { result ≡ dispatched self next cursor cost }
    {
        Head {
            next,
            cursor,
            total_available_permits: self.total_available_permits - cost,
            ..self
        }
    }

    // The end of an ack: mark-delete stands where it is put.
    pub fn advanced(self, mark_delete: usize) -> Head
        ensures { result ≡ advanced self mark_delete }
    {
        Head {
            mark_delete,
            ..self
        }
    }

    // A turn of push on numbers that are lent.
    pub fn dispatch(&mut self, next: usize, cursor: usize, cost: u64)
        requires { cost ≤ self.old.total_available_permits }
        ensures { self.new ≡ dispatched self.old next cursor cost }
    {
        *self = self.dispatched(next, cursor, cost);
    }

    // The end of an ack on numbers that are lent.
    pub fn advance(&mut self, mark_delete: usize)
        ensures { self.new ≡ advanced self.old mark_delete }
    {
        *self = self.advanced(mark_delete);
    }
}
