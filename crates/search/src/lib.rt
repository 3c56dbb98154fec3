// A row sought among some: they are looked at one by one, by number, until one passes a test. A loop and no `find`, which is
// compiled to a longer turn: a push with nothing due in full rings took half as long again.
#![tactic(auto)]

ghost use Rattle.std.specs.Prelude.{ℕ, ◌<◌};
ghost use Rattle.search.specs.First.{First};

// The number of the first of `count` rows that passes a test.
pub fn first_row<F: Fn(usize) -> bool>(count: usize, passes: F) -> Option<usize>
    requires { (i : ℕ) → i < count → F.pre passes i }
    ensures { First count (F.post passes) result }
{
    for i in 0..count {
        if passes(i) {
            return Some(i);
        }
    }
    None
}
