// A number for each row of a table, added up.
ghost use Rattle.std.specs.Prelude.{◌≡◌, ℕ, ◌<◌, ◌≤◌};
ghost use Rattle.push_plain.specs.Sum.{AddedUp};

// The numbers of `n` rows, at most 32 and at most 8,192 for each. A loop and no `sum` of `map`: that asks that each part of a
// run fits and answers by the run's items, both by induction on runs, where the loop's invariant says them at once.
pub fn added_up<F: Fn(usize) -> usize>(n: usize, number: F) -> usize
    requires callable { (i : ℕ) → i < n → F.pre number i }
    requires small { (i r : ℕ) → i < n → F.post number i r → r ≤ 8192 }
    requires few { n ≤ 32 }
    ensures { AddedUp (F.post number) n result }
{
    let mut sum = 0;
    for i in 0..n {
        sum += number(i);
    }
    sum
}
