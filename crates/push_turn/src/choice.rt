// The choice of a turn: the first place of a ring, from next on and going round, whose consumer has
// permits above 0. A ring is given as the slots of its consumers; the slot past the last stands for an
// id that is not live, and has none.
ghost use Rattle.std.specs.Prelude.{◌≡◌, ◌<◌, ◌≤◌, IfSome, length, get_or, position};
ghost use Rattle.rules.specs.Permits.{above_zero};
ghost use Rattle.push_turn.specs.Turns.{place_named, first_place};

use store::permits::ZERO_PERMITS;

// Whether the consumer in slot `c` has permits above 0.
fn has_permits(permits: &[u64], c: usize) -> bool
    ensures { result ≡ above_zero (get_or permits.now c 0) }
{
    let Some(held) = permits.get(c) else {
        return false;
    };
    ZERO_PERMITS < *held
}

// The first place of a part of a ring whose consumer has permits above 0.
fn ready(part: &[usize], permits: &[u64]) -> Option<usize>
    ensures { result ≡ position (λ c. above_zero (get_or permits.now c 0)) part.now }
{
    part.iter().position(|&c| has_permits(permits, c))
}

// The first place from `next` on, going round.
pub(crate) fn choose(ring: &[usize], permits: &[u64], next: usize) -> Option<usize>
    requires { next ≤ length ring.now }
    ensures place { place_named ring.now result ≡ first_place ring.now permits.now next }
    ensures within { IfSome result (λ r. r < length ring.now) }
{
    if let Some(further) = ready(&ring[next..], permits) {
        return Some(next + further);
    }
    ready(&ring[..next], permits)
}
