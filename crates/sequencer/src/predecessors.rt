// Which ranks must land before which.
ghost use Rattle.std.specs.Prelude.{◌≡◌, ℕ, ◌≤◌, ◌↔◌, ◌⊎◌, length, map};
ghost use Rattle.precedence.specs.Pairs.{MustPrecede};
ghost use Rattle.cps_base.specs.Limits.{most_waiting};
ghost use Rattle.sequencer.specs.Predecessors.{IsListed};

use precedence::Pairs;
use situations::Active;

// Adds each rank whose flight that of this rank lists.
fn add_predecessors(pairs: &mut Pairs, ranked: &Vec<&Active>, next: u8)
    requires few { length ranked.now.items ≤ most_waiting }
    requires next { (1 ≤ next) × (next ≤ length ranked.now.items) }
    ensures { (i j : ℕ) → MustPrecede pairs.new i j
        ↔ (MustPrecede pairs.old i j ⊎ ((j ≡ next) × IsListed (map (λ a. a.now) ranked.now.items)
        i j)) }
{
    let follower = ranked[next as usize - 1];
    if follower.flight.after.len() == 0 {
        return;
    }
    for first in 1..ranked.len() as u8 + 1 {
        let leader = ranked[first as usize - 1];
        if follower.lists(leader.flight.callsign) {
            pairs.add(first, next);
        }
    }
}

/// The pairs of ranks of these flights: the first of a pair is a flight that the next lists.
pub(crate) fn pairs_of(ranked: &Vec<&Active>) -> Pairs
    requires { length ranked.now.items ≤ most_waiting }
    ensures { (i j : ℕ) → MustPrecede result i j
        ↔ IsListed (map (λ a. a.now) ranked.now.items) i j }
{
    let mut pairs = Pairs::new();
    for next in 1..ranked.len() as u8 + 1 {
        add_predecessors(&mut pairs, ranked, next);
    }
    pairs
}
