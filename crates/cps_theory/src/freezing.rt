//! What a move of the horizon freezes.

ghost use Rattle.std.specs.Prelude.{ℕ, ◌+◌, ◌-◌, ◌≤◌, List, length, Bool, max};
ghost use Rattle.cps_theory.specs.RankLists.{Distinct, In, above};
ghost use Rattle.cps_theory.specs.LegalPrefix.{EachFits, OrderRules};
ghost use Rattle.cps_theory.specs.Freeze.{FirstCome, KeepsCountedShift, overtook, staying_of};

/// When the flights that land before h freeze, those that stay keep the shift rule among themselves, even if
/// each may go back less by as many places as flights overtook it.
pub fn staying_flights_keep_the_shift()
    ensures { (comes_before : ℕ → ℕ → Bool) → FirstCome comes_before →
        (t : ℕ → ℕ) (waiting : List ℕ) (k h : ℕ) (back : ℕ → ℕ) → Distinct waiting →
        ((f : ℕ) → In f waiting → KeepsCountedShift k back comes_before t waiting f) →
        (f : ℕ) → In f waiting → h ≤ t f →
        KeepsCountedShift k (λ g. back g - overtook comes_before t h waiting g) comes_before t
        (staying_of t h waiting) f }
{}

/// Among the ranks of a legal prefix, those above r are at most max(r, p + k) - r, where p is its length: few
/// flights overtake one.
pub fn few_later_ranks_land_before()
    ensures { (g : OrderRules) (rs : List ℕ) (r : ℕ) → EachFits g rs
        → above r rs + r ≤ max r (length rs + g.most) }
{}
