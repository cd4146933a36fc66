//! Equality of windows, and their order: by the offsets from the second on, and then by the first.

ghost use Rattle.std.specs.Prelude.{refl};
ghost use Rattle.std.specs.Ordering.{int_eq, as_partial_cmp};
ghost use Rattle.std.specs.Cmp.{partial_equiv_from_equiv, partial_order_from_agreeing_total};
ghost use Rattle.std.specs.Cmp.Lexicographic.{pointwise, lists_equiv};
ghost use Rattle.std.proofs.lemmas.Cmp.{int_eq_equiv};
ghost use Rattle.cps_nodes.specs.WindowOrder.{window_cmp, window_cmp_total, window_ties};

use crate::window::Window;
use std::cmp::Ordering;

/// Two are equal exactly where they have the same offsets.
impl<const W: usize> PartialEq for Window<W> {
    ghost eq = { pointwise int_eq };

    ghost laws = { partial_equiv_from_equiv (lists_equiv int_eq_equiv) };

    #[inline]
    fn eq(&self, other: &Window<W>) -> bool {
        self.has_same_offsets(other)
    }
}

impl<const W: usize> Eq for Window<W> {
    ghost laws = { lists_equiv int_eq_equiv };
}

/// The offsets from the second on are compared first, so the windows that lead to one window stand side by side.
impl<const W: usize> Ord for Window<W> {
    ghost cmp = { window_cmp };

    ghost total = { window_cmp_total };

    ghost matches_partial_cmp = { λ x y. refl };

    ghost matches_eq = { window_ties };

    #[inline]
    fn cmp(&self, other: &Window<W>) -> Ordering {
        self.compare(other)
    }
}

impl<const W: usize> PartialOrd for Window<W> {
    ghost partial_cmp = { as_partial_cmp window_cmp };

    ghost laws = { partial_order_from_agreeing_total window_cmp window_cmp_total (λ x y. refl)
        window_ties };

    #[inline]
    fn partial_cmp(&self, other: &Window<W>) -> Option<Ordering> {
        Some(self.compare(other))
    }
}
