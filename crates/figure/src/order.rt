// A kind of figure, and its order.
ghost use Rattle.figure.specs.Orders.{TotalOrder, Equivalence, same_rank, yen_upto, ratio_upto};
ghost use Rattle.std.specs.Prelude.{◌≡◌, Bool};
ghost use Rattle.std.proofs.Common.{rules};
ghost use Rattle.figure.specs.Products.{ratio_order};

use crate::kinds::{Ratio, Yen};

/// Figures of one kind, any two of which compare. Two of which neither is above the other share one rank.
// This is not std's `Ord`, which has figures of one rank be `==`: ratios are `==` where both parts are, as callers were
// promised, and so 1/2 and 2/4 are not.
pub trait Figure {
    /// Whether the first figure is not above the second.
    ghost upto: { Self → Self → Bool };

    /// Whether this figure is not above the other.
    fn not_above(&self, other: &Self) -> bool
        ensures { result ≡ upto self.now other.now };

    ghost ordered: { TotalOrder upto };
}

impl Figure for Yen {
    ghost upto = { yen_upto };

    ghost ordered = { Prim.search rules };

    fn not_above(&self, other: &Yen) -> bool {
        self <= other
    }
}

impl Figure for Ratio {
    ghost upto = { ratio_upto };

    ghost ordered = { ratio_order };

    fn not_above(&self, other: &Ratio) -> bool {
        u64::from(self.numerator) * other.denominator
            <= u64::from(other.numerator) * self.denominator
    }
}

/// Whether neither of two figures is above the other.
pub fn same_rank<F: Figure>(x: &F, y: &F) -> bool
    ensures answer { result ≡ same_rank F.upto x.now y.now }
    ensures ranks_part_the_figures { Equivalence (same_rank F.upto) }
{
    x.not_above(y) && y.not_above(x)
}
