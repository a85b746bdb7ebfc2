// The covering ratio of a row.
ghost use Rattle.std.specs.Prelude.{◌≤◌};

use figure::Ratio;

/// The ratio that covers a row at 99 percent. It is at most 1, as all ratios of a row are.
#[derive(Clone, Copy, PartialEq, Eq, Debug)]
pub struct CoveringRatio {
    pub ratio: Ratio,
    /// Its place among the row's ratios, from 0 for the oldest.
    pub place: usize,
    /// How many of the row's ratios are not above it.
    pub count: usize,
    ghost limits: { (ratio.numerator ≤ ratio.denominator) × (ratio.denominator ≤ 800000) },
}
