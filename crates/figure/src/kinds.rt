// The two kinds of figure: signed yen, and ratios.
ghost use Rattle.std.specs.Prelude.{◌≡◌, ◌^◌, ◌<◌, ◌≤◌, MatchOption};

/// Money in whole yen; a loss of value is negative.
#[derive(Clone, Copy, PartialEq, Eq, PartialOrd, Ord, Debug)]
pub struct Yen {
    pub value: i64,
}

/// A ratio of two whole numbers, small enough that two can be compared by their crossed products.
#[derive(Clone, Copy, PartialEq, Eq, Debug)]
pub struct Ratio {
    pub numerator: u32,
    pub denominator: u64,
    ghost limits: { (numerator < 2 ^ 32) × (1 ≤ denominator) × (denominator ≤ 2 ^ 32) },
}

impl Ratio {
    /// The ratio of a numerator below 2^32 and a denominator from 1 to 2^32.
    pub fn new(numerator: u64, denominator: u64) -> Option<Ratio>
        ensures { MatchOption result
            (numerator < 2 ^ 32 → 1 ≤ denominator → denominator ≤ 2 ^ 32 → ⊥)
            (λ q. (q.numerator ≡ numerator) × (q.denominator ≡ denominator)) }
    {
        let numerator = u32::try_from(numerator).ok()?;
        if !(1..=0x1_0000_0000).contains(&denominator) {
            return None;
        }
        Some(Ratio {
            numerator,
            denominator,
        })
    }
}
