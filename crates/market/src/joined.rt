// Two sources as one.
ghost use Rattle.market.specs.Joining.{joined_price};
ghost use Rattle.std.specs.Prelude.{◌≡◌, IsSome};

use crate::source::PriceSource;

/// Two sources of any kind: the second is consulted only where the first has no price.
#[derive(Drop)]
pub struct Joined<A, B> {
    pub first: A,
    pub second: B,
}

// In an impl with parameters the value of `Self::LETTER` is not known to the prover, that of this constant is.
const JOINED_LETTER: u8 = b'J';

impl<P: PriceSource, Q: PriceSource> PriceSource for Joined<P, Q> {
    const LETTER: u8 = JOINED_LETTER;

    ghost means = { λ s. joined_price (P.means s.first) (Q.means s.second) };

    ghost mark = { 74 };

    // The first two clauses are the trait's, which have to stand again before another.
    fn consult(&mut self, code: u32) -> Option<u32>
        ensures answer { result
            ≡ joined_price (P.means self.old.first) (Q.means self.old.second) code }
        ensures meaning_stays { joined_price (P.means self.new.first) (Q.means self.new.second)
            ≡ joined_price (P.means self.old.first) (Q.means self.old.second) }
        ensures second_only_where_first_has_none { IsSome (P.means self.old.first code)
            → self.new.second ≡ self.old.second }
    {
        // The joined source takes the Option apart itself: that form is a rule of the project.
        match self.first.consult(code) {
            Some(price) => Some(price),
            None => self.second.consult(code),
        }
    }

    fn source_letter(&self) -> u8 {
        JOINED_LETTER
    }
}
