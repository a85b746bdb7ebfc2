// The covering move of a run of prices.
ghost use Rattle.statement.specs.Movement.{RatiosOf, IsCoveringMove};
ghost use Rattle.statement.specs.declared.moves.NoMove.TheVariants.{Memory, Cover};
ghost use Rattle.std.specs.Prelude.{◌≡◌};

use figure::{FigureFault, Ratio, cover};
use std::alloc::{AllocFailed, Global};

/// At least so many in a hundred of a run's moves are not above its covering one.
const PERCENT: u32 = 99;

/// How far an issue moved on its covering day, over the price that it moved from.
// Not the market's covering ratio, which is a row's: a run has no limits, so that nothing bounds this.
#[derive(Clone, Copy, PartialEq, Eq, Debug)]
pub struct CoveringMove {
    pub ratio: Ratio,
    /// The move's place among the moves of the run, from 0.
    pub place: usize,
    /// How many moves are not above it.
    pub not_above: usize,
    /// How many moves the run has.
    pub days: usize,
}

/// Why a run of prices has no covering move.
#[derive(Clone, Copy, PartialEq, Eq, Debug)]
pub enum NoMove {
    /// There is no move from one price to the next.
    TooFew,
    /// A move from a price of zero has no ratio.
    ZeroPrice,
    Cover(FigureFault),
    Memory,
}

impl From<FigureFault> for NoMove {
    ghost from_gives = { λ f r. r ≡ Cover f };

    fn from(fault: FigureFault) -> NoMove {
        NoMove::Cover(fault)
    }
}

impl<T: Drop> From<AllocFailed<T>> for NoMove {
    ghost from_gives = { λ _ r. r ≡ Memory };

    fn from(_e: AllocFailed<T>) -> NoMove {
        NoMove::Memory
    }
}

/// The ratio of each move from one price to the next. A run is no row of the market: it has no limits, so that a move
/// may start from zero.
fn ratios(heap: Global, prices: &[u32]) -> Result<Vec<Ratio>, NoMove>
    ensures { RatiosOf prices.now result }
{
    let mut ratios = Vec::new(heap);
    let [first, rest @ ..] = prices else {
        return Ok(ratios);
    };
    let mut earlier = *first;
    for later in rest {
        let far = u64::from(later.abs_diff(earlier));
        let ratio = Ratio::new(far, u64::from(earlier)).ok_or(NoMove::ZeroPrice)?;
        ratios.push(ratio)?;
        earlier = *later;
    }
    Ok(ratios)
}

/// The lowest of the moves that at least 99 in 100 are not above.
pub fn covering_move(heap: Global, prices: &[u32]) -> Result<CoveringMove, NoMove>
    ensures { IsCoveringMove prices.now result }
{
    let ratios = ratios(heap, prices)?;
    let (place, not_above) = cover(&ratios, PERCENT)?.ok_or(NoMove::TooFew)?;
    Ok(CoveringMove {
        ratio: ratios[place],
        place,
        not_above,
        days: ratios.len(),
    })
}
