// The cover of a window of figures, and what it bounds.
ghost use Rattle.figure.specs.Refusal.{denial};
ghost use Rattle.figure.specs.Cover.{not_above, Covers, Answered, FreeInPlaceOnly};
ghost use Rattle.figure.specs.Choice.{RanksWithChoice, enough_answer, BoundedByCover};
ghost use Rattle.std.specs.Prelude.{◌≡◌, ◌*◌, ◌≤◌, nat_le, length, IfOk, MatchOption};
ghost use Rattle.std.specs.Result.{result_err};

use crate::fault::FigureFault;
use crate::order::Figure;

/// The most figures that a window may have.
const WINDOW_LIMIT: usize = 4096;

/// A window of which so many percent are to be covered, where neither is refused.
#[derive(Drop)]
struct Coverage<'a, F> {
    window: &'a [F],
    percent: u32,
    ghost percents: { (1 ≤ percent) × (percent ≤ 100) },
    ghost size: { length window.now ≤ 4096 },
}

impl<'a, F: Figure> Coverage<'a, F> {
    fn new(window: &'a [F], percent: u32) -> Result<Self, FigureFault>
        ensures answer { result_err result ≡ denial percent (length window.now) }
        ensures made { IfOk result (λ c. (c.window.now ≡ window.now) × (c.percent ≡ percent)) }
    {
        if !(1..=100).contains(&percent) {
            return Err(FigureFault::Percent);
        }
        if window.len() > WINDOW_LIMIT {
            return Err(FigureFault::Window);
        }
        Ok(Coverage { window, percent })
    }

    /// How many figures of the window are not above `top`.
    fn count_not_above(&self, top: &F) -> usize
        ensures value { result ≡ not_above F.upto self.now.window.now top.now }
        ensures bound { result ≤ length self.now.window.now }
    {
        // A chain of `filter` and `count` makes the cover take two to four times as long.
        let mut count = 0;
        for figure in self.window {
            if figure.not_above(top) {
                count += 1;
            }
        }
        count
    }

    /// Whether so many figures are the percent of the window that is to be covered.
    fn is_reached_by(&self, count: usize) -> bool
        requires { count ≤ length self.now.window.now }
        ensures { result ≡ nat_le (self.now.percent * length self.now.window.now) (100 * count) }
    {
        self.percent as usize * self.window.len() <= 100 * count
    }

    /// The place of a lowest figure that covers the window, and how many figures are not above it.
    fn lowest(&self) -> Option<(usize, usize)>
        ensures { MatchOption result (length self.now.window.now ≡ 0)
            (λ b. Covers F.upto self.now.window.now self.now.percent b.0 b.1) }
    {
        let mut best: Option<(usize, usize)> = None;
        // The highest figure so far that covers too little: what is not above it need not be counted.
        let mut short: Option<&F> = None;
        for (place, figure) in self.window.iter().enumerate() {
            if short.is_some_and(|short| figure.not_above(short))
                || best.is_some_and(|(lowest, _)| self.window[lowest].not_above(figure))
            {
                continue;
            }
            let count = self.count_not_above(figure);
            if self.is_reached_by(count) {
                best = Some((place, count));
            } else {
                short = Some(figure);
            }
        }
        best
    }
}

/// The cover of the window at so many percent: the place of the lowest figure that has at least that share
/// of the window not above it, and how many figures are not above it. An empty window has none.
/// Refuses a percent outside 1 to 100 (27), then a window of more than 4,096 figures (28).
// The cover answers a pair, which its callers take apart: that form is a rule of the project.
pub fn cover<F: Figure>(window: &[F], percent: u32) -> Result<Option<(usize, usize)>, FigureFault>
    ensures answer { Answered F.upto window.now percent result }
    ensures free_in_place_only { FreeInPlaceOnly F.upto window.now percent result }
    ensures ranks_with_choice { RanksWithChoice F.upto window.now percent result }
{
    Ok(Coverage::new(window, percent)?.lowest())
}

/// Whether at least so many percent of the window are not above `figure`, which need not stand in the window.
/// That is so of every figure where the window is empty, and else of those that its cover is not above.
pub fn enough_not_above<F: Figure>(
    window: &[F],
    percent: u32,
    figure: &F,
) -> Result<bool, FigureFault>
    ensures answer { result ≡ enough_answer F.upto window.now percent figure.now }
    ensures bounded_by_cover { BoundedByCover F.upto window.now percent figure.now result }
{
    let coverage = Coverage::new(window, percent)?;
    Ok(coverage.is_reached_by(coverage.count_not_above(figure)))
}
