// A run of price records, and the row that a listing makes of it.
ghost use Rattle.statement.specs.Runs.{other_issue, Listed};
ghost use Rattle.statement.specs.declared.runs.NoRow.TheVariants.{Memory};
ghost use Rattle.std.specs.Prelude.{◌≡◌};

use crate::moves::{CoveringMove, NoMove, covering_move};
use record::Quote;
use std::alloc::{AllocError, Global};

/// The row that a listing makes of the run of prices before it.
#[derive(Clone, Copy, PartialEq, Eq, Debug)]
pub struct ListedRow {
    /// How many prices the run has.
    pub prices: usize,
    pub covering: CoveringMove,
}

/// Why a listing makes no row.
#[derive(Clone, Copy, PartialEq, Eq, Debug)]
pub enum NoRow {
    /// The run holds a price of another issue, the first of these.
    OtherIssue { code: u32 },
    /// So many prices have no covering move.
    NoCoveringMove { prices: usize, cause: NoMove },
    Memory(AllocError),
}

impl From<AllocError> for NoRow {
    ghost from_gives = { λ e r. r ≡ Memory e };

    fn from(e: AllocError) -> NoRow {
        NoRow::Memory(e)
    }
}

/// The first code in the run that is not the given one.
fn other_issue(run: &[Quote], code: u32) -> Option<u32>
    ensures { result ≡ other_issue code run.now }
{
    run.iter()
        .map(|quote| quote.code)
        .find(|named| *named != code)
}

/// What the run before a listing of this code makes.
pub fn listed_run(heap: Global, run: &[Quote], code: u32) -> Result<ListedRow, NoRow>
    ensures { Listed run.now code result }
{
    if let Some(code) = other_issue(run, code) {
        return Err(NoRow::OtherIssue { code });
    }
    let prices: Vec<u32> = run.iter().map(|quote| quote.price).collect(heap)?;
    let count = prices.len();
    let covering = covering_move(heap, &prices).map_err(|cause| NoRow::NoCoveringMove {
        prices: count,
        cause,
    })?;
    Ok(ListedRow {
        prices: count,
        covering,
    })
}
