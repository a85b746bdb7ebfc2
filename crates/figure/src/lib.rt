// Figures with a total order, and the cover of a window of them.
#![tactic(auto)]

mod fault;
mod kinds;
mod order;
mod window;

pub use fault::FigureFault;
pub use kinds::{Ratio, Yen};
pub use order::{Figure, same_rank};
pub use window::{cover, enough_not_above};
