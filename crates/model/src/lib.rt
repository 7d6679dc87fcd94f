// The words of the subject: cells, offsets and starts, refusals, and the lines that answers are printed as.
#![tactic(auto)]

mod cell;
mod line;
mod numbers;
mod refusal;
mod times;

pub use cell::{Cell, CellId};
pub use line::{accepted_line, refused_line};
pub use refusal::{Clash, PairRule, Refusal};
pub use times::{Offset, Start};
