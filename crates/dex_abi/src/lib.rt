//! What crosses to C beside numbers and bytes: structs whose layout C knows, and what they stand for.
#![tactic(auto)]

mod checking;
mod flaws;
mod numbers;
mod processing;
mod reading;
mod records;
mod telling;
mod text;

pub use checking::{check_in, process_checked_in};
pub use flaws::{FlawNumbers, flaw_numbers};
pub use numbers::{ReplyNumbers, Wide};
pub use processing::{count_pending, process_in};
pub use reading::reply_in;
pub use records::{Instruction, MarketBytes, WalletsBytes};
pub use telling::numbers_of;
pub use text::reply_text;
