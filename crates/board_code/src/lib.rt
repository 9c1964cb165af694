// The functions on a live board: the truth test of a board handed in, opening one, and the six calls. What they answer is defined in crate `board`.
#![tactic(auto)]

mod calls;
mod checks;
mod state;
mod work;

pub use calls::{admit, open_board, repack, restore, retire, seat, withdraw};
pub use checks::check_newcomer;
pub use state::{total, true_board, true_loads};
pub use work::{engines_of, with_newcomer};
