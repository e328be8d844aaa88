//! Members, the table of weights, and the reader of a book's head and of its lines.
#![tactic(auto)]

mod entries;
mod head;
mod limits;
mod line;
mod member;
mod refusal;
mod table;
#[cfg(test)]
mod tests;

pub use head::{Head, Room, lines_part, read_head};
pub use line::{Line, count_lines, read_line};
pub use member::Member;
pub use refusal::{Memory, Refusal};
pub use table::Table;
