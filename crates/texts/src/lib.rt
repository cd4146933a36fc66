//! Texts that are appended whole or not at all, texts cut at a mark, what their parts are, and the words of lines.
#![tactic(auto)]

mod appending;
mod cuts;
mod numbers;
mod objective;
mod words;

pub use appending::append_all;
pub use cuts::{first_part, four_or_more, four_parts, has_more_parts, three_parts, two_parts};
pub use numbers::number_in;
pub use objective::objective_in;
pub use words::{Word, about, alone, in_record, number_word, numbered, whole};
