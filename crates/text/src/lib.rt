// Lines of words and numbers, put into a lent text.
#![tactic(auto)]

mod line;
mod number;

pub use line::put_words;
