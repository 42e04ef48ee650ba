// Eight pixels as one number of 64 bits, so that they are read, chosen and stored at once.
#![tactic(auto)]

mod mask;
mod word;

pub use mask::MaskTable;
pub use word::{blend, put_word, repeated, word_at};
