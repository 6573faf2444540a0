//! The statements of the files with what their arguments mean, and messages on them, piece by
//! piece. The notes on refusals are made of both.
#![tactic(auto)]

mod ancestors;
mod entry;
mod guess;
mod links;
mod meanings;
mod pieces;
mod ring;
mod sentences;
mod site;
mod sites;
mod statement_lists;

pub use ancestors::{node_above, state_above};
pub use entry::{StatementEntry, entries};
pub use guess::{Guess, nearest_definition, nearest_site, nearest_word, say_guess};
pub use meanings::{chain, declaration, last_step, module_of, prefix_of_module, words_of};
pub use pieces::{Message, push_around, push_plain};
pub use ring::say_ring;
pub use sentences::{Sentence, sentence_of};
pub use site::{Site, first_in_file, is_among, named_in_file};
pub use sites::{Children, Sites};
pub use statement_lists::StatementLists;
