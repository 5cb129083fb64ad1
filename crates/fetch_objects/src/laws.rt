//! Laws: what holds of the definitions that contracts speak of. Each is the contract of a function without a body.

mod texts;

pub use texts::{
    a_place_is_where_the_grammar_breaks, commits_are_texts, links_are_no_more_than_bytes,
    tags_are_texts, trees_are_texts,
};
