//! Laws: what holds of the definitions that contracts speak of. Each is the contract of a function without a body.

mod closed;
mod counts;
mod reach;
mod stores;

pub use closed::{
    a_connected_pack_keeps_a_repository_closed, adding_keeps_what_is_stored,
    an_honest_pack_keeps_a_repository_closed, an_honest_pack_still_connects,
    closed_is_nothing_missing,
};
pub use counts::distinct_stored_ids_are_no_more_than_objects;
pub use fetch_base::laws::{splits_exactly, splits_last_exactly};
pub use fetch_files::laws::nothing_stands_below_a_file;
pub use fetch_objects::laws::{
    a_place_is_where_the_grammar_breaks, commits_are_texts, links_are_no_more_than_bytes,
    tags_are_texts, trees_are_texts,
};
pub use reach::{
    reached_grows_with_the_store, reached_is_closed, reached_is_level_by_level,
    reached_is_reached_on,
};
pub use stores::{
    a_collision_is_the_first_entry_that_differs, what_stands_comes_from_the_store_or_the_list,
};
