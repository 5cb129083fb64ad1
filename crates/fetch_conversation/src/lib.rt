//! The conversation of a fetch with its peer: what is asked, and how it goes on by what the replies tell. Its two stages
//! list the references and ask for a pack.
#![tactic(auto)]

mod asking;
mod conversing;
mod copies;
mod drive;
mod exchange;
pub mod fetch;
pub mod laws;
mod listing;
mod mapped;
mod negotiate;
pub mod prepare;
mod progress;
mod reading_settings;
mod receiving;
pub mod ref_map;
mod refusals;
mod rounds;
mod settings;

pub use conversing::{FetchArguments, Received, View, converse};
pub use listing::{Listed, LsRefs, list, ls_refs};
pub use negotiate::Negotiate;
pub use progress::{NoProgress, Progress};
pub use reading_settings::{agent, algorithm, rejects_shallow, threads};
pub use settings::Settings;
