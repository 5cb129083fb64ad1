//! The program's word `race`: the scene of a race, its jobs, and its report.
#![tactic(auto)]

mod input;
mod laws;
mod race_case;
mod reporting;
mod running;
mod scene;
mod words;

pub use input::{RaceFault, read_race};
pub use laws::{a_race_is_told_by_its_journal, a_scene_is_a_race_of_one_job};
pub use race_case::{JobCase, RaceCase, open_race};
pub use reporting::journal_lines::append_journal;
pub use reporting::refusals::append_refusals;
pub use reporting::state_lines::append_outline;
pub use reporting::tokens::append_shared_token;
pub use reporting::{race_report, refused_race_report};
pub use running::run_race;
pub use scene::jobs::{MAX_JOBS, RaceJob};
pub use scene::{RaceScene, read_race_scene};
pub use words::read_race_words;
