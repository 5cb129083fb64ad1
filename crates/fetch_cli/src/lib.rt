//! The program as a library: the report of a scene's fetch, and the words of the command line.
#![tactic(auto)]

mod laws;
mod program;
mod reporting;

pub use fetch_bench_scene::{MAX_BENCH, a_bench_is_read_from_its_text, bench_scene, generate};
pub use fetch_scene::{
    Head, Lines, Local, MAX_SCENE, Placed, Reference, RemotePart, Scene, SceneFault, SceneOptions,
    a_configuration_has_the_lines_of_its_scene, a_configuration_is_broken_at_a_line_of_its_scene,
    read_delimiter_if, read_end, read_lines, read_local, read_objects, read_pack_objects,
    read_payloads, read_remote, read_scene,
};
pub use laws::{
    a_report_tells_the_requests, a_summary_has_the_status_of_its_report, a_valid_scene_is_fetched,
    lines_are_heard_as_written,
};
pub use program::answers::{Answer, Silence, malformed, malformed_word, write_answer};
pub use program::input::{ReadError, read_all};
pub use program::io::{Sink, Source};
pub use program::memory::{MemorySink, MemorySource};
pub use program::running::run;
pub use program::server_scene::{ServerScene, read_server_scene};
pub use program::standard::{StdSink, StdSource};
pub use program::words::{Command, HELP, VERSION, read_command};
pub use reporting::fetch_case::{FetchCase, open_local, open_remote, open_scene};
pub use reporting::lines::{
    append_border, append_id, append_keep, append_log, append_ref, append_refused, append_sent,
    append_target,
};
pub use reporting::map_lines::append_map;
pub use reporting::state_lines::{append_commits, append_ids, append_refs, append_state};
pub use reporting::summary::summary;
pub use reporting::tokens::append_token;
pub use reporting::{report, tokens};
