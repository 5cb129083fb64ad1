//! Scenes: a repository, a remote and a server's replies, read from a text.
#![tactic(auto)]

mod configuration;
mod fault;
mod head;
mod laws;
mod line_kinds;
mod line_reader;
mod lines;
mod local;
mod names;
mod numbers;
mod objects;
mod options;
mod pieces;
mod references;
mod refspecs;
mod remote_part;
mod scene;
mod text_lines;
mod worktrees;

pub use fault::SceneFault;
pub use head::Head;
pub use laws::{
    a_configuration_has_the_lines_of_its_scene, a_configuration_is_broken_at_a_line_of_its_scene,
};
pub use lines::{Lines, Placed};
pub use local::{Local, read_local};
pub use names::full_name;
pub use numbers::number;
pub use objects::{read_objects, read_pack_objects};
pub use options::SceneOptions;
pub use pieces::{read_delimiter_if, read_end, read_payloads};
pub use references::Reference;
pub use refspecs::refspec;
pub use remote_part::{RemotePart, read_remote};
pub use scene::{MAX_SCENE, Scene, SceneParts, read_scene};
pub use text_lines::read_lines;
