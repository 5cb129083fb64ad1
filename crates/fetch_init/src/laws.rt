//! The steps of a clone that change a repository, and what holds of them. A law is a function without a body: its clauses are
//! proved.

ghost use Rattle.std.specs.Prelude.{◌≡◌, ℕ, List, length, filter};
ghost use Rattle.fetch_base.specs.declared.id.Kind.{Kind};
ghost use Rattle.fetch_config.specs.Contents.{Contents};
ghost use Rattle.fetch_config.specs.Print.{text_of};
ghost use Rattle.fetch_config.specs.declared.meta.Meta.{Meta};
ghost use Rattle.fetch_lookup.specs.Saved.{is_of_remote};
ghost use Rattle.fetch_remote.specs.Reloads.{file_of};
ghost use Rattle.fetch_remote.specs.Remotes.{RemoteValue};
ghost use Rattle.fetch_remote.specs.RepositoryValues.{Setup};
ghost use Rattle.fetch_create.specs.Configuration.{configuration_of};
ghost use Rattle.fetch_init.specs.RemoteSections.{section_of};
ghost use Rattle.fetch_create.specs.Replacing.{replaced};
ghost use Rattle.fetch_create.specs.Versioned.{versioned};
ghost use Rattle.fetch_create.specs.declared.create.Capabilities.{Capabilities};
ghost use Rattle.fetch_create.specs.declared.create.Kind.{Kind as Layout};

pub use crate::head_update::update_head;
pub use crate::remote_section::{append_config_to_repo_config, append_remote_to_local_config_file};
pub use fetch_create::laws::a_section_that_replaces_others_stands_alone;

/// The file `config` of a new repository, read, and written with the version of any hash, is the one that a new repository of
/// that hash has.
pub fn a_new_configuration_takes_any_version()
    ensures { (meta : Meta) (kind : Layout) (can : Capabilities) (was is : Kind)
        → text_of (versioned is (file_of meta (configuration_of kind can was))).sections ≡ configuration_of kind can is }
{}

/// A remote is saved as one section. Once that took the place of those of its name, there is no other section of the remote.
pub fn a_saved_remote_has_one_section()
    ensures one { (setup : Setup) (remote : RemoteValue) (name : List ℕ) → length (section_of setup remote name).sections ≡ 1 }
    ensures only { (setup : Setup) (remote : RemoteValue) (name : List ℕ) (file : Contents)
        → filter (is_of_remote name) (replaced (section_of setup remote name).sections file).sections
        ≡ (section_of setup remote name).sections }
{}
