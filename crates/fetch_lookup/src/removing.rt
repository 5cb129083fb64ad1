//! Sections of branches that are gone.

ghost use Rattle.std.specs.Prelude.{◌≡◌, ◌<◌, if◌then◌else◌, [], ◌∷◌, length};
ghost use Rattle.std.specs.List.{list_any};
ghost use Rattle.std.specs.Str.{bytes_eq};
ghost use Rattle.fetch_config.specs.Contents.{with_sections};
ghost use Rattle.fetch_lookup.specs.Edited.{edited_at};
ghost use Rattle.fetch_lookup.specs.Removed as spec;

use crate::names::Names;
use fetch_base::Text;
use fetch_config::{File, Origin, Section, is_same_name};

/// Whether there is a local section `branch "<name>"` of one of these short names.
#[tactic(auto, unfolding(crate::specs::Removed::has_branches))]
pub fn has_branch_sections(file: &File, names: &Names) -> bool
    ensures { result ≡ spec.has_branches names.now.keys file.now.sections }
{
    file.sections()
        .iter()
        .any(|section| is_branch_of(section, names))
}

/// The local sections `branch "<name>"` of these short names go.
pub fn without_branch_sections(file: &mut File, names: &Names)
    ensures { file.new ≡ spec.without_branches names.now.keys file.old }
{
    let mut left = file.section_count();
    'sections: while left > 0 {
        left -= 1;
        remove_at(file, left, names);
    }
}

fn remove_at(file: &mut File, index: usize, names: &Names)
    requires { index < length file.old.sections }
    ensures { file.new ≡ with_sections file.old
        (edited_at index (λ s. if spec.is_branch_of names.now.keys s then [] else s ∷ []) file.old.sections) }
{
    let section = &file.sections()[index];
    if is_branch_of(section, names) {
        file.remove_section(index);
    }
}

#[tactic(auto, unfolding(crate::specs::Names::branch))]
fn is_branch_of(section: &Section, names: &Names) -> bool
    ensures { result ≡ spec.is_branch_of names.now.keys section.now }
{
    is_same_name(section.name.as_bytes(), b"branch")
        && section.meta.source == Origin::Local
        && is_one_of(&section.sub, names)
}

fn is_one_of(sub: &Option<Text>, names: &Names) -> bool
    ensures { result ≡ spec.is_one_of names.now.keys sub.now }
{
    match sub {
        Some(sub) => is_among(sub, names),
        None => false,
    }
}

fn is_among(name: &Text, names: &Names) -> bool
    ensures { result ≡ list_any (bytes_eq name.now) names.now.keys }
{
    names.contains(name)
}
