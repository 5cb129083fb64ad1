//! Sections of a configuration that take the place of others.

ghost use Rattle.std.specs.Prelude.{◌≡◌, ◌<◌, if◌then◌else◌, [], ◌∷◌, length, IfOk};
ghost use Rattle.fetch_config.specs.Contents.{with_sections};
ghost use Rattle.fetch_config.specs.Lookups.{is_same_sub as is_same};
ghost use Rattle.fetch_lookup.specs.Edited.{edited_at};
ghost use Rattle.fetch_create.specs.Replacing as spec;

use fetch_config::{File, Section, is_same_name};
use fetch_store::{NoMemory, Text};
use std::alloc::Global;

/// The file in which the sections of another stand after those of other names or subsections.
#[tactic(auto, unfolding(crate::specs::Replacing::replaced, crate::specs::Replacing::without_replaced))]
pub fn replaced(alloc: Global, file: &File, news: &File) -> Result<File, NoMemory>
    ensures { IfOk result (λ replaced. replaced ≡ spec.replaced news.now.sections file.now) }
{
    let mut replaced = file.try_clone(alloc)?;
    remove_replaced(&mut replaced, news);
    match replaced.append(alloc, news) {
        Ok(()) => Ok(replaced),
        Err(_) => Err(NoMemory),
    }
}

/// The sections go of which the other file has the name and the subsection.
fn remove_replaced(file: &mut File, news: &File)
    ensures { file.new ≡ spec.without_replaced news.now.sections file.old }
{
    let mut left = file.section_count();
    'sections: while left > 0 {
        left -= 1;
        remove_at(file, left, news);
    }
}

fn remove_at(file: &mut File, index: usize, news: &File)
    requires { index < length file.old.sections }
    ensures { file.new ≡ with_sections file.old
        (edited_at index (λ s. if spec.is_replaced news.now.sections s then [] else s ∷ []) file.old.sections) }
{
    let section = &file.sections()[index];
    if is_replaced(section, news) {
        file.remove_section(index);
    }
}

fn is_replaced(section: &Section, news: &File) -> bool
    ensures { result ≡ spec.is_replaced news.now.sections section.now }
{
    news.sections().iter().any(|other| is_like(section, other))
}

fn is_like(section: &Section, other: &Section) -> bool
    ensures { result ≡ spec.is_like section.now other.now }
{
    is_same_name(section.name.as_bytes(), other.name.as_bytes())
        && is_same_sub(&section.sub, &other.sub)
}

fn is_same_sub(a: &Option<Text>, b: &Option<Text>) -> bool
    ensures { result ≡ is_same a.now b.now }
{
    match (a, b) {
        (None, None) => true,
        (Some(a), Some(b)) => a.as_bytes() == b.as_bytes(),
        (None, Some(_)) => false,
        (Some(_), None) => false,
    }
}
