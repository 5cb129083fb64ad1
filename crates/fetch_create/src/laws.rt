//! What holds of texts of a configuration. A law is a function without a body: its clauses are proved.

ghost use Rattle.std.specs.Prelude.{◌≡◌, [], ◌∷◌, filter};
ghost use Rattle.fetch_config.specs.Contents.{Contents};
ghost use Rattle.fetch_config.specs.declared.section.Section.{Section};
ghost use Rattle.fetch_create.specs.Replacing.{is_like, replaced};

/// A section that took the place of others is the only one of its name and subsection.
pub fn a_section_that_replaces_others_stands_alone()
    ensures { (s : Section) (file : Contents) → filter (λ t. is_like t s) (replaced (s ∷ []) file).sections ≡ s ∷ [] }
{}
