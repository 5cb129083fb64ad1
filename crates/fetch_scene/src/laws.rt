//! What holds of the configuration of a scene.

ghost use Rattle.std.specs.Prelude.{◌≡◌, ℕ, List, Err, map};
ghost use Rattle.std.specs.Str.Lines.{lines, strip_carriage_return};
ghost use Rattle.fetch_scene.specs.SceneConfig.{AreLines, IsOneOf, text_of, file_in};

/// The lines of a scene's configuration are those that its `config` lines say, each without a carriage return at its
/// end.
pub fn a_configuration_has_the_lines_of_its_scene()
    ensures { (texts : List (List ℕ)) → AreLines texts → lines (text_of texts) ≡ map strip_carriage_return texts }
{}

/// A configuration that is broken is so at one of the scene's `config` lines.
pub fn a_configuration_is_broken_at_a_line_of_its_scene()
    ensures { (texts : List (List ℕ)) → (number : ℕ) → AreLines texts → file_in (text_of texts) ≡ Err number → IsOneOf texts number }
{}
