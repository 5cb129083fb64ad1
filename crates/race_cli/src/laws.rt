//! What is true of the definitions.

ghost use Rattle.std.specs.Prelude.{◌≡◌, ℕ, List, Ok};
ghost use Rattle.fetch_remote.specs.RepositoryValues.{RepositoryValue};
ghost use Rattle.fetch_scene.specs.Scene.{scene_of};
ghost use Rattle.fetch_scene.specs.declared.scene.Scene.{Scene};
ghost use Rattle.fetch_journal.specs.Replays.{outline, replay};
ghost use Rattle.fetch_journal.specs.declared.entry.Entry.{Entry};
ghost use Rattle.race_cli.specs.RaceReports.{Answer, IsRaceReport, race_of};
ghost use Rattle.race_cli.specs.RaceScenes.{race_scene_of, alone};
ghost use Rattle.race_cli.specs.RaceCases.{opening_of};
ghost use Rattle.race_cli.specs.declared.scene.RaceScene.{RaceScene};

/// A scene and the scene of a race of one job are the same text, with the same repository, remote and server.
pub fn a_scene_is_a_race_of_one_job()
    ensures race { (bytes : List ℕ) (scene : Scene) → scene_of bytes ≡ Ok scene → race_scene_of bytes ≡ Ok (alone scene) }
    ensures scene { (bytes : List ℕ) (scene : Scene) → race_scene_of bytes ≡ Ok (alone scene) → scene_of bytes ≡ Ok scene }
{}

/// Where a race left what its journal makes of the scene's repository, its report is a function of the scene, the journal and
/// what the jobs were answered.
pub fn a_race_is_told_by_its_journal()
    ensures { (scene : RaceScene) (journal : List Entry) (left : RepositoryValue) (answers : List Answer) (status : ℕ) (text : List ℕ)
        → outline left ≡ replay (outline (opening_of scene)) journal → IsRaceReport journal (outline left) answers status text
        → race_of scene journal answers ≡ (status, text) }
{}
