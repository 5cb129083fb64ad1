//! What holds of the definitions of a mirror's report. Each law is a function without a body: its clauses are proved.

ghost use Rattle.std.specs.Prelude.{◌≡◌, ℕ, List};
ghost use Rattle.fetch_remote.specs.Repositories.{State};
ghost use Rattle.fetch_serve.specs.Served.{Data};
ghost use Rattle.fetch_mirror.specs.Mirroring.{IsFew};
ghost use Rattle.fetch_mirror.specs.declared.error.MirrorError.TheVariants as errors;
ghost use Rattle.fetch_cli.specs.ReportLines.{refused_line};
ghost use Rattle.fetch_cli.specs.Run.{Are};
ghost use Rattle.fetch_cli.specs.declared.program.server_scene.ServerScene.{ServerScene};
ghost use Rattle.mirror_cli.specs.MirrorReports.{HasBorn, IsReportOf, mirror_text};
ghost use Rattle.mirror_cli.specs.MirrorRun.{IsMirrorOf};
ghost use Rattle.mirror_cli.specs.MirrorTokens.{mirror_token};

/// The report of a repository's mirror is one text: the born references under `refs/`, each as its id, and all that they
/// reach, whatever the order in which the workers brought it.
pub fn a_mirror_has_one_report()
    ensures { (d : Data) (text other : List ℕ) → IsReportOf d text → IsReportOf d other → text ≡ other }
{}

/// What is written of a repository that has these references and stores these objects, and no others, is that report.
pub fn a_mirror_is_told_by_what_it_has()
    ensures { (d : Data) (s : State) → HasBorn d s → IsReportOf d (mirror_text s) }
{}

/// Where there aren't one to eight workers, this alone is told, whatever the scene has.
pub fn the_count_of_workers_is_told_first()
    ensures { (workers : ℕ) (scene : ServerScene) (status : ℕ) (text : List ℕ) → (IsFew workers → ⊥)
        → IsMirrorOf workers scene status text → Are 1 (refused_line (mirror_token (errors.Workers workers))) status text }
{}
