//! What holds of the definitions of a report.

ghost use Rattle.std.specs.Prelude.{◌≡◌, ℕ, List};
ghost use Rattle.fetch_lines.specs.Written.{lines_text};
ghost use Rattle.fetch_lines.specs.declared.lines.line.Line.{Line};
ghost use Rattle.fetch_cli.specs.Heard.{AreSent, lines_heard};
ghost use Rattle.fetch_remote.specs.Fetching.{requests_in};
ghost use Rattle.fetch_remote.specs.Valid.{IsValidInput};
ghost use Rattle.fetch_cli.specs.Report.{given_of, found_of, stream_of, requests_of, report_of, IsReport};
ghost use Rattle.fetch_cli.specs.Bench.{summary_of};
ghost use Rattle.fetch_scene.specs.declared.scene.Scene.{Scene};

/// Lines that fit are heard as they were written.
pub fn lines_are_heard_as_written()
    ensures { (lines : List Line) → AreSent lines → lines_heard (lines_text lines) ≡ lines }
{}

/// Where all requests of a scene were sent, its report tells each line of them.
pub fn a_report_tells_the_requests()
    ensures { (scene : Scene) → lines_heard (requests_of scene) ≡ requests_in (given_of scene) (found_of scene) (stream_of scene) }
{}

/// The report of a scene with valid input tells a fetch that was done.
pub fn a_valid_scene_is_fetched()
    ensures { (scene : Scene) (status : ℕ) (text : List ℕ)
        → IsValidInput (given_of scene) scene.worktrees (found_of scene) (stream_of scene) → IsReport scene status text → status ≡ 0 }
{}

/// A bench ends as the report of its scene does: both are done, or both name a refusal.
pub fn a_summary_has_the_status_of_its_report()
    ensures { (n : ℕ) (scene : Scene) → (summary_of n scene).0 ≡ (report_of scene).0 }
{}
