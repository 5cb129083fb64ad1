//! What holds of the text of a bench's scene.

ghost use Rattle.std.specs.Prelude.{◌≡◌, ◌<◌, ◌≤◌, ◌/◌, ℕ, Ok};
ghost use Rattle.fetch_store.specs.Collisions.{HasDistinctIds};
ghost use Rattle.fetch_bench.specs.Commits.{line_of};
ghost use Rattle.fetch_bench_scene.specs.Bench.{generated_scene};
ghost use Rattle.fetch_bench_scene.specs.BenchText.{bench_text};
ghost use Rattle.fetch_scene.specs.Scene.{scene_of};

/// The text of a bench's scene is read as the scene that is fetched, where no two objects in it have one id.
pub fn a_bench_is_read_from_its_text()
    ensures { (n : ℕ) → 0 < n → n ≤ 100000 → HasDistinctIds (line_of (n / 2)) → scene_of (bench_text n) ≡ Ok (generated_scene n) }
{}
