//! Laws of trees of files.

ghost use Rattle.std.specs.Prelude.{◌≡◌, ℕ, List, Some};
ghost use Rattle.std.specs.FinMap as map;
ghost use Rattle.fetch_files.specs.Paths.{Path};
ghost use Rattle.fetch_files.specs.Trees.{Tree, IsRooted, with_directories, written, renamed, without_file, without_all};

/// In a tree in which each path right above a node is a directory it is so after each call; it is so where there is
/// nothing at all. So nothing stands below a file in files that began with nothing.
pub fn nothing_stands_below_a_file()
    ensures empty { IsRooted map.empty }
    ensures make_dir_all { (t after : Tree) (path : Path) → IsRooted t → with_directories t path ≡ Some after → IsRooted after }
    ensures write { (t after : Tree) (path : Path) (bytes : List ℕ) → IsRooted t → written t path bytes ≡ Some after → IsRooted after }
    ensures rename { (t after : Tree) (from to : Path) → IsRooted t → renamed t from to ≡ Some after → IsRooted after }
    ensures remove_file { (t after : Tree) (path : Path) → IsRooted t → without_file t path ≡ Some after → IsRooted after }
    ensures remove_dir_all { (t after : Tree) (path : Path) → IsRooted t → without_all t path ≡ Some after → IsRooted after }
{}
