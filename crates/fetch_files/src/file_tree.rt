//! A tree of files in memory.

ghost use Rattle.std.specs.Prelude.{◌≡◌, ◌++◌, [], not, false, if◌then◌else◌, Some, None, Ok, List, IfOk, OnOk, OnErr, is_none, option_map};
ghost use Rattle.std.specs.BTreeMap.{insert_entry};
ghost use Rattle.std.specs.FinMap as map;
ghost use Rattle.std.specs.List.{list_any};
ghost use Rattle.std.specs.Option.{option_copied};
ghost use Rattle.fetch_files.specs.Paths.{path_cmp, is_root, is_same_path, parts_of, after_path};
ghost use Rattle.fetch_files.specs.declared.node.TreeNode.TheVariants.{File};
ghost use Rattle.fetch_files.specs.Trees as spec;
ghost use Rattle.fetch_files.specs.Trees.{node_at, kind_of, with_directory, with_each, with_file};

use crate::file_path::FilePath;
use crate::node::{Node, TreeNode};
use fetch_base::{NoMemory, Text};
use std::alloc::Global;
use std::cmp::Ordering;
use std::collections::BTreeMap;
use std::marker::Model;

/// A tree of files: an ordered map of paths. Contracts see it as a finite map.
#[derive(Drop)]
pub(crate) struct FileTree {
    alloc: Global,
    nodes: BTreeMap<FilePath, TreeNode>,
}

impl Model for FileTree {
    ghost use Rattle.std.specs.FinMap as map;
    ghost use Rattle.fetch_files.specs.TreeCodes.{coded_tree};
    ghost use Rattle.fetch_files.specs.Trees.{Tree};

    ghost Value = { Tree };

    ghost coded = { coded_tree };

    ghost view = { λ t. map.from_entries t.nodes.entries };
}

impl FileTree {
    /// Nothing but the root.
    pub(crate) fn new(alloc: Global) -> FileTree
        ensures { result ≡ map.empty }
    {
        FileTree {
            alloc,
            nodes: BTreeMap::new(alloc),
        }
    }

    /// The kind of what stands at the path, if nothing is in the way.
    pub(crate) fn kind_in(&self, path: &[u8]) -> Result<Option<Option<Node>>, NoMemory>
        ensures { IfOk result (λ found. found ≡ spec.kind_in self.now (parts_of path.now)) }
    {
        let path = FilePath::new(self.alloc, path)?;
        let parents = path.parents()?;
        if self.is_any_file(&parents) {
            return Ok(None);
        }
        Ok(Some(self.kind_at(&path)))
    }

    /// The bytes of the file at the path, if nothing is in the way.
    pub(crate) fn read_in(&self, path: &[u8]) -> Result<Option<Option<Text>>, NoMemory>
        ensures { IfOk result (λ found. found ≡ spec.read_in self.now (parts_of path.now)) }
    {
        let path = FilePath::new(self.alloc, path)?;
        let parents = path.parents()?;
        if self.is_any_file(&parents) {
            return Ok(None);
        }
        self.read_at(&path)
    }

    /// The names in the directory, ascending, if it is one.
    pub(crate) fn names_in(&self, path: &[u8]) -> Result<Option<Vec<Text>>, NoMemory>
        ensures { IfOk result (λ found. option_map (λ names. names.items) found ≡ spec.names_in self.now (parts_of path.now)) }
    {
        let directory = FilePath::new(self.alloc, path)?;
        if !self.is_directory(&directory) {
            return Ok(None);
        }
        Ok(Some(names_behind(self.alloc, path, &self.nodes)?))
    }

    /// Makes the directory and those above it, and says whether it did.
    pub(crate) fn make_directories(&mut self, path: &[u8]) -> Result<bool, NoMemory>
        ensures made { IfOk result (λ done. (if done then Some self.new else None) ≡ spec.with_directories self.old (parts_of path.now)) }
        ensures not_made { result ≡ Ok false → self.new ≡ self.old }
        ensures err { OnErr result (self.new ≡ self.old) }
    {
        let path = FilePath::new(self.alloc, path)?;
        let mut paths = path.parents()?;
        if self.is_any_file(&paths) || self.is_file(&path) {
            return Ok(false);
        }
        paths.push(path)?;
        self.place(&paths, None)?;
        Ok(true)
    }

    /// Writes the file, and makes the directories above it, and says whether it did.
    pub(crate) fn write(&mut self, path: &[u8], bytes: &[u8]) -> Result<bool, NoMemory>
        ensures written { IfOk result (λ done. (if done then Some self.new else None)
            ≡ spec.written self.old (parts_of path.now) bytes.now) }
        ensures not_written { result ≡ Ok false → self.new ≡ self.old }
        ensures err { OnErr result (self.new ≡ self.old) }
    {
        let path = FilePath::new(self.alloc, path)?;
        let parents = path.parents()?;
        if self.is_any_file(&parents) || self.is_directory(&path) {
            return Ok(false);
        }
        let bytes = Text::new(self.alloc, bytes)?;
        self.place(&parents, Some((path, bytes)))?;
        Ok(true)
    }

    /// Moves the file, and says whether it did.
    pub(crate) fn rename(&mut self, from: &[u8], to: &[u8]) -> Result<bool, NoMemory>
        ensures renamed { IfOk result (λ done. (if done then Some self.new else None)
            ≡ spec.renamed self.old (parts_of from.now) (parts_of to.now)) }
        ensures not_renamed { result ≡ Ok false → self.new ≡ self.old }
        ensures err { OnErr result (self.new ≡ self.old) }
    {
        let from = FilePath::new(self.alloc, from)?;
        let to = FilePath::new(self.alloc, to)?;
        let above = to.parent()?;
        let Some(bytes) = self.file_at(&from)? else {
            return Ok(false);
        };
        if self.is_directory(&to) || !self.is_directory(&above) {
            return Ok(false);
        }
        self.move_to(&from, to, bytes)?;
        Ok(true)
    }

    /// Removes the file, and says whether it did. Takes no memory.
    pub(crate) fn remove_file(&mut self, path: &[u8]) -> bool
        ensures removed { (if result then Some self.new else None) ≡ spec.without_file self.old (parts_of path.now) }
        ensures not_removed { result ≡ false → self.new ≡ self.old }
    {
        if !self.is_file_told(path) {
            return false;
        }
        remove_told(&mut self.nodes, path);
        true
    }

    /// Removes the directory and what is in it, and says whether it did. Takes no memory.
    pub(crate) fn remove_directory(&mut self, path: &[u8]) -> bool
        ensures removed { (if result then Some self.new else None) ≡ spec.without_all self.old (parts_of path.now) }
        ensures not_removed { result ≡ false → self.new ≡ self.old }
    {
        if !self.is_directory_told(path) {
            return false;
        }
        remove_below(&mut self.nodes, path);
        true
    }

    /// A tree with the same files.
    pub(crate) fn try_clone(&self) -> Result<FileTree, NoMemory>
        ensures { IfOk result (λ copy. copy ≡ self.now) }
    {
        Ok(FileTree {
            alloc: self.alloc,
            nodes: copy_nodes(self.alloc, &self.nodes)?,
        })
    }

    fn get(&self, path: &FilePath) -> Option<&TreeNode>
        ensures { option_copied result ≡ map.get self.now path.now }
    {
        find(&self.nodes, path)
    }

    fn kind_at(&self, path: &FilePath) -> Option<Node>
        ensures { result ≡ option_map kind_of (node_at self.now path.now) }
    {
        if path.is_root() {
            return Some(Node::Directory);
        }
        match self.get(path) {
            Some(TreeNode::File(_)) => Some(Node::File),
            Some(TreeNode::Directory) => Some(Node::Directory),
            None => None,
        }
    }

    fn is_file(&self, path: &FilePath) -> bool
        ensures { result ≡ spec.is_file (node_at self.now path.now) }
    {
        if path.is_root() {
            return false;
        }
        match self.get(path) {
            Some(TreeNode::File(_)) => true,
            Some(TreeNode::Directory) => false,
            None => false,
        }
    }

    fn is_directory(&self, path: &FilePath) -> bool
        ensures { result ≡ spec.is_directory (node_at self.now path.now) }
    {
        if path.is_root() {
            return true;
        }
        match self.get(path) {
            Some(TreeNode::File(_)) => false,
            Some(TreeNode::Directory) => true,
            None => false,
        }
    }

    fn is_any_file(&self, paths: &[FilePath]) -> bool
        ensures { result ≡ list_any (λ path. spec.is_file (node_at self.now path)) paths.now }
    {
        for path in paths {
            if self.is_file(path) {
                return true;
            }
        }
        false
    }

    fn read_at(&self, path: &FilePath) -> Result<Option<Option<Text>>, NoMemory>
        ensures { IfOk result (λ found. found ≡ spec.bytes_in (node_at self.now path.now)) }
    {
        if path.is_root() {
            return Ok(None);
        }
        match self.get(path) {
            Some(TreeNode::File(bytes)) => Ok(Some(Some(bytes.try_clone()?))),
            Some(TreeNode::Directory) => Ok(None),
            None => Ok(Some(None)),
        }
    }

    /// A copy of the file's bytes, if a file stands at the path.
    fn file_at(&self, path: &FilePath) -> Result<Option<Text>, NoMemory>
        ensures { IfOk result (λ found. found ≡ spec.file_in (node_at self.now path.now)) }
    {
        if path.is_root() {
            return Ok(None);
        }
        match self.get(path) {
            Some(TreeNode::File(bytes)) => Ok(Some(bytes.try_clone()?)),
            Some(TreeNode::Directory) => Ok(None),
            None => Ok(None),
        }
    }

    /// Makes directories where nothing stands, and then writes a file. After an error the tree is as before.
    fn place(&mut self, paths: &[FilePath], file: Option<(FilePath, Text)>) -> Result<(), NoMemory>
        ensures ok { OnOk result (self.new ≡ with_file (with_each self.old paths.now) file) }
        ensures err { OnErr result (self.new ≡ self.old) }
    {
        match paths {
            [] => self.put_file(file),
            [first, rest @ ..] => {
                let is_new = self.make_one(first)?;
                match self.place(rest, file) {
                    Ok(()) => Ok(()),
                    Err(e) => {
                        self.remove_if(is_new, first);
                        Err(e)
                    }
                }
            }
        }
    }

    fn put_file(&mut self, file: Option<(FilePath, Text)>) -> Result<(), NoMemory>
        ensures ok { OnOk result (self.new ≡ with_file self.old file) }
        ensures err { OnErr result (self.new ≡ self.old) }
    {
        match file {
            Some((path, bytes)) => put(&mut self.nodes, path, TreeNode::File(bytes)),
            None => Ok(()),
        }
    }

    /// Makes a directory where nothing stands, and says whether nothing stood there.
    fn make_one(&mut self, path: &FilePath) -> Result<bool, NoMemory>
        ensures new { IfOk result (λ is_new. is_new ≡ is_none (node_at self.old path.now)) }
        ensures made { OnOk result (self.new ≡ with_directory self.old path.now) }
        ensures err { OnErr result (self.new ≡ self.old) }
    {
        match self.kind_at(path) {
            Some(_) => Ok(false),
            None => {
                put(&mut self.nodes, path.try_clone()?, TreeNode::Directory)?;
                Ok(true)
            }
        }
    }

    fn remove_if(&mut self, is_new: bool, path: &FilePath)
        ensures { self.new ≡ if is_new then map.remove self.old path.now else self.old }
    {
        if is_new {
            remove(&mut self.nodes, path);
        }
    }

    /// Puts a file's bytes at another path, and takes them from the first.
    fn move_to(&mut self, from: &FilePath, to: FilePath, bytes: Text) -> Result<(), NoMemory>
        ensures ok { OnOk result (self.new ≡ map.insert (map.remove self.old from.now) to (File bytes)) }
        ensures err { OnErr result (self.new ≡ self.old) }
    {
        let stays = is_same(from, &to);
        put(&mut self.nodes, to, TreeNode::File(bytes))?;
        self.remove_if(!stays, from);
        Ok(())
    }

    fn is_file_told(&self, path: &[u8]) -> bool
        ensures { result ≡ spec.is_file (node_at self.now (parts_of path.now)) }
    {
        if self.is_root_told(path) {
            return false;
        }
        match find_told(&self.nodes, path) {
            Some(TreeNode::File(_)) => true,
            Some(TreeNode::Directory) => false,
            None => false,
        }
    }

    fn is_directory_told(&self, path: &[u8]) -> bool
        ensures { result ≡ spec.is_directory (node_at self.now (parts_of path.now)) }
    {
        if self.is_root_told(path) {
            return true;
        }
        match find_told(&self.nodes, path) {
            Some(TreeNode::File(_)) => false,
            Some(TreeNode::Directory) => true,
            None => false,
        }
    }

    fn is_root_told(&self, path: &[u8]) -> bool
        ensures { result ≡ is_root (parts_of path.now) }
    {
        FilePath::root(self.alloc).is_told_by(path)
    }
}

fn is_same(path: &FilePath, other: &FilePath) -> bool
    ensures { result ≡ is_same_path path.now other.now }
{
    path.cmp(other) == Ordering::Equal
}

fn find<'a>(nodes: &'a BTreeMap<FilePath, TreeNode>, path: &FilePath) -> Option<&'a TreeNode>
    ensures { option_copied result ≡ map.get {R = path_cmp} (map.from_entries nodes.now.entries) path.now }
{
    nodes.get(path)
}

/// What stands at the path that a text tells. Takes no memory.
fn find_told<'a>(nodes: &'a BTreeMap<FilePath, TreeNode>, path: &[u8]) -> Option<&'a TreeNode>
    ensures { option_copied result ≡ map.get {R = path_cmp} (map.from_entries nodes.now.entries) (parts_of path.now) }
{
    'nodes: for (key, node) in nodes {
        if key.is_told_by(path) {
            return Some(node);
        }
    }
    None
}

fn put(
    nodes: &mut BTreeMap<FilePath, TreeNode>,
    path: FilePath,
    node: TreeNode,
) -> Result<(), NoMemory>
    ensures entries { OnOk result (nodes.new.entries ≡ insert_entry path_cmp nodes.old.entries path node) }
    ensures as_map { OnOk result (map.from_entries {R = path_cmp} nodes.new.entries
        ≡ map.insert (map.from_entries nodes.old.entries) path node) }
    ensures err { OnErr result (nodes.new.entries ≡ nodes.old.entries) }
{
    nodes.insert(path, node)?;
    Ok(())
}

fn remove(nodes: &mut BTreeMap<FilePath, TreeNode>, path: &FilePath)
    ensures { map.from_entries {R = path_cmp} nodes.new.entries ≡ map.remove (map.from_entries nodes.old.entries) path.now }
{
    nodes.remove(path);
}

/// Removes what stands at the path that a text tells.
fn remove_told(nodes: &mut BTreeMap<FilePath, TreeNode>, path: &[u8])
    ensures { map.from_entries {R = path_cmp} nodes.new.entries ≡ map.remove (map.from_entries nodes.old.entries) (parts_of path.now) }
{
    nodes.retain(|key, _| !key.is_told_by(path));
}

/// Removes what stands at the path that a text tells, and below it.
fn remove_below(nodes: &mut BTreeMap<FilePath, TreeNode>, path: &[u8])
    ensures { map.from_entries {R = path_cmp} nodes.new.entries
        ≡ map.retain_keys (map.from_entries nodes.old.entries) (λ key. is_none (after_path (parts_of path.now) key)) }
{
    nodes.retain(|key, _| key.after(path).is_none());
}

/// The names right after a path, in their order.
fn names_behind(
    alloc: Global,
    path: &[u8],
    nodes: &BTreeMap<FilePath, TreeNode>,
) -> Result<Vec<Text>, NoMemory>
    ensures { IfOk result (λ names. names.items
        ≡ spec.names_behind (parts_of path.now) (map.keys (map.from_entries {R = path_cmp} nodes.now.entries))) }
{
    let mut names = Vec::new(alloc);
    'keys: for key in nodes.keys() {
        push_name(&mut names, key.after(path))?;
    }
    Ok(names)
}

/// Adds the name that is left of a path, where there is one part alone.
fn push_name(names: &mut Vec<Text>, rest: Option<&[Text]>) -> Result<(), NoMemory>
    ensures { OnOk result (names.new.items ≡ names.old.items ++ spec.if_name (spec.name_behind (option_copied rest.entry))) }
{
    if let Some([name]) = rest {
        names.push(name.try_clone()?)?;
    }
    Ok(())
}

fn copy_nodes(
    alloc: Global,
    nodes: &BTreeMap<FilePath, TreeNode>,
) -> Result<BTreeMap<FilePath, TreeNode>, NoMemory>
    ensures { IfOk result (λ copy. copy.entries ≡ nodes.now.entries) }
{
    let mut copy = BTreeMap::new(alloc);
    'nodes: for (key, node) in nodes {
        put(&mut copy, key.try_clone()?, copy_node(node)?)?;
    }
    Ok(copy)
}

fn copy_node(node: &TreeNode) -> Result<TreeNode, NoMemory>
    ensures { IfOk result (λ copy. copy ≡ node.now) }
{
    match node {
        TreeNode::File(bytes) => Ok(TreeNode::File(bytes.try_clone()?)),
        TreeNode::Directory => Ok(TreeNode::Directory),
    }
}
