//! What holds of names and refspecs in order, of a remote that is saved, and of an upstream that is found. Each law is
//! a function without a body: its clauses are proved.

ghost use Rattle.std.specs.Prelude.{◌≡◌, true, ℕ, List, Ok, Some};
ghost use Rattle.fetch_specs.specs.Specs.{Spec};
ghost use Rattle.fetch_config.specs.Contents.{Contents};
ghost use Rattle.fetch_config.specs.declared.section.Section.{Section};
ghost use Rattle.fetch_lookup.specs.Names.{text_cmp};
ghost use Rattle.fetch_lookup.specs.Ordered.{ascending, AscendsThrough};
ghost use Rattle.fetch_lookup.specs.ReadBack.{IsReadable, ReadsBack};
ghost use Rattle.fetch_lookup.specs.Saved.{saved};
ghost use Rattle.fetch_lookup.specs.Upstreams.{IsFollowed, upstream_in};
ghost use Rattle.fetch_lookup.specs.declared.remote.RemoteParts.{RemoteParts};
ghost use Rattle.fetch_lookup.specs.SpecOrder.{spec_cmp};

/// Names in order ascend byte by byte, and are the names that there were.
pub fn names_ascend()
    ensures { (names : List (List ℕ)) → AscendsThrough text_cmp names (ascending text_cmp names) }
{}

/// Refspecs in order ascend, and are the refspecs that there were.
pub fn refspecs_ascend()
    ensures { (specs : List Spec) → AscendsThrough spec_cmp specs (ascending spec_cmp specs) }
{}

/// A remote that was saved into a trusted file is found, its addresses and its choice of tags as they were, its
/// refspecs in order, each once: where it has an address to fetch from, and no address is empty or has a line feed.
pub fn a_saved_remote_reads_back()
    ensures { (file : Contents) (name : List ℕ) (parts : RemoteParts) → file.meta.trusted ≡ true → IsReadable parts
        → ReadsBack (saved file name parts).sections name parts }
{}

/// An upstream that is found is mapped to the tracking branch by a refspec of its remote that is no exclusion.
pub fn an_upstream_is_mapped_to_its_tracking_branch()
    ensures { (sections : List Section) (tracking upstream : List ℕ) (remote : RemoteParts)
        → upstream_in sections tracking ≡ Ok (Some (upstream, remote)) → IsFollowed remote.fetch_specs upstream tracking }
{}
