//! Why nothing is sent for a pack.

ghost use Rattle.std.specs.Prelude.{◌≡◌, ◌||◌, not, None, Some, IfErr, OnOk, length};
ghost use Rattle.fetch_lines.specs.Greetings.{has_word, value_of};
ghost use Rattle.fetch_lines.specs.RequestWords.{plain_pack, plain_pack_2};
ghost use Rattle.std.specs.List.{list_any};
ghost use Rattle.std.specs.Option.{option_copied, option_or};
ghost use Rattle.fetch_conversation.specs.ConverseStage as spec;
ghost use Rattle.fetch_conversation.specs.Conversing.{Tells, IsOwn};
ghost use Rattle.fetch_conversation.specs.ReadSettings.{rejects_shallow_of, algorithm_of_config, threads_of};
ghost use Rattle.fetch_conversation.specs.declared.fetch.Error.TheVariants as errors;

use crate::asking::joined_specs;
use crate::fetch;
use crate::reading_settings::{algorithm, rejects_shallow, threads};
use crate::settings::Settings;
use fetch_negotiate::Shallow;
use fetch_specs::RefSpec;
use fetch_store::{Border, Kind, List, NoMemory, Text};
use fetch_wire::{Handshake, RefMap, Version, WireError};
use std::alloc::Global;

/// Whether a refspec takes what it names, and names it without a star.
fn names_one(refspec: &RefSpec) -> bool
    ensures { result ≡ spec.names_one refspec.now }
{
    !refspec.is_exclusion() && !has_star(refspec.source())
}

fn has_star(source: Option<&[u8]>) -> bool
    ensures { result ≡ spec.has_star (option_copied source.entry) }
{
    match source {
        Some(text) => text.contains(&b'*'),
        None => false,
    }
}

/// Whether some refspec names one.
fn any_names_one(refspecs: &[RefSpec]) -> bool
    ensures { result ≡ list_any spec.names_one refspecs.now }
{
    refspecs.iter().any(names_one)
}

/// Whether some refspec of the mapping names one.
fn maps_by_name(map: &RefMap) -> bool
    ensures { result ≡ list_any spec.names_one (spec.specs_of map.now) }
{
    any_names_one(map.refspecs.as_slice()) || any_names_one(map.extra_refspecs.as_slice())
}

/// Whether references are advertised, none of them is mapped, and some refspec names one.
fn is_unmapped(map: &RefMap) -> bool
    ensures { result ≡ spec.is_unmapped map.now }
{
    if map.remote_refs.is_empty() {
        return false;
    }
    if map.mappings.is_empty() {
        return maps_by_name(map);
    }
    false
}

/// Refuses where nothing is mapped that a refspec names.
pub(crate) fn refuse_unmapped(alloc: Global, map: &RefMap) -> Result<(), fetch::Error>
    ensures told { Tells (spec.unmapped map.now) result }
    ensures own { IfErr result (λ e. IsOwn e) }
{
    if !is_unmapped(map) {
        return Ok(());
    }
    let refspecs = joined_specs(
        alloc,
        map.refspecs.as_slice(),
        map.extra_refspecs.as_slice(),
    )?;
    Err(fetch::Error::NoMapping {
        refspecs: List::from(refspecs),
        num_remote_refs: map.remote_refs.len(),
    })
}

/// Refuses a server that names objects by another hash.
pub(crate) fn refuse_other_hash(local: Kind, remote: Kind) -> Result<(), fetch::Error>
    ensures told { Tells (spec.unlike local remote) result }
    ensures own { IfErr result (λ e. IsOwn e) }
{
    match (local, remote) {
        (Kind::Sha1, Kind::Sha1) | (Kind::Sha256, Kind::Sha256) => Ok(()),
        _ => Err(fetch::Error::IncompatibleObjectHash { local, remote }),
    }
}

/// Refuses an unreadable `clone.rejectShallow`, lenient or not.
fn refuse_rejection(alloc: Global, settings: &Settings) -> Result<(), fetch::Error>
    ensures told { Tells (spec.unread_as errors.RejectShallowRemoteConfig (rejects_shallow_of settings.now.config)) result }
    ensures own { IfErr result (λ e. IsOwn e) }
{
    match rejects_shallow(settings) {
        Ok(_) => Ok(()),
        Err(value) => Err(fetch::Error::RejectShallowRemoteConfig {
            value: Text::new(alloc, value)?,
        }),
    }
}

/// Refuses an algorithm that is none, unless that is let pass.
fn refuse_algorithm(alloc: Global, settings: &Settings) -> Result<(), fetch::Error>
    ensures told { Tells (spec.unread_as errors.NegotiationAlgorithmConfig
        (algorithm_of_config settings.now.config settings.now.lenient)) result }
    ensures own { IfErr result (λ e. IsOwn e) }
{
    match algorithm(settings) {
        Ok(_) => Ok(()),
        Err(value) => Err(fetch::Error::NegotiationAlgorithmConfig {
            value: Text::new(alloc, value)?,
        }),
    }
}

/// Refuses a number of threads that is none, unless that is let pass.
fn refuse_threads(alloc: Global, settings: &Settings) -> Result<(), fetch::Error>
    ensures told { Tells (spec.unread_as errors.PackThreads (threads_of settings.now.config settings.now.lenient)) result }
    ensures own { IfErr result (λ e. IsOwn e) }
{
    match threads(settings) {
        Ok(_) => Ok(()),
        Err(value) => Err(fetch::Error::PackThreads {
            value: Text::new(alloc, value)?,
        }),
    }
}

/// Refuses settings that can't be read, the first of them.
pub(crate) fn refuse_settings(alloc: Global, settings: &Settings) -> Result<(), fetch::Error>
    ensures told { Tells (spec.unfit settings.now) result }
    ensures own { IfErr result (λ e. IsOwn e) }
{
    refuse_rejection(alloc, settings)?;
    refuse_algorithm(alloc, settings)?;
    refuse_threads(alloc, settings)
}

/// Refuses where this isn't offered.
fn refuse_unless(alloc: Global, offered: bool, name: &[u8]) -> Result<(), fetch::Error>
    ensures told { Tells (spec.lacks offered name.now) result }
    ensures own { IfErr result (λ e. IsOwn e) }
{
    if offered {
        return Ok(());
    }
    let name = Text::new(alloc, name)?;
    Err(fetch::Error::Fetch(WireError::MissingFeature { name }))
}

fn needs_border(border: &Border, shallow: &Shallow) -> bool
    ensures { result ≡ spec.is_border_needed border.now shallow.now }
{
    !border.commits().is_empty() || !matches!(shallow, Shallow::NoChange)
}

/// Whether plain packs of either version are offered.
#[tactic(auto, unfolding(crate::specs::ConverseStage::fetch_feature, fetch_lines::specs::RequestWords::plain_pack, fetch_lines::specs::RequestWords::plain_pack_2))]
fn offers_packs(handshake: &Handshake) -> bool
    ensures { result ≡ (has_word plain_pack (value_of spec.fetch_feature handshake.now.capabilities)
        || has_word plain_pack_2 (value_of spec.fetch_feature handshake.now.capabilities)) }
{
    handshake.supports(b"fetch", b"plain-pack") || handshake.supports(b"fetch", b"plain-pack-2")
}

/// Whether the border is offered where the server has to know of one.
#[tactic(auto, unfolding(crate::specs::ConverseStage::fetch_feature, crate::specs::ConverseStage::shallow_feature))]
fn offers_border(handshake: &Handshake, border: &Border, shallow: &Shallow) -> bool
    ensures { result ≡ (not (spec.is_border_needed border.now shallow.now)
        || has_word spec.shallow_feature (value_of spec.fetch_feature handshake.now.capabilities)) }
{
    !needs_border(border, shallow) || handshake.supports(b"fetch", b"shallow")
}

/// Refuses the first of these that isn't offered.
fn refuse_unoffered(
    alloc: Global,
    fetch: bool,
    packs: bool,
    border: bool,
) -> Result<(), fetch::Error>
    ensures told { Tells (option_or (spec.lacks fetch spec.fetch_feature)
        (option_or (spec.lacks packs plain_pack) (spec.lacks border spec.shallow_feature))) result }
    ensures own { IfErr result (λ e. IsOwn e) }
{
    refuse_unless(alloc, fetch, b"fetch")?;
    refuse_unless(alloc, packs, b"plain-pack")?;
    refuse_unless(alloc, border, b"shallow")
}

/// Refuses a server that lacks fetching, plain packs, or the border where it has to know of one. One of version 1 lacks
/// fetching.
#[tactic(auto, unfolding(crate::specs::ConverseStage::fetch_feature))]
pub(crate) fn refuse_lacking(
    alloc: Global,
    handshake: &Handshake,
    border: &Border,
    shallow: &Shallow,
) -> Result<(), fetch::Error>
    ensures told { Tells (spec.lacked handshake.now (spec.is_border_needed border.now shallow.now)) result }
    ensures own { IfErr result (λ e. IsOwn e) }
{
    match handshake.version {
        Version::V1 => refuse_unless(alloc, false, b"fetch"),
        Version::V2 => refuse_unoffered(
            alloc,
            handshake.offers(b"fetch"),
            offers_packs(handshake),
            offers_border(handshake, border, shallow),
        ),
    }
}
