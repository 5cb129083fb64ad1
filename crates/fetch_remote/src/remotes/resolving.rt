//! The configuration that is in force.

ghost use Rattle.std.specs.Prelude.{◌≡◌, IfOk, IfErr, OnOk, Some, true};
ghost use Rattle.fetch_remote.specs.Repositories as spec;
ghost use Rattle.fetch_remote.specs.RepositoryValues.{is_override, are_overrides};

use crate::repository::open_error::OpenError;
use fetch_config::{ConfigError, File};
use fetch_store::Text;
use std::alloc::Global;

/// The base, the local file, and a section for each override.
pub(crate) fn resolved(
    alloc: Global,
    base: &File,
    local: &File,
    overrides: &[Text],
) -> Result<File, OpenError>
    ensures ok { IfOk result (λ config. spec.resolved_of base.now local.now overrides.now ≡ Some config) }
    ensures read { OnOk result (are_overrides overrides.now ≡ true) }
    ensures refused { IfErr result (λ e. spec.IsOpenRefusal overrides.now e) }
{
    let mut config = base.try_clone(alloc)?;
    if config.append(alloc, local).is_err() {
        return Err(OpenError::NoMemory);
    }
    add_overrides(alloc, &mut config, overrides)?;
    Ok(config)
}

fn add_overrides(alloc: Global, config: &mut File, overrides: &[Text]) -> Result<(), OpenError>
    ensures ok { OnOk result (spec.with_overrides config.old overrides.now ≡ Some config.new) }
    ensures read { OnOk result (are_overrides overrides.now ≡ true) }
    ensures refused { IfErr result (λ e. spec.IsOpenRefusal overrides.now e) }
{
    for text in overrides {
        add_override(alloc, config, text)?;
    }
    Ok(())
}

fn add_override(alloc: Global, config: &mut File, text: &Text) -> Result<(), OpenError>
    ensures ok { OnOk result (spec.with_override config.old text.now ≡ Some config.new) }
    ensures read { OnOk result (is_override text.now ≡ true) }
    ensures refused { IfErr result (λ e. spec.IsOverrideRefused text.now e) }
{
    match config.apply_override(alloc, text.as_bytes()) {
        Ok(()) => Ok(()),
        Err(ConfigError::NoMemory) => Err(OpenError::NoMemory),
        Err(_) => Err(OpenError::Override {
            text: text.try_clone()?,
        }),
    }
}
