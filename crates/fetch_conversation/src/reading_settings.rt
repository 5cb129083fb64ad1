//! What the settings of a fetch say. A refusal lends the value that can't be read, empty where the entry is implicit.

ghost use Rattle.std.specs.Prelude.{◌≡◌};
ghost use Rattle.std.specs.Option.{option_copied};
ghost use Rattle.fetch_conversation.specs.ReadSettings as spec;
ghost use Rattle.fetch_conversation.specs.ReadSettings.{told_by};

use crate::settings::Settings;
use fetch_config::Unreadable;
use fetch_negotiate::Algorithm;
use fetch_store::Text;

/// The agent that isn't configured.
const AGENT: &[u8] = b"oxide-0.87.1";

/// Who fetches: `gitoxide.userAgent`, or the agent that isn't configured.
#[tactic(auto, unfolding(crate::specs::ReadSettings::agent_of, crate::specs::ReadSettings::agents_in))]
pub fn agent(settings: &Settings) -> &[u8]
    ensures { result.now ≡ spec.agent_of settings.now.config }
{
    match settings
        .config
        .string(b"gitoxide", None, b"userAgent", false)
    {
        Some(agent) => agent,
        None => AGENT,
    }
}

/// Whether a server with a border of its own is refused: `clone.rejectShallow` of trusted sections. Leniency doesn't
/// cover it. An error is the value that is no truth value.
#[tactic(auto, unfolding(crate::specs::ReadSettings::rejects_shallow_of, crate::specs::ReadSettings::rejections_in))]
pub fn rejects_shallow(settings: &Settings) -> Result<bool, &[u8]>
    ensures { told_by result ≡ spec.rejects_shallow_of settings.now.config }
{
    match settings
        .config
        .boolean(b"clone", None, b"rejectShallow", true)
    {
        None => Ok(false),
        Some(Ok(rejects)) => Ok(rejects),
        Some(Err(_)) => Err(value_told(
            settings
                .config
                .last_value(b"clone", None, b"rejectShallow", true),
        )),
    }
}

/// How commits are chosen for the haves: `fetch.negotiationAlgorithm`. A lenient repository takes a name that is none
/// as absent. An error is the name that is none.
#[tactic(auto, unfolding(crate::specs::ReadSettings::algorithm_of_config, crate::specs::ReadSettings::algorithms_in))]
pub fn algorithm(settings: &Settings) -> Result<Algorithm, &[u8]>
    ensures { told_by result ≡ spec.algorithm_of_config settings.now.config settings.now.lenient }
{
    let Some(name) = settings
        .config
        .string(b"fetch", None, b"negotiationAlgorithm", false)
    else {
        return Ok(Algorithm::Consecutive);
    };
    match algorithm_named(name) {
        Some(algorithm) => Ok(algorithm),
        None => absent_or(settings.lenient, Algorithm::Consecutive, name),
    }
}

/// How many threads read a pack: `pack.threads` of trusted sections. 0 is None. A lenient repository takes a value that
/// can't be read, or is below 0, as absent. An error is that value.
#[tactic(auto, unfolding(crate::specs::ReadSettings::threads_of, crate::specs::ReadSettings::threads_in))]
pub fn threads(settings: &Settings) -> Result<Option<usize>, &[u8]>
    ensures { told_by result ≡ spec.threads_of settings.now.config settings.now.lenient }
{
    let last = value_told(settings.config.last_value(b"pack", None, b"threads", true));
    threads_by(
        settings.lenient,
        settings.config.integer(b"pack", None, b"threads", true),
        last,
    )
}

/// The value of an entry, empty where it is implicit.
fn value_told(entry: Option<&Option<Text>>) -> &[u8]
    ensures { result.now ≡ spec.value_told (option_copied entry.entry) }
{
    match entry {
        Some(Some(text)) => text.as_bytes(),
        Some(None) => b"",
        None => b"",
    }
}

/// What a setting that can't be read gives.
fn absent_or<'a, X: Drop>(lenient: bool, absent: X, value: &'a [u8]) -> Result<X, &'a [u8]>
    ensures { told_by result ≡ spec.unread lenient absent value.now }
{
    if lenient { Ok(absent) } else { Err(value) }
}

fn threads_by<'a>(
    lenient: bool,
    number: Option<Result<i64, Unreadable>>,
    last: &'a [u8],
) -> Result<Option<usize>, &'a [u8]>
    ensures { told_by result ≡ spec.threads_by lenient number last.now }
{
    match number {
        None => Ok(None),
        Some(Ok(number)) => {
            if number.is_negative() {
                return absent_or(lenient, None, last);
            }
            Ok(count_told(number.unsigned_abs()))
        }
        Some(Err(_)) => absent_or(lenient, None, last),
    }
}

fn count_told(count: u64) -> Option<usize>
    ensures { result ≡ spec.count_told count }
{
    if count == 0 {
        None
    } else {
        Some(count as usize)
    }
}

fn algorithm_named(name: &[u8]) -> Option<Algorithm>
    ensures { result ≡ spec.algorithm_named name.now }
{
    if name == b"noop".as_slice() {
        return Some(Algorithm::Noop);
    }
    if name == b"consecutive".as_slice() {
        return Some(Algorithm::Consecutive);
    }
    if name == b"default".as_slice() {
        return Some(Algorithm::Consecutive);
    }
    if name == b"skipping".as_slice() {
        return Some(Algorithm::Skipping);
    }
    None
}
