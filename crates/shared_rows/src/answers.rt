//! What events answer, in lines.

use crate::refusals::tell_refusal;
use crate::running::Answer;
use fetch_shared::Plan;
use fetch_store::{NoMemory, ObjectId, append_number};
use rows::say_id;

/// A line of a word and these numbers.
pub(crate) fn tell_numbers(
    out: &mut Vec<u8>,
    word: &[u8],
    numbers: &[u64],
) -> Result<(), NoMemory> {
    out.extend_from_slice(word)?;
    for number in numbers {
        out.push(b' ')?;
        append_number(out, *number as usize)?;
    }
    out.push(b'\n')?;
    Ok(())
}

/// A line of a word and an id, for each of these.
pub(crate) fn tell_ids(out: &mut Vec<u8>, word: &[u8], ids: &[ObjectId]) -> Result<(), NoMemory> {
    for id in ids {
        say_id(out, word, id)?;
    }
    Ok(())
}

fn tell_plan(out: &mut Vec<u8>, plan: &Plan) -> Result<(), NoMemory> {
    tell_numbers(out, b"planned", &[plan.place])?;
    tell_ids(out, b"want", plan.wants.as_slice())?;
    tell_ids(out, b"border", plan.border.commits())?;
    tell_ids(out, b"tip", plan.tips.as_slice())
}

/// What an event answers. Whether it could be made.
pub(crate) fn tell_answer(out: &mut Vec<u8>, answer: &Answer) -> Result<bool, NoMemory> {
    match answer {
        Answer::Planned(Ok(plan)) => tell_plan(out, plan)?,
        Answer::Planned(Err(e)) | Answer::Placed(Err(e)) => tell_refusal(out, e)?,
        Answer::Placed(Ok(place)) => tell_numbers(out, b"ok", &[*place])?,
        Answer::NoPack => return Ok(false),
    }
    Ok(true)
}
