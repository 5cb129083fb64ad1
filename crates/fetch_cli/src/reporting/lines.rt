//! The lines of a report. Each call puts a line after what is there; after an error a part of it may stand there.

ghost use Rattle.std.specs.Prelude.{◌≡◌, ◌<◌, ◌++◌, OnOk};
ghost use Rattle.std.specs.List.{flat_map};
ghost use Rattle.fetch_lines.specs.LineViews.{line_of};
ghost use Rattle.fetch_refs.specs.Targets.{seen};
ghost use Rattle.fetch_cli.specs.ReportLines as spec;

use fetch_refs::{LogLine, TargetRef};
use fetch_store::{NoMemory, ObjectId, append_hex, append_number};
use fetch_wire::LineRef;

/// The lower-case digit of a number below 16.
fn hex_digit(n: u8) -> u8
    requires { n < 16 }
    ensures { result ≡ spec.hex_digit n }
{
    if n < 10 { b'0' + n } else { b'a' + (n - 10) }
}

#[tactic(auto, unfolding(crate::specs::ReportLines::escaped))]
fn append_escaped_byte(out: &mut Vec<u8>, byte: u8) -> Result<(), NoMemory>
    ensures { OnOk result (out.new.items ≡ out.old.items ++ spec.escaped byte) }
{
    if byte == b'\n' {
        out.extend_from_slice(b"\\n")?;
    } else if byte == b'"' {
        out.extend_from_slice(b"\\\"")?;
    } else if byte == b'\\' {
        out.extend_from_slice(b"\\\\")?;
    } else if byte < b' ' {
        out.extend_from_slice(&[b'\\', b'x', hex_digit(byte / 16), hex_digit(byte % 16)])?;
    } else if byte < 127 {
        out.extend_from_slice(&[byte])?;
    } else {
        out.extend_from_slice(&[b'\\', b'x', hex_digit(byte / 16), hex_digit(byte % 16)])?;
    }
    Ok(())
}

fn append_escaped(out: &mut Vec<u8>, bytes: &[u8]) -> Result<(), NoMemory>
    ensures { OnOk result (out.new.items ≡ out.old.items ++ flat_map spec.escaped bytes.now) }
{
    for byte in bytes {
        append_escaped_byte(out, *byte)?;
    }
    Ok(())
}

/// A line that was sent.
#[tactic(auto, unfolding(crate::specs::ReportLines::sent_line))]
pub fn append_sent(out: &mut Vec<u8>, line: LineRef<'_>) -> Result<(), NoMemory>
    ensures { OnOk result (out.new.items ≡ out.old.items ++ spec.sent_line (line_of line.entry)) }
{
    match line {
        LineRef::Payload(payload) => {
            out.extend_from_slice(b"> \"")?;
            append_escaped(out, payload)?;
            out.extend_from_slice(b"\"\n")?;
        }
        LineRef::Flush => out.extend_from_slice(b"> 0000\n")?,
        LineRef::Delim => out.extend_from_slice(b"> 0001\n")?,
        LineRef::End => out.extend_from_slice(b"> 0002\n")?,
    }
    Ok(())
}

/// What a reference points to, as in a line of references.
#[tactic(auto, unfolding(crate::specs::ReportLines::target_text))]
pub fn append_target(out: &mut Vec<u8>, target: &TargetRef<'_>) -> Result<(), NoMemory>
    ensures { OnOk result (out.new.items ≡ out.old.items ++ spec.target_text (seen target.now)) }
{
    match target {
        TargetRef::Object(id) => append_hex(out, id)?,
        TargetRef::Symbolic(name) => {
            out.extend_from_slice(b"@")?;
            out.extend_from_slice(name.as_bytes())?;
        }
    }
    Ok(())
}

/// A reference and what it points to.
#[tactic(auto, unfolding(crate::specs::ReportLines::ref_line))]
pub fn append_ref(out: &mut Vec<u8>, name: &[u8], target: &TargetRef<'_>) -> Result<(), NoMemory>
    ensures { OnOk result (out.new.items ≡ out.old.items ++ spec.ref_line name.now (seen target.now)) }
{
    out.extend_from_slice(b"ref ")?;
    append_target(out, target)?;
    out.extend_from_slice(b" ")?;
    out.extend_from_slice(name)?;
    out.extend_from_slice(b"\n")?;
    Ok(())
}

#[tactic(auto, unfolding(crate::specs::ReportLines::change_text))]
fn append_change(out: &mut Vec<u8>, old: &ObjectId, new: &ObjectId) -> Result<(), NoMemory>
    ensures { OnOk result (out.new.items ≡ out.old.items ++ spec.change_text old.now new.now) }
{
    append_hex(out, old)?;
    out.extend_from_slice(b" ")?;
    append_hex(out, new)
}

/// A line of the reflog of this name.
#[tactic(auto, unfolding(crate::specs::ReportLines::log_line))]
pub fn append_log(out: &mut Vec<u8>, name: &[u8], line: &LogLine) -> Result<(), NoMemory>
    ensures { OnOk result (out.new.items ≡ out.old.items ++ spec.log_line name.now line.now) }
{
    out.extend_from_slice(b"log ")?;
    out.extend_from_slice(name)?;
    out.extend_from_slice(b" ")?;
    append_change(out, &line.old, &line.new)?;
    out.extend_from_slice(b" ")?;
    out.extend_from_slice(line.message.as_bytes())?;
    out.extend_from_slice(b"\n")?;
    Ok(())
}

/// A commit of the border.
#[tactic(auto, unfolding(crate::specs::ReportLines::border_line))]
pub fn append_border(out: &mut Vec<u8>, id: &ObjectId) -> Result<(), NoMemory>
    ensures { OnOk result (out.new.items ≡ out.old.items ++ spec.border_line id.now) }
{
    out.extend_from_slice(b"border ")?;
    append_hex(out, id)?;
    out.extend_from_slice(b"\n")?;
    Ok(())
}

/// The id of a stored object.
#[tactic(auto, unfolding(crate::specs::ReportLines::id_line))]
pub fn append_id(out: &mut Vec<u8>, id: &ObjectId) -> Result<(), NoMemory>
    ensures { OnOk result (out.new.items ≡ out.old.items ++ spec.id_line id.now) }
{
    out.extend_from_slice(b"id ")?;
    append_hex(out, id)?;
    out.extend_from_slice(b"\n")?;
    Ok(())
}

/// The keep file that stays.
#[tactic(auto, unfolding(crate::specs::ReportLines::keep_line))]
pub fn append_keep(out: &mut Vec<u8>, path: &[u8]) -> Result<(), NoMemory>
    ensures { OnOk result (out.new.items ≡ out.old.items ++ spec.keep_line path.now) }
{
    out.extend_from_slice(b"keep ")?;
    out.extend_from_slice(path)?;
    out.extend_from_slice(b"\n")?;
    Ok(())
}

/// Why a fetch was refused.
#[tactic(auto, unfolding(crate::specs::ReportLines::refused_line))]
pub fn append_refused(out: &mut Vec<u8>, token: &[u8]) -> Result<(), NoMemory>
    ensures { OnOk result (out.new.items ≡ out.old.items ++ spec.refused_line token.now) }
{
    out.extend_from_slice(b"refused ")?;
    out.extend_from_slice(token)?;
    out.extend_from_slice(b"\n")?;
    Ok(())
}

#[tactic(auto, unfolding(crate::specs::ReportLines::counted_line))]
pub(crate) fn append_counted(out: &mut Vec<u8>, word: &[u8], n: usize) -> Result<(), NoMemory>
    ensures { OnOk result (out.new.items ≡ out.old.items ++ spec.counted_line word.now n) }
{
    out.extend_from_slice(word)?;
    append_number(out, n)?;
    out.extend_from_slice(b"\n")?;
    Ok(())
}

/// Where input is no scene.
#[tactic(auto, unfolding(crate::specs::ReportLines::malformed_line))]
pub(crate) fn append_malformed(out: &mut Vec<u8>, place: usize) -> Result<(), NoMemory>
    ensures { OnOk result (out.new.items ≡ out.old.items ++ spec.malformed_line place) }
{
    append_counted(out, b"malformed ", place)
}

/// Which word is wrong, counted from 1.
#[tactic(auto, unfolding(crate::specs::ReportLines::malformed_word_line))]
pub(crate) fn append_malformed_word(out: &mut Vec<u8>, number: usize) -> Result<(), NoMemory>
    ensures { OnOk result (out.new.items ≡ out.old.items ++ spec.malformed_word_line number) }
{
    append_counted(out, b"malformed word ", number)
}
