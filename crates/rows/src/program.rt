//! How a program of rows runs.

use crate::answers::say;
use crate::reading::{Row, lines, rows_of};
use fetch_store::NoMemory;
use std::alloc::Global;
use std::io::{self, Read, Write};
use std::process::ExitCode;

/// All that the program is given.
fn read_input(rt: &(impl Input + AllocGlobal)) -> io::Result<Vec<u8>> {
    let mut bytes = Vec::new(rt.alloc());
    rt.reader().read_to_end(&mut bytes)?;
    Ok(bytes)
}

/// Writes what is told, where all was such lines, and answers the program's status: 0 where that is done, 3 where it can't
/// be written, 4 where something is no such line, and 5 where memory runs out.
fn end(rt: &impl Print, told: Result<bool, NoMemory>, out: &[u8]) -> ExitCode {
    match told {
        Ok(true) => match io::writer(rt).write_all(out) {
            Ok(()) => ExitCode::SUCCESS,
            Err(_) => ExitCode::from(3),
        },
        Ok(false) => ExitCode::from(4),
        Err(NoMemory) => ExitCode::from(5),
    }
}

/// Tells of each line of a text, by this call, which answers whether it is such a line. Whether all of them are.
pub fn tell_lines<F>(
    alloc: Global,
    text: &[u8],
    out: &mut Vec<u8>,
    mut tell: F,
) -> Result<bool, NoMemory>
where
    F: FnMut(&[u8], &mut Vec<u8>) -> Result<bool, NoMemory>,
    requires { F.IsAlwaysCallable tell }
{
    for line in &lines(alloc, text)? {
        if !tell(line, out)? {
            return Ok(false);
        }
    }
    Ok(true)
}

/// Puts down the title of each row, and what this call tells of it, which answers whether it is such a row. Whether all of
/// them are.
fn tell_rows<F>(alloc: Global, bytes: &[u8], out: &mut Vec<u8>, tell: F) -> Result<bool, NoMemory>
where
    F: Fn(&Row<'_>, &mut Vec<u8>) -> Result<bool, NoMemory>,
    requires { F.IsAlwaysCallable tell }
{
    let Some(rows) = rows_of(alloc, bytes)? else {
        return Ok(false);
    };
    for row in &rows {
        say(out, &[b"=", row.whose, row.about])?;
        if !tell(row, out)? {
            return Ok(false);
        }
    }
    Ok(true)
}

/// Runs a program whose input is rows, of which this call tells, and answers its status: 0 where it has written what all
/// rows tell, 2 where its input can't be read, 3 where that can't be written, 4 where something is no row, and 5 where memory
/// runs out.
pub fn run_rows<R, F>(rt: &R, tell: F) -> ExitCode
where
    R: Input + Print + AllocGlobal,
    F: Fn(&Row<'_>, &mut Vec<u8>) -> Result<bool, NoMemory>,
    requires { F.IsAlwaysCallable tell }
{
    let mut out = Vec::new(rt.alloc());
    match read_input(rt) {
        Ok(bytes) => {
            let told = tell_rows(rt.alloc(), &bytes, &mut out, tell);
            end(rt, told, &out)
        }
        Err(_) => ExitCode::from(2),
    }
}

/// The same of a program whose input is lines.
pub fn run_lines<R, F>(rt: &R, tell: F) -> ExitCode
where
    R: Input + Print + AllocGlobal,
    F: FnMut(&[u8], &mut Vec<u8>) -> Result<bool, NoMemory>,
    requires { F.IsAlwaysCallable tell }
{
    let mut out = Vec::new(rt.alloc());
    match read_input(rt) {
        Ok(bytes) => {
            let told = tell_lines(rt.alloc(), &bytes, &mut out, tell);
            end(rt, told, &out)
        }
        Err(_) => ExitCode::from(2),
    }
}
