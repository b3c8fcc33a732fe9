//! Makes the call of each row of standard input, and prints the rows that have another answer, and how many rows there
//! were. `stdin` has the rows, and `stdout` what is printed of them.
//!
//! A row is a call, a blank, what it is given, `|`, and its answer, before which stands the value that the call borrows, if
//! it borrows one. A row without an answer is printed with the one it has. A line that begins with `#` is no row.
//!
//! With words it makes calls on one long text (`growth.rt`).
#![tactic(auto)]

mod answers;
mod growth;
mod lists;
mod owned;
mod requirements;
mod tasks;
mod text;
mod values;

use growth::grow;
use std::alloc::{AllocError, Global};
use std::{env, io};
use text::{expanded, first_word};

// The room for an answer. What fits into it is written without memory.
const ROOM: usize = 16 * 1024;

fn main(rt: HostRuntime) -> io::Result<()> {
    let words: Vec<String> = env::args(&rt)?.skip(1).collect(rt.alloc())?;
    match words.as_slice() {
        [] => try_rows(&rt),
        words => grow(&rt, words),
    }
}

fn try_rows(rt: &HostRuntime) -> io::Result<()> {
    let mut output = String::with_capacity(rt.alloc(), ROOM)?;
    let rows = io::read_to_string(rt.alloc(), rt.stdin())?;
    let mut count = 0_usize;
    for row in rows.lines() {
        if !row.starts_with('#') {
            try_row(rt, row, &mut output)?;
            count = count.saturating_add(1);
        }
    }
    println!(rt; "rows: {count}")
}

fn try_row(rt: &HostRuntime, row: &str, output: &mut String) -> io::Result<()> {
    let (asked, wanted) = match row.split_once('|') {
        Some((asked, wanted)) => (asked, Some(wanted)),
        None => (row, None),
    };
    let asked = expanded(rt.alloc(), asked)?;
    let (call, given) = first_word(asked.as_str());
    output.clear();
    owned::answer(rt.alloc(), call, given, output)?;
    match wanted {
        Some(wanted) if is_answer(rt.alloc(), wanted, output.as_str())? => Ok(()),
        _ => println!(rt; "{asked}|{output}"),
    }
}

// Whether an answer is the wanted one, which may be written shorter.
fn is_answer(alloc: Global, wanted: &str, output: &str) -> Result<bool, AllocError> {
    Ok(output == wanted || expanded(alloc, wanted)?.as_str() == output)
}
