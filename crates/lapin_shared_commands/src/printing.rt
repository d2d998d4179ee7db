//! The text of a history: each entry as its caller's number, a space and its record's line.
ghost use Rattle.std.specs.Prelude.{◌≡◌, ◌++◌, ◌∷◌, [], IfOk, OnOk};
ghost use Rattle.lapin_shared_commands.specs.Printed.{entry_line, history_text, run_text};

use lapin_inputs::put_bad_line;
use lapin_scalars::put_number;
use lapin_shared::{Entry, History};
use lapin_text::put_record;
use lapin_types::NoMemory;
use std::alloc::Global;

/// What is printed: the history, where there is one, and then the line that names the first bad line of the input. Room for so many bytes
/// is made at first, where there is memory for it.
pub fn print_run(
    alloc: Global,
    room: usize,
    history: &Option<History>,
    bad: Option<u64>,
) -> Result<Vec<u8>, NoMemory>
    ensures { IfOk result (λ text. text.items ≡ run_text history.now bad) }
{
    let mut text = Vec::new(alloc);
    let _ = text.reserve(room);
    if let Some(history) = history {
        put_history(alloc, &mut text, history)?;
    }
    put_bad_line(alloc, &mut text, bad)?;
    Ok(text)
}

/// Appends the lines of a history.
pub fn put_history(alloc: Global, text: &mut Vec<u8>, history: &History) -> Result<(), NoMemory>
    ensures { OnOk result (text.new.items ≡ text.old.items ++ history_text history.now) }
{
    for k in 0..history.len() {
        match history.at(k as u64 + 1) {
            Some(entry) => put_entry(alloc, text, entry)?,
            None => unreachable!(),
        }
    }
    Ok(())
}

/// Appends the line of an entry.
fn put_entry(alloc: Global, text: &mut Vec<u8>, entry: &Entry) -> Result<(), NoMemory>
    ensures { OnOk result (text.new.items ≡ text.old.items ++ (entry_line entry.now ++ 10 ∷ [])) }
{
    put_number(text, entry.caller)?;
    text.push(b' ')?;
    put_record(alloc, text, &entry.answer)?;
    text.push(b'\n')?;
    Ok(())
}
