//! Writing a text: whole, or in pieces while more of it comes. `printing` calls it, and who has the whole text.
ghost use Rattle.std.specs.Prelude.{◌≡◌, ◌≤◌, ◌++◌, ℕ, List, OnOk, OnErr, IsErrOf};
ghost use Rattle.std.specs.Io.KnownBytes.{Appends};
ghost use Rattle.lapin_io.specs.Numbers.{Rose, Stayed};
ghost use Rattle.lapin_inputs.specs.Writing.{WritesPrefix};

use lapin_io::{Sink, SinkError};

/// As many bytes are held before they are put out.
const PIECE: usize = 1 << 16;

/// Writes the whole text. Each turn puts out a byte at least, or ends with a fault of the sink.
pub fn write_all<K: Sink>(sink: &mut K, text: &[u8]) -> Result<(), SinkError>
    ensures whole { OnOk result (Appends (K.written sink.old) (K.written sink.new) text.now) }
    ensures faultless { OnOk result (Stayed (K.faults sink.old) (K.faults sink.new)) }
    ensures prefix { WritesPrefix (K.written sink.old) (K.written sink.new) text.now }
    ensures fault { IsErrOf result SinkError.Failed → Rose (K.faults sink.old) (K.faults sink.new) }
    ensures faults { K.faults sink.old ≤ K.faults sink.new }
{
    let mut done = 0;
    while done < text.len() {
        let count = sink.write(&text[done..])?;
        if count == 0 {
            return Err(SinkError::Failed);
        }
        done += count;
    }
    Ok(())
}

/// Writes what is held, where it is long, and holds nothing then.
///
/// # Errors
/// Those of the sink; a prefix of what is held was then written.
pub fn put_out<K: Sink>(sink: &mut K, held: &mut Vec<u8>) -> Result<(), SinkError>
    // What was written and what is still held is what was held.
    ensures ok { OnOk result ((piece : List ℕ) × Appends (K.written sink.old) (K.written sink.new) piece × (held.old.items ≡ piece ++ held.new.items)) }
    ensures faultless { OnOk result (Stayed (K.faults sink.old) (K.faults sink.new)) }
    ensures prefix { OnErr result (WritesPrefix (K.written sink.old) (K.written sink.new) held.old.items) }
    ensures fault { IsErrOf result SinkError.Failed → Rose (K.faults sink.old) (K.faults sink.new) }
    ensures faults { K.faults sink.old ≤ K.faults sink.new }
{
    if held.len() < PIECE {
        return Ok(());
    }
    write_all(sink, held)?;
    held.clear();
    Ok(())
}
