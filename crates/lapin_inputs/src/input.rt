//! Reading the whole input, up to the limit on its length. `answer` calls it once.
ghost use Rattle.std.specs.Prelude.{◌≡◌, ◌+◌, ◌≤◌, ◌<◌, ◌++◌, ℕ, List, length, vec_len, IfOk, IsErrOf};
ghost use Rattle.std.specs.Io.KnownBytes.{Consumes, IsAtEnd};
ghost use Rattle.lapin_io.specs.Numbers.{counted, Rose, RoseBy};
ghost use Rattle.lapin_inputs.specs.declared.input.InputError.TheVariants.{Fault, NoMemory};
ghost use Rattle.lapin_inputs.specs.Reading.{longest_input, ReadsAll, IsTooLong};

use lapin_io::{Failed, Source};
use std::alloc::{AllocError, Global};

/// The longest input in bytes.
const LONGEST_INPUT: usize = 1 << 24;

/// The most bytes that are asked for at once: so few that they are still in the processor's nearest memory as they are copied on.
const CHUNK: usize = 4_032;

/// Why an input could not be read.
#[derive(Clone, Copy, Debug, PartialEq, Eq)]
pub enum InputError {
    /// The source failed.
    Fault,
    /// More than 16,777,216 bytes come before the end of the input.
    TooLong,
    /// There was no memory for the bytes.
    NoMemory,
}

impl From<Failed> for InputError {
    ghost from_gives = { λ _ error. error ≡ Fault };

    fn from(_failed: Failed) -> InputError {
        InputError::Fault
    }
}

impl From<AllocError> for InputError {
    ghost from_gives = { λ _ error. error ≡ NoMemory };

    fn from(_error: AllocError) -> InputError {
        InputError::NoMemory
    }
}

/// A buffer of this length.
fn zeros(alloc: Global, length: usize) -> Result<Vec<u8>, AllocError>
    ensures { IfOk result (λ zeros. vec_len zeros ≡ length) }
{
    vec![in alloc; 0; length]
}

/// One read, by way of `chunk`: appends what the source gives to `bytes` and answers how much that was.
fn read_more<S: Source>(
    source: &mut S,
    chunk: &mut [u8],
    bytes: &mut Vec<u8>,
) -> Result<usize, InputError>
    requires { 0 < length chunk.old }
    ensures more { IfOk result (λ n. (more : List ℕ)
        × (bytes.new.items ≡ bytes.old.items ++ more)
        × (length more ≡ n)
        × Consumes (S.left source.old) (S.left source.new) more) }
    ensures within { IfOk result (λ n. n ≤ length chunk.old) }
    ensures end { IfOk result (λ n. n ≡ 0 → IsAtEnd (S.left source.new)) }
    ensures given { IfOk result (λ n. S.given source.new ≡ counted (S.given source.old) n) }
    ensures faults { S.faults source.old ≤ S.faults source.new }
    ensures fault { IsErrOf result InputError.Fault → Rose (S.faults source.old) (S.faults source.new) }
    ensures no_limit { IsErrOf result InputError.TooLong → ⊥ }
{
    let count = source.read(chunk)?;
    bytes.extend_from_slice(&chunk[..count])?;
    Ok(count)
}

/// Reads the input to its end. It takes at least a byte a turn and stops at the first byte past the limit.
pub fn read_all<S: Source>(alloc: Global, source: &mut S) -> Result<Vec<u8>, InputError>
    ensures all { IfOk result (λ bytes. ReadsAll (S.left source.old) (S.left source.new) bytes.items) }
    ensures short { IfOk result (λ bytes. length bytes.items ≤ longest_input) }
    ensures given { IfOk result (λ bytes. RoseBy (length bytes.items) (S.given source.old) (S.given source.new)) }
    ensures fault { IsErrOf result InputError.Fault → Rose (S.faults source.old) (S.faults source.new) }
    ensures too_long { IsErrOf result InputError.TooLong → IsTooLong (S.left source.old) }
    ensures taken { IsErrOf result InputError.TooLong →
        RoseBy (longest_input + 1) (S.given source.old) (S.given source.new) }
{
    let mut bytes = Vec::new(alloc);
    let mut chunk = zeros(alloc, CHUNK)?;
    while bytes.len() <= LONGEST_INPUT {
        let room = CHUNK.min(LONGEST_INPUT + 1 - bytes.len());
        let count = read_more(source, &mut chunk[..room], &mut bytes)?;
        if count == 0 {
            return Ok(bytes);
        }
    }
    Err(InputError::TooLong)
}
