//! How the program ends.
ghost use Rattle.std.specs.Prelude.{◌≡◌};
ghost use Rattle.lapin_inputs.specs.Status.{code_of};

/// How a run of the program ended.
#[derive(Clone, Copy, Debug, PartialEq, Eq)]
pub enum Status {
    /// The whole text was written.
    Fine,
    /// The words are no command. Nothing was read or written.
    BadWords,
    /// A line of the input is not in the format. The text up to it was written, and its number.
    BadLine,
    /// There was no memory. A prefix of the text was written.
    NoMemory,
    /// The source failed. Nothing was written.
    ReadFault,
    /// The sink failed. A prefix of the text was written.
    WriteFault,
    /// The input is longer than 16,777,216 bytes. Nothing was written.
    InputTooLong,
}

impl Status {
    /// The exit status of the process: 0 to 6, in the order of the variants.
    pub fn code(&self) -> u8
        ensures { result ≡ code_of self.now }
    {
        *self as u8
    }
}
