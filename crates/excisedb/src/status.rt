ghost use Rattle.std.specs.Prelude.{◌≡◌};

/// How a call of the program ended.
#[derive(Clone, Copy, Debug, PartialEq, Eq)]
pub enum Status {
    /// All was read, run and written.
    Done = 0,
    /// The words have none of the forms; the usage line was written.
    Words = 1,
    /// The script isn't in the grammar; a line that says so was written.
    Script = 2,
    /// The source failed, and nothing was written.
    ReadFault = 3,
    /// The sink failed, and a part of the text was written.
    WriteFault = 4,
    /// Memory was wanting, and a part of the text was written, if any.
    Memory = 5,
}

impl Status {
    ghost use Rattle.excisedb.specs.Codes.{code_of};

    /// The exit status of the program.
    pub fn code(&self) -> u8
        ensures { result ≡ code_of self.now }
    {
        *self as u8
    }
}
