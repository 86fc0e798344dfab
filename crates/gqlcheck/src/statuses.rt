/// How a run ended.
#[derive(Clone, Copy, Debug, PartialEq, Eq)]
pub enum Status {
    /// Nothing was reported of the one example, or all examples ran.
    Accepted = 0,
    /// Something was reported of the one example, or an example left a wrong state.
    Reported = 1,
    BadArguments = 2,
    OutOfMemory = 3,
    OutputFailed = 4,
    /// An example is wrong in itself.
    WrongRow = 5,
}

impl Status {
    /// The status that the process ends with.
    pub fn number(self) -> u8 {
        self as u8
    }
}
