ghost use Rattle.std.specs.Prelude.{◌≡◌, ◌≤◌, ◌⊎◌};
ghost use Rattle.gqlvalidate_inputs.specs.Statuses.{number_of};

/// How a run ended.
#[derive(Clone, Copy, Debug, PartialEq, Eq)]
pub enum Status {
    /// Nothing was reported of any file.
    Accepted = 0,
    /// Something was reported of a file.
    Reported = 1,
    BadArguments = 2,
    OutOfMemory = 3,
    OutputFailed = 4,
    /// A file could not be read, whatever was reported of others.
    Unreadable = 5,
}

impl Status {
    /// The status that the process ends with.
    pub fn number(self) -> u8
        ensures { result ≡ number_of self }
    {
        self as u8
    }

    /// The status of two files together: the graver one of what was found in them.
    pub fn with(self, other: Status) -> Status
        ensures grave { number_of self ≤ number_of result × number_of other ≤ number_of result }
        ensures one { (result ≡ self) ⊎ (result ≡ other) }
    {
        if self.number() < other.number() {
            other
        } else {
            self
        }
    }
}
