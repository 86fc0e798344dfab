/// What text is printed on.
#[derive(Clone, Copy)]
pub struct Terminal {
    /// Whether text has colours, if the command line leaves that open.
    pub colored: bool,
    /// How many columns a line of source has at most.
    pub columns: usize,
}

impl Terminal {
    /// How many columns a terminal has that does not say how many.
    pub const COLUMNS: usize = 100;

    /// No terminal: a file, say.
    pub const PLAIN: Terminal = Terminal {
        colored: false,
        columns: Terminal::COLUMNS,
    };
}
