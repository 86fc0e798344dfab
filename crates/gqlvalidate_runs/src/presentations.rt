//! How reports are presented.

use gqlvalidate_formats::Style;
use gqlvalidate_inputs::terminals::Terminal;
use gqlvalidate_words::{Color, Reporting};

/// Which reports are written, in which format, and in which colours and columns.
#[derive(Clone, Copy)]
pub struct Presentation {
    pub reporting: Reporting,
    pub style: Style,
}

impl Presentation {
    /// Presents reports as the command line says. If it leaves the colours open, the terminal decides.
    pub fn new(reporting: Reporting, terminal: Terminal) -> Presentation {
        let colored = match reporting.color {
            Color::Auto => terminal.colored,
            Color::Always => true,
            Color::Never => false,
        };
        Presentation {
            reporting,
            style: Style::new(colored, terminal.columns),
        }
    }
}
