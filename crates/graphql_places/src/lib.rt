//! Lines and columns of the bytes of a text.
#![tactic(auto)]

mod line_indexes;

ghost use Rattle.std.specs.Prelude.{◌≡◌, ◌↔◌, ◌<◌, ◌≤◌, ◌==◌, ℕ, List, length, slice_index, IsTrue};
ghost use Rattle.graphql_places.specs.Places.{begins_character, column, ends_line, IsPlaceOf, line, TerminatorEnds};

pub use line_indexes::LineIndex;

/// A place in a text, in lines and characters, both from 1.
///
/// Specification: 7.1.2 Errors.
#[derive(Clone, Copy, Debug, PartialEq, Eq)]
pub struct Place {
    pub line: usize,
    pub column: usize,
}

impl Place {
    /// The first place of a text.
    const FIRST: Place = Place { line: 1, column: 1 };

    /// The line and the column of a byte of the text, or of its end. Lines end at the line terminators of
    /// the specification: line feed, carriage return, or both in the order carriage return, line feed.
    /// All that is before the byte is read: for many places of one text there is `LineIndex`.
    ///
    /// Specification: 2.1.3 Line Terminators.
    pub fn of_byte(text: &str, at: usize) -> Place
        requires { at ≤ length text.now }
        ensures line { result.line ≡ line text.now at }
        ensures column { result.column ≡ column text.now at }
    {
        Place::FIRST.further(text.as_bytes(), 0, at)
    }

    /// The place of byte `end`, counted on from this one, which is that of byte `start`.
    #[tactic(auto, using(crate::proofs::LineLemmas::line_within, crate::proofs::LineLemmas::column_within))]
    fn further(self, bytes: &[u8], start: usize, end: usize) -> Place
        requires ordered { start ≤ end }
        requires within { end ≤ length bytes.now }
        requires from { IsPlaceOf bytes.now start self }
        ensures line { result.line ≡ line bytes.now end }
        ensures column { result.column ≡ column bytes.now end }
    {
        let mut line = self.line;
        let mut column = self.column;
        for k in start..end {
            if ends_line(bytes, k) {
                line += 1;
                column = 1;
            } else if begins_character(bytes, k) {
                column += 1;
            }
        }
        Place { line, column }
    }
}

fn ends_line(bytes: &[u8], k: usize) -> bool
    requires { k < length bytes.now }
    ensures { result ≡ ends_line bytes.now k }
{
    bytes[k] == b'\n' || (bytes[k] == b'\r' && !is_line_feed(bytes, k + 1))
}

fn is_line_feed(bytes: &[u8], k: usize) -> bool
    ensures { result ≡ (slice_index bytes.now k == 10) }
{
    k < bytes.len() && bytes[k] == b'\n'
}

fn begins_character(bytes: &[u8], k: usize) -> bool
    requires { k < length bytes.now }
    ensures { result ≡ begins_character bytes.now k }
{
    !(128 <= bytes[k] && bytes[k] <= 191)
}

/// A line ends with a byte exactly where a line terminator of the grammar does.
///
/// Specification: 2.1.3 Line Terminators.
pub fn lines_end_with_line_terminators()
    ensures { (text : List ℕ) (k : ℕ) → IsTrue (ends_line text k) ↔ TerminatorEnds text k }
{}
