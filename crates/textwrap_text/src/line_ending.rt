//! What ends a line.
ghost use Rattle.std.specs.Prelude.{◌≡◌};

/// A line ending. Cut at `LineEnding::CRLF`, `"a\r\nb\nc"` has the paragraphs `"a"` and `"b\nc"`.
#[derive(Clone, Copy, Debug, PartialEq, Eq)]
pub enum LineEnding {
    /// Carriage return and line feed.
    CRLF,
    /// Line feed.
    LF,
}

impl LineEnding {
    ghost use Rattle.textwrap_text.specs.LineEnding.{ending_bytes};

    /// The ending itself, `"\r\n"` or `"\n"`.
    pub fn as_str(&self) -> &'static str
        ensures { result.now ≡ ending_bytes self.now }
    {
        match self {
            LineEnding::CRLF => "\r\n",
            LineEnding::LF => "\n",
        }
    }
}
