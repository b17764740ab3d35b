//! The indents that lines begin with.
ghost use Rattle.std.specs.Prelude.{◌≡◌, IsCharBoundary};
ghost use Rattle.textwrap_styles.specs.Indents.{indent_end};

/// How many bytes of a line are its indent: none where it does not begin with that.
pub fn indent_end(line: &str, indent: &str) -> usize
    ensures len { result ≡ indent_end indent.now line.now }
    ensures boundary { IsCharBoundary line.now result }
{
    if line.starts_with(indent) {
        indent.len()
    } else {
        0
    }
}
