//! The widths of the lines of a division.
ghost use Rattle.std.specs.Prelude.{◌≡◌};
ghost use Rattle.textwrap_base.specs.Division.{line_width};

/// The width of line `number`, counted from 0: the last width serves all later lines, and without
/// any it is 0.
pub(crate) fn line_width(line_widths: &[usize], number: usize) -> usize
    ensures { result ≡ line_width line_widths.now number }
{
    let last = line_widths.len().saturating_sub(1);
    line_widths.get(number.min(last)).copied().unwrap_or(0)
}
