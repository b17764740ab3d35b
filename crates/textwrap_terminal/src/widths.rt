//! The columns that a text takes on a terminal.
ghost use Rattle.std.specs.Prelude.{◌≡◌, ◌≤◌, length};
ghost use Rattle.textwrap_terminal.specs.TerminalUnits.{terminal_width};

use crate::states::TerminalState;
use textwrap_text::characters::columns;

/// The width of a text in terminal columns, where its sequences are read by the whole grammar of
/// ECMA-48. Each visible character counts as in `display_width` of `textwrap`.
///
/// The sequences are control sequences (CSI), up to a character from `@` to `~`; operating system
/// commands (OSC), up to BEL or a string terminator; other control strings (DCS, SOS, PM and APC),
/// up to a string terminator; ESC with characters from the space to `/` and one more; and ESC with
/// any other character. Where a control character of C1 opens a sequence, as CSI does, it may be one
/// of U+0080 to U+009F, or ESC and the character that stands 64 places before that, as `[` for CSI.
/// One that opens no such sequence is a sequence by itself. A sequence without an end goes on to the
/// end of the text.
///
/// `terminal_width("\x1b(Bab")` is 2, where `display_width` gives 3, since it takes ESC and `(`
/// alone for a sequence. The call always succeeds and needs no memory.
pub fn terminal_width(text: &str) -> usize
    ensures width { result ≡ terminal_width text.now }
    ensures bound { result ≤ length text.now }
{
    let mut state = TerminalState::Text;
    let mut width = 0;
    for (_, ch) in text.char_indices() {
        let (next, is_visible) = state.step(ch);
        width += if is_visible { columns(ch) } else { 0 };
        state = next;
    }
    width
}
