//! The sequences of a text (ECMA-48), read one character at a time as a terminal does.
ghost use Rattle.std.specs.Prelude.{◌≡◌};

/// How a sequence goes on behind what opens it.
#[derive(Clone, Copy, Debug, PartialEq, Eq)]
pub enum Part {
    /// A control sequence, which a character from `@` to `~` ends.
    Control,
    /// An operating system command, which BEL ends, or a string terminator.
    Command,
    /// Another control string, which only a string terminator ends.
    Other,
    /// More characters from the space to `/`, and one that is none of these and ends the sequence.
    Intermediates,
}

impl Part {
    ghost use Rattle.textwrap_terminal.specs.TerminalUnits.{control_part, escape_part, ends_in};

    /// What a control character of C1 has behind it, given by its 8-bit form. U+009B has
    /// `Part::Control`.
    pub fn of_control(code: u32) -> Option<Part>
        ensures { result ≡ control_part code }
    {
        match code {
            0x9b => Some(Part::Control),
            0x9d => Some(Part::Command),
            0x90 | 0x98 | 0x9e | 0x9f => Some(Part::Other),
            _ => None,
        }
    }

    /// What ESC and a character have behind them. ESC and `[` have `Part::Control`.
    pub fn of_escape(ch: char) -> Option<Part>
        ensures { result ≡ escape_part ch }
    {
        if matches!(ch, ' '..='/') {
            return Some(Part::Intermediates);
        }
        Part::of_control(ch as u32 + 64)
    }

    /// Whether a character ends the part, behind this one. BEL ends `Part::Command`.
    pub fn is_ended(self, before: char, ch: char) -> bool
        ensures { result ≡ ends_in self before ch }
    {
        let is_terminator = ch == '\u{9c}' || before == '\x1b' && ch == '\\';
        match self {
            Part::Control => matches!(ch, '@'..='~'),
            Part::Command => ch == '\x07' || is_terminator,
            Part::Other => is_terminator,
            Part::Intermediates => !matches!(ch, ' '..='/'),
        }
    }
}

/// What the next character of a text belongs to. After `"\x1b["` it is in `Part::Control`.
#[derive(Clone, Copy, Debug, PartialEq, Eq)]
pub enum TerminalState {
    /// No sequence: it is visible unless it opens one.
    Text,
    /// The sequence of the ESC that was just read.
    Escape,
    /// This part of a sequence, behind this character.
    Inside(Part, char),
}

impl TerminalState {
    ghost use Rattle.textwrap_terminal.specs.States.{ends_common, entered, next_state, is_shown};

    /// The state before a part of a sequence, behind this character.
    fn entered(part: Option<Part>, ch: char) -> TerminalState
        ensures { result ≡ entered part ch }
    {
        match part {
            Some(part) => TerminalState::Inside(part, ch),
            None => TerminalState::Text,
        }
    }

    /// The state after a character, and whether the character is visible.
    pub fn step(self, ch: char) -> (TerminalState, bool)
        ensures { result ≡ (next_state self ch, is_shown self ch) }
    {
        match self {
            TerminalState::Text if ch == '\x1b' => (TerminalState::Escape, false),
            TerminalState::Text => {
                let is_visible = !matches!(ch, '\u{80}'..='\u{9f}');
                (
                    TerminalState::entered(Part::of_control(ch as u32), ch),
                    is_visible,
                )
            }
            TerminalState::Escape => (TerminalState::entered(Part::of_escape(ch), ch), false),
            TerminalState::Inside(part, before) if part.is_ended(before, ch) => (
                TerminalState::Text,
                false,
            ),
            TerminalState::Inside(part, _) => (TerminalState::Inside(part, ch), false),
        }
    }

    /// Whether a character ends a sequence for the library, too, if it takes the sequence as such.
    pub fn ends_common(self, ch: char) -> bool
        ensures { result ≡ ends_common self ch }
    {
        match self {
            TerminalState::Inside(Part::Control, _) => matches!(ch, '@'..='~'),
            TerminalState::Inside(Part::Command, before) => {
                ch == '\x07' || before == '\x1b' && ch == '\\'
            }
            _ => false,
        }
    }
}
