//! Escape sequences in a text (ECMA-48), read one character at a time.
//!
//! ESC and `[` start a control sequence, which a character from `@` to `~` ends. ESC and `]` start
//! an operating system command, which BEL ends, or ESC and `\`. ESC and any other character are a
//! whole sequence. A sequence without an end goes on to the end of the text. In `"a\x1b[1mb"` the
//! sequence is `"\x1b[1m"`, and `"ab"` is visible.
ghost use Rattle.std.specs.Prelude.{◌≡◌};

/// What the next character of a text belongs to. After `"\x1b["` it is `State::Control`.
#[derive(Clone, Copy, Debug, PartialEq, Eq)]
pub enum State {
    /// No sequence: it is visible unless it is ESC.
    Text,
    /// The sequence of the ESC that was just read.
    Escape,
    /// A control sequence, after its ESC and `[`.
    Control,
    /// A command, after its ESC and `]`, with the last character read of it.
    Command(char),
}

impl State {
    ghost use Rattle.textwrap_text.specs.Escapes.{next_of, shows};

    /// The state after a character, and whether the character is visible. As `m` ends a control
    /// sequence, `State::Control.step('m')` is `(State::Text, false)`.
    pub fn step(self, ch: char) -> (State, bool)
        ensures { result ≡ (next_of self ch, shows self ch) }
    {
        match self {
            State::Text if ch == '\x1b' => (State::Escape, false),
            State::Text => (State::Text, true),
            State::Escape if ch == '[' => (State::Control, false),
            State::Escape if ch == ']' => (State::Command(ch), false),
            State::Escape => (State::Text, false),
            State::Control if matches!(ch, '@'..='~') => (State::Text, false),
            State::Control => (State::Control, false),
            State::Command(_) if ch == '\x07' => (State::Text, false),
            State::Command('\x1b') if ch == '\\' => (State::Text, false),
            State::Command(_) => (State::Command(ch), false),
        }
    }
}
