//! Styles and links that go on over the ends of lines: each line sets anew what is open where it
//! begins, and ends plain.
ghost use Rattle.std.specs.Prelude.{◌≡◌, ℕ, ◌<◌, ◌==◌, List, [], ◌∷◌, ◌++◌, chars, length, true};
ghost use Rattle.std.specs.Prelude.{drop, encode_utf8_all, if◌then◌else◌, is_some, map};
ghost use Rattle.std.specs.Prelude.{string_bytes, take, IfOk, IfSome, IsCharBoundary, IsUtf8};
ghost use Rattle.std.specs.Prelude.{MatchOption, OnOk};
ghost use Rattle.std.specs.Int.{is_in_range};
ghost use Rattle.std.specs.List.{list_all};
ghost use Rattle.std.specs.Option.{option_copied, option_to_list};
ghost use Rattle.textwrap_styles.specs.OpenStyles.{AreOpen, IsKeptAfter, IsReadTo};
ghost use Rattle.textwrap_styles.specs.Settings.{open_settings, settings};
ghost use Rattle.textwrap_styles.specs.Styles.{carried_lines, closing, id_before, is_link, is_style, link_end};
ghost use Rattle.textwrap_styles.specs.Styles.{link_target, names_id, opening, sequences, style_end};
ghost use Rattle.textwrap_styles.specs.Styles.{style_parameters, texts_of, with_id};
ghost use Rattle.textwrap_layout.specs.Paragraph.{Built, Slice, line_view};
ghost use Rattle.textwrap_text.specs.Units.{escape_len};

use crate::indents::indent_end;
use crate::latest::keep_open;
use crate::settings::{kind_of, next_setting};
use itoa::Buffer;
use std::alloc::{AllocError, Allocator};
use std::borrow::CowStr;
use textwrap::Options;
use textwrap_text::escapes::State;

/// Takes all styles back.
const STYLE_END: &str = "\x1b[0m";
/// Ends a link.
const LINK_END: &str = "\x1b]8;;\x1b\\";
/// Does both.
const STYLE_AND_LINK_END: &str = "\x1b[0m\x1b]8;;\x1b\\";

/// The lines of one text, each so that it stands by itself: what is open where a line ends is ended
/// there, and set anew in the next line, after its indent. So lines may stand beside other text, as
/// in a frame or a table, and each looks as it did in its text.
///
/// `"a \x1b[1;31mb"`, `"c\x1b[39md"` and `"e"` become `"a \x1b[1;31mb\x1b[0m"`,
/// `"\x1b[1m\x1b[31mc\x1b[39md\x1b[0m"` and `"\x1b[1me\x1b[0m"`. A line that begins and ends plain
/// stays as it is, and is not copied.
///
/// - A style is ESC `[`, digits, colons and semicolons, and `m` (SGR). Its parameters are settings,
///   which semicolons part (ECMA-48 8.3.117, and what terminals add). A setting sets an attribute
///   or ends it: 1 is bold and 2 faint, both of which 22 ends; 3 is italic and 20 Gothic, both of
///   which 23 ends; 4 and 21 underline until 24; 5 and 6 blink until 25; 7 is inverse until 27; 8
///   is hidden until 28; 9 is crossed out until 29; 11 to 19 are fonts until 10; 30 to 37, 38 and
///   90 to 97 are the foreground until 39; 40 to 47, 48 and 100 to 107 the background until 49;
///   51 and 52 are framed until 54; 53 is overlined until 55; 58 is the colour of the underline
///   until 59. 0 or nothing ends all.
/// - 38, 48 and 58 take the colour that follows them: `5;n`, `2;r;g;b`, or whatever colons join to
///   them. `4:3` and its like are underlines, and `4:0` ends them.
/// - A later setting of an attribute takes the place of an earlier one. Each that is open is
///   written as a sequence of its own, in the order in which they were set.
/// - A setting that is not among these is open until all is ended, and takes the rest of its
///   sequence, which may be its own. Of equal ones the last is open. Behind it, what ends an
///   attribute is set anew too, since it may end what the unknown setting set.
/// - A link is set by ESC `]8;`, parameters, a semicolon, its target, and BEL or ESC `\` (OSC 8,
///   the hyperlinks of terminals). A later one takes its place, and one without a target ends it.
///   It is set anew with its `id=`, or with `id=w` and how many links were set or ended so far: a
///   terminal takes parts with one id for one link.
/// - All other sequences are left as they are.
///
/// The indents are those of the options, by which `wrap` made the lines; nothing else of the
/// options is read. A sequence in an indent is left as it is and does not go on, so an indent
/// should end plain. A line that does not begin with its indent has none.
///
/// A sequence that a line end cuts in two is read as `display_width` reads it, in each line by
/// itself: the part in the first line has no end, so it may take in what is added after it, and the
/// rest is visible in the second line.
///
/// The time grows with what is read and written, times a logarithm at most.
///
/// # Errors
/// Out of memory, also where a line would be longer than 64 bits can say.
pub fn carry_styles<'l, A: Allocator + Copy>(
    alloc: A,
    lines: &'l [CowStr<'_, A>],
    options: &Options<'_>,
) -> Result<Vec<CowStr<'l, A>, A>, AllocError>
    ensures { IfOk result (λ carried. map line_view carried.items
        ≡ carried_lines options.now.initial_indent.now options.now.subsequent_indent.now []
        (texts_of lines.now)) }
{
    let mut carried = Vec::with_capacity(alloc, lines.len())?;
    let mut open = OpenStyles::new(alloc);
    let mut opening = String::new(alloc);
    let mut indent = options.initial_indent;
    for line in lines {
        let line = line.as_str();
        let indent_end = indent_end(line, indent);
        // Written before the line is read, which changes what is open.
        opening.clear();
        open.push_opening(&mut opening)?;
        open.read(alloc, &line[indent_end..])?;
        carried.push(enclosed(alloc, line, indent_end, &opening, open.closing())?)?;
        indent = options.subsequent_indent;
    }
    Ok(carried)
}

/// The line with `opening` after its indent and `closing` at its end. Where both are empty it is
/// not copied.
fn enclosed<'l, A: Allocator>(
    alloc: A,
    line: &'l str,
    indent_end: usize,
    opening: &str,
    closing: &str,
) -> Result<CowStr<'l, A>, AllocError>
    requires { IsCharBoundary line.now indent_end }
    ensures { IfOk result (λ whole. line_view whole
        ≡ (if length (opening.now ++ closing.now) == 0 then Slice line.now
        else Built (take indent_end line.now ++ opening.now ++ drop indent_end line.now
        ++ closing.now))) }
{
    let added = opening.len().checked_add(closing.len()).ok_or(AllocError)?;
    if added == 0 {
        return Ok(CowStr::Borrowed(line));
    }
    // Reserved at once, so that a text that fits no memory is refused before a byte is copied.
    let len = line.len().checked_add(added).ok_or(AllocError)?;
    let mut text = String::with_capacity(alloc, len)?;
    text.push_str(&line[..indent_end])?;
    text.push_str(opening)?;
    text.push_str(&line[indent_end..])?;
    text.push_str(closing)?;
    Ok(CowStr::Owned(text))
}

/// What ends all that is open at the end of a text. A text without an escape sequence is looked
/// through for one, and nothing more.
pub fn closing_of<A: Allocator + Copy>(alloc: A, text: &str) -> Result<&'static str, AllocError>
    ensures { IfOk result (λ end. end.now ≡ closing (sequences text.now)) }
{
    let mut open = OpenStyles::new(alloc);
    open.read(alloc, text)?;
    Ok(open.closing())
}

/// What is open at a place of a text.
#[derive(Drop)]
struct OpenStyles<'t, A: Allocator> {
    /// The settings that are open, and in the middle of a line all since all ended.
    settings: Vec<&'t str, A>,
    /// The sequence of the link, if there is one.
    link: Option<&'t str>,
    /// How many links were set or ended.
    links: usize,
}

impl<'t, A: Allocator + Copy> OpenStyles<'t, A> {
    /// Nothing is open.
    fn new(alloc: A) -> Self
        ensures { IsKeptAfter [] result }
    {
        OpenStyles {
            settings: Vec::new(alloc),
            link: None,
            links: 0,
        }
    }

    /// Goes on over a text.
    fn read(&mut self, alloc: A, text: &'t str) -> Result<(), AllocError>
        ensures { (before : List (List ℕ)) → IsKeptAfter before self.old
            → OnOk result (IsKeptAfter (before ++ sequences text.now) self.new) }
    {
        let mut left = text;
        while let Some((sequence, rest)) = next_sequence(left) {
            self.read_sequence(sequence)?;
            left = rest;
        }
        keep_open(alloc, &mut self.settings)
    }

    /// Goes on over an escape sequence.
    fn read_sequence(&mut self, sequence: &'t str) -> Result<(), AllocError>
        ensures { (before : List (List ℕ)) → IsReadTo before self.old
            → OnOk result (IsReadTo (before ++ sequence.now ∷ []) self.new) }
    {
        if let Some(parameters) = style_parameters(sequence) {
            self.read_parameters(parameters)?;
        } else if let Some(target) = link_target(sequence) {
            self.links = self.links.saturating_add(1);
            self.link = if target.is_empty() {
                None
            } else {
                Some(sequence)
            };
        }
        Ok(())
    }

    /// Goes on over the parameters of a style.
    fn read_parameters(&mut self, parameters: &'t str) -> Result<(), AllocError>
        requires { list_all (is_in_range 0x30 0x3B) parameters.now ≡ true }
        ensures settings { (before : List (List ℕ)) → AreOpen (open_settings before) self.old
            → OnOk result (AreOpen (open_settings (before ++ settings parameters.now)) self.new) }
        ensures link { self.new.link ≡ self.old.link }
        ensures links { self.new.links ≡ self.old.links }
    {
        let mut left = parameters;
        loop {
            let (setting, rest) = next_setting(left);
            self.read_setting(setting)?;
            let Some(rest) = rest else {
                return Ok(());
            };
            left = rest;
        }
    }

    /// Goes on over a setting.
    fn read_setting(&mut self, setting: &'t str) -> Result<(), AllocError>
        ensures settings { (before : List (List ℕ)) → AreOpen (open_settings before) self.old
            → OnOk result (AreOpen (open_settings (before ++ setting.now ∷ [])) self.new) }
        ensures link { self.new.link ≡ self.old.link }
        ensures links { self.new.links ≡ self.old.links }
    {
        if kind_of(setting).is_reset() {
            self.settings.clear();
        } else {
            self.settings.push(setting)?;
        }
        Ok(())
    }

    /// Adds what sets anew all that is open.
    fn push_opening(&self, text: &mut String<A>) -> Result<(), AllocError>
        ensures { (before : List (List ℕ)) → IsKeptAfter before self.now → OnOk result
            (string_bytes text.new ≡ string_bytes text.old ++ opening before) }
    {
        if let Some(link) = self.link {
            push_link(text, link, self.links)?;
        }
        for setting in &self.settings {
            text.push_str("\x1b[")?;
            text.push_str(setting)?;
            text.push_str("m")?;
        }
        Ok(())
    }

    /// What ends all that is open.
    fn closing(&self) -> &'static str
        ensures { (before : List (List ℕ)) → IsKeptAfter before self.now
            → result.now ≡ closing before }
    {
        ending(self.settings.is_empty(), self.link)
    }
}

/// Adds the sequence of a link, with this number as its id where it has none.
fn push_link<A: Allocator>(
    text: &mut String<A>,
    link: &str,
    number: usize,
) -> Result<(), AllocError>
    ensures { is_link link.now ≡ true → OnOk result
        (string_bytes text.new ≡ string_bytes text.old ++ with_id number link.now) }
{
    let Some(fields) = link.strip_prefix("\x1b]8;") else {
        return Ok(());
    };
    if names_id(fields.as_bytes()) {
        return text.push_str(link);
    }
    text.push_str("\x1b]8;")?;
    push_id(text, number, fields)?;
    text.push_str(fields)
}

/// Adds the id of this number, and a colon where parameters follow it.
fn push_id<A: Allocator>(
    text: &mut String<A>,
    number: usize,
    fields: &str,
) -> Result<(), AllocError>
    ensures { OnOk result
        (string_bytes text.new ≡ string_bytes text.old ++ id_before number fields.now) }
{
    text.push_str("id=w")?;
    text.push_str(Buffer::new().format(number))?;
    if fields.starts_with(';') {
        return Ok(());
    }
    text.push_str(":")
}

/// Whether one of the parameters, which colons part and a semicolon ends, is an id.
fn names_id(fields: &[u8]) -> bool
    ensures { result ≡ names_id fields.now }
{
    let mut begins = true;
    let mut left = fields;
    while let [first, rest @ ..] = left {
        if *first == b';' {
            return false;
        }
        if begins && left.starts_with(b"id=") {
            return true;
        }
        begins = *first == b':';
        left = rest;
    }
    false
}

/// What ends all styles, unless the text is plain without it, and the link, if there is one.
fn ending(plain: bool, link: Option<&str>) -> &'static str
    ensures { result.now ≡ (if plain then [] else style_end)
        ++ (if length (option_to_list (option_copied link.entry)) == 0 then [] else link_end) }
{
    match (plain, link) {
        (true, None) => "",
        (false, None) => STYLE_END,
        (true, Some(_)) => LINK_END,
        (false, Some(_)) => STYLE_AND_LINK_END,
    }
}

/// The first escape sequence of a text, and what follows it.
// Each text with colours goes through it many times: a call would be a quarter of its cost.
#[inline(always)]
fn next_sequence(text: &str) -> Option<(&str, &str)>
    ensures sequences { MatchOption result (sequences text.now ≡ [])
        (λ found. sequences text.now ≡ found.0.now ∷ sequences found.1.now) }
    ensures shorter { IfSome result (λ found. length found.1.now < length text.now) }
    ensures utf8 { IfSome result (λ found. IsUtf8 found.1.now) }
{
    let (before, after) = text.split_once('\x1b')?;
    let start = before.len();
    let end = start + 1 + sequence_tail_len(after);
    Some((&text[start..end], &text[end..]))
}

/// How many bytes after an ESC belong to its sequence.
fn sequence_tail_len(after: &str) -> usize
    ensures { result
        ≡ length (encode_utf8_all (take (escape_len (chars after.now)) (chars after.now))) }
{
    let mut state = State::Escape;
    for (at, ch) in after.char_indices() {
        if matches!(state, State::Text) {
            return at;
        }
        let (next, _) = state.step(ch);
        state = next;
    }
    after.len()
}

/// The parameters of a sequence that sets a style or takes all back: `"1;31"` of `"\x1b[1;31m"`.
fn style_parameters(sequence: &str) -> Option<&str>
    ensures style { is_some result ≡ is_style sequence.now }
    ensures parameters { IfSome result (λ parameters.
        parameters.now ≡ style_parameters sequence.now) }
{
    let parameters = sequence.strip_prefix("\x1b[")?.strip_suffix("m")?;
    if are_style_parameters(parameters) {
        Some(parameters)
    } else {
        None
    }
}

/// Whether these are digits, colons and semicolons alone.
fn are_style_parameters(parameters: &str) -> bool
    ensures { result ≡ list_all (is_in_range 0x30 0x3B) parameters.now }
{
    parameters.bytes().all(|byte| matches!(byte, b'0'..=b';'))
}

/// The target of a sequence that sets a link, which is empty where it ends one: `"http://x"` of
/// `"\x1b]8;id=1;http://x\x07"`.
fn link_target(sequence: &str) -> Option<&str>
    ensures link { is_some result ≡ is_link sequence.now }
    ensures target { IfSome result (λ target.
        target.now ≡ link_target sequence.now) }
{
    let fields = sequence.strip_prefix("\x1b]8;")?;
    let fields = fields
        .strip_suffix("\x07")
        .or(fields.strip_suffix("\x1b\\"))?;
    let (_, target) = fields.split_once(';')?;
    Some(target)
}
