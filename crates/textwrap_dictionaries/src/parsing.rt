//! Dictionaries that are read from texts.
ghost use Rattle.std.specs.Prelude.{◌≡◌, ◌≤◌, ◌==◌, ◌&&◌, ◌||◌, length, map, option_map, IfOk, IsUtf8};
ghost use Rattle.std.specs.List.{position_or_len, prefix_len, slice_split};
ghost use Rattle.std.specs.Char.{is_whitespace};
ghost use Rattle.std.specs.Option.{is_some, option_copied};
ghost use Rattle.std.specs.Str.Lines.{lines};
ghost use Rattle.textwrap_patterns.specs.Charsets.{charset_of};
ghost use Rattle.textwrap_dictionaries.specs.Entries.{entry_view, is_start};
ghost use Rattle.textwrap_dictionaries.specs.Parsing.{Reads, after_mark, before_comment, closed};
ghost use Rattle.textwrap_dictionaries.specs.Parsing.{closed_text, comment_in, count_fault, end_fault, ended};
ghost use Rattle.textwrap_dictionaries.specs.Parsing.{entered, first_number, has_input, header_after};
ghost use Rattle.textwrap_dictionaries.specs.Parsing.{has_opening, header_said, is_group, is_minima, is_preamble};
ghost use Rattle.textwrap_dictionaries.specs.Parsing.{begins_exceptions, ends_exceptions, is_skipped, is_tex};
ghost use Rattle.textwrap_dictionaries.specs.Parsing.{line_said, list_after};
ghost use Rattle.textwrap_dictionaries.specs.Parsing.{listed_said, minimum_said, names_group, names_minima};
ghost use Rattle.textwrap_dictionaries.specs.Parsing.{no_patterns, opened, opened_text, outside_fault};
ghost use Rattle.textwrap_dictionaries.specs.Parsing.{parsed, parsed_in, reading_view, said_in, section_after};
ghost use Rattle.textwrap_dictionaries.specs.Parsing.{section_behind, tex_after, tex_said, text_said, unmarked, with_all};
ghost use Rattle.textwrap_dictionaries.specs.Parsing.{with_group, with_said};
ghost use Rattle.textwrap_patterns.specs.Written.{is_digit};
ghost use Rattle.textwrap_dictionaries.specs.declared.errors.ParseError.TheVariants.{Line};

use crate::entries::{
    Entry, Section, is_list, is_start, item_entry, left_or_fault, number_of, right_or_fault,
    whole_entry,
};
use crate::errors::{Fault, ParseError};
use std::alloc::{AllocError, Allocator};
use std::mem::swap;
use std::str::from_utf8;
use textwrap_patterns::changes::{find, text_before};
use textwrap_patterns::charsets::{charset_of, decoded};
use textwrap_patterns::patterns::{Exception, Pattern};
use textwrap_patterns::written::characters_of;
use textwrap_text::starts::{starts_with, without_start};

/// The most patterns of a dictionary.
const MOST_PATTERNS: usize = 1 << 24;

/// The command before a group of patterns in a text of TeX.
const PATTERNS: [char; 9] = ['\\', 'p', 'a', 't', 't', 'e', 'r', 'n', 's'];

/// The command before a group of exceptions.
const EXCEPTIONS: [char; 12] = ['\\', 'h', 'y', 'p', 'h', 'e', 'n', 'a', 't', 'i', 'o', 'n'];

/// What opens a group of patterns.
const PATTERNS_MARK: [char; 10] = ['\\', 'p', 'a', 't', 't', 'e', 'r', 'n', 's', '{'];

/// What opens a group of exceptions.
const EXCEPTIONS_MARK: [char; 13] = [
    '\\', 'h', 'y', 'p', 'h', 'e', 'n', 'a', 't', 'i', 'o', 'n', '{',
];

/// What reads another file.
const INPUT: [char; 7] = ['\\', 'i', 'n', 'p', 'u', 't', ' '];

/// The same with a brace.
const INPUT_GROUP: [char; 7] = ['\\', 'i', 'n', 'p', 'u', 't', '{'];

/// What was read of a dictionary so far.
#[derive(Debug, Drop)]
pub struct Reading<A: Allocator> {
    /// Patterns that say where compounds are joined.
    pub joints: Vec<Pattern<A>, A>,
    /// Patterns of words, and of the parts of compounds.
    pub patterns: Vec<Pattern<A>, A>,
    pub exceptions: Vec<Exception<A>, A>,
    /// How many letters stay before a hyphen.
    pub left: usize,
    /// How many letters stay behind a hyphen.
    pub right: usize,
    /// How many letters stay between a joint and a hyphen behind it.
    pub compound_left: usize,
    /// How many letters stay between a hyphen and a joint behind it.
    pub compound_right: usize,
    /// At how many patterns letters would change, which allow no hyphen there. It stops at what a
    /// `usize` holds.
    pub changed: usize,
}

/// All that bytes say: those of UTF-8 as [`read`] has it, whatever charset their first line names, and
/// others as the text that they stand for in that charset.
///
/// # Errors
/// [`ParseError`], where the charset is not known, the text is no dictionary or memory runs out.
pub fn read_bytes<A: Allocator + Copy>(alloc: A, bytes: &[u8]) -> Result<Reading<A>, ParseError>
    ensures text { IsUtf8 bytes.now → Reads (parsed bytes.now) reading_view result }
    ensures charset { ¬ IsUtf8 bytes.now
        → Reads (parsed_in (charset_of bytes.now) bytes.now) reading_view result }
{
    match from_utf8(bytes) {
        Ok(text) => read(alloc, text),
        Err(_) => {
            let table = charset_of(alloc, bytes)?;
            read_decoded(alloc, table, bytes)
        }
    }
}

/// All that bytes say in a charset.
fn read_decoded<A: Allocator + Copy>(
    alloc: A,
    table: Option<&[char]>,
    bytes: &[u8],
) -> Result<Reading<A>, ParseError>
    ensures { Reads (parsed_in (option_map (λ table. table.now) table.entry) bytes.now) reading_view result }
{
    match table {
        Some(table) => read(alloc, &decoded(alloc, table, bytes)?),
        None => Err(ParseError::Line {
            line: 1,
            fault: Fault::Charset,
        }),
    }
}

/// All that a text says.
///
/// # Errors
/// [`ParseError`], where the text is no dictionary or memory runs out.
pub fn read<A: Allocator + Copy>(alloc: A, text: &str) -> Result<Reading<A>, ParseError>
    ensures { Reads (parsed text.now) reading_view result }
{
    let lines = lines_of(alloc, unmarked(text))?;
    let mut reading = Reading::new(alloc);
    let mut section = Section::Start;
    for (i, line) in lines.iter().enumerate() {
        section = reading.read_line(alloc, i + 1, section, line)?;
    }
    reading.end(lines.len(), section)
}

/// The text without the mark that may stand before it.
fn unmarked(text: &str) -> &str
    ensures { result.now ≡ unmarked text.now }
{
    match without_start(text, "\u{feff}") {
        Some(rest) => rest,
        None => text,
    }
}

fn lines_of<A: Allocator>(alloc: A, text: &str) -> Result<Vec<&str, A>, AllocError>
    ensures { IfOk result (λ found. map (λ line. line.now) found.items ≡ lines text.now) }
{
    let mut lines = Vec::new(alloc);
    for line in text.lines() {
        lines.push(line)?;
    }
    Ok(lines)
}

impl<A: Allocator + Copy> Reading<A> {
    fn new(alloc: A) -> Reading<A>
        ensures { reading_view result ≡ no_patterns }
    {
        Reading {
            joints: Vec::new(alloc),
            patterns: Vec::new(alloc),
            exceptions: Vec::new(alloc),
            left: 2,
            right: 3,
            compound_left: 0,
            compound_right: 0,
            changed: 0,
        }
    }

    /// Reads a line of this number in a section, and returns the section behind it.
    fn read_line(
        &mut self,
        alloc: A,
        number: usize,
        section: Section,
        line: &str,
    ) -> Result<Section, ParseError>
        ensures said { Reads (with_all number (line_said section line.now) (reading_view self.old))
            (λ _. reading_view self.new) result }
        ensures section { IfOk result (λ after. after ≡ section_after section line.now) }
    {
        self.read_entered(alloc, number, entered(section, line), line)
    }

    /// Reads a line in the section that it is in, and returns the section behind it.
    fn read_entered(
        &mut self,
        alloc: A,
        number: usize,
        section: Section,
        line: &str,
    ) -> Result<Section, ParseError>
        ensures said { Reads (with_all number (said_in section line.now) (reading_view self.old))
            (λ _. reading_view self.new) result }
        ensures section { IfOk result (λ after. after ≡ section_behind section line.now) }
    {
        if is_list(section) {
            self.read_listed(alloc, number, section, line.trim())?;
            return Ok(list_after(section, line.trim()));
        }
        self.read_header(alloc, number, section, line)
    }

    /// Reads a line of a text of TeX, and returns the section behind it.
    fn read_header(
        &mut self,
        alloc: A,
        number: usize,
        section: Section,
        line: &str,
    ) -> Result<Section, ParseError>
        ensures said { Reads (with_all number (header_said section line.now) (reading_view self.old))
            (λ _. reading_view self.new) result }
        ensures section { IfOk result (λ after. after ≡ header_after section line.now) }
    {
        let comment = comment_in(line);
        if is_minima(section) {
            if let Some(entry) = minimum_entry(comment) {
                self.add(number, entry)?;
            }
            return Ok(Section::Minima);
        }
        if begins_minima(section, comment) {
            return Ok(Section::Minima);
        }
        let characters = characters_of(alloc, line)?;
        self.read_tex(alloc, number, section, before_comment(&characters))
    }

    /// Reads a line of a list.
    fn read_listed(
        &mut self,
        alloc: A,
        number: usize,
        section: Section,
        line: &str,
    ) -> Result<(), ParseError>
        ensures { Reads (with_all number (listed_said section line.now) (reading_view self.old))
            (λ _. reading_view self.new) result }
    {
        if is_skipped(line) {
            return Ok(());
        }
        match whole_entry(alloc, section, line)? {
            Some(entry) => self.add(number, entry),
            None => self.read_words(alloc, number, section, &characters_of(alloc, line)?),
        }
    }

    /// Reads a line of TeX without its comment, and returns the section behind it.
    fn read_tex(
        &mut self,
        alloc: A,
        number: usize,
        section: Section,
        line: &[char],
    ) -> Result<Section, ParseError>
        ensures said { Reads (with_all number (tex_said section line.now) (reading_view self.old))
            (λ _. reading_view self.new) result }
        ensures section { IfOk result (λ after. after ≡ tex_after section line.now) }
    {
        let (opened, text) = open(section, line);
        if !is_group(opened) {
            return match outside_fault(line) {
                Some(fault) => Err(wrong(number, fault)),
                None => Ok(section),
            };
        }
        let (after, text) = close(opened, text);
        self.read_words(alloc, number, opened, text)?;
        Ok(after)
    }

    /// Reads the words between blanks.
    fn read_words(
        &mut self,
        alloc: A,
        number: usize,
        section: Section,
        text: &[char],
    ) -> Result<(), ParseError>
        ensures { Reads (with_all number (text_said section text.now) (reading_view self.old))
            (λ _. reading_view self.new) result }
    {
        let words = words_of(alloc, text)?;
        for word in words.iter() {
            if !word.is_empty() {
                let entry = item_entry(alloc, section, word)?;
                self.add(number, entry)?;
            }
        }
        Ok(())
    }

    /// Adds what a line of this number says.
    fn add(&mut self, number: usize, entry: Entry<A>) -> Result<(), ParseError>
        ensures { Reads (with_said number (entry_view entry) (reading_view self.old))
            (λ _. reading_view self.new) result }
    {
        match entry {
            Entry::Pattern(pattern) => self.patterns.push(pattern)?,
            Entry::Changed(pattern) => {
                self.patterns.push(pattern)?;
                self.changed = self.changed.saturating_add(1);
            }
            Entry::Exception(exception) => self.exceptions.push(exception)?,
            Entry::Left(left) => self.left = left,
            Entry::Right(right) => self.right = right,
            Entry::CompoundLeft(left) => self.compound_left = left,
            Entry::CompoundRight(right) => self.compound_right = right,
            Entry::NextGroup => return self.begin_group(number),
            Entry::Nothing => {}
            Entry::Wrong(fault) => return Err(wrong(number, fault)),
        }
        Ok(())
    }

    /// Takes the patterns so far for those of joints, as a second group begins.
    fn begin_group(&mut self, number: usize) -> Result<(), ParseError>
        ensures { Reads (with_group number (reading_view self.old)) (λ _. reading_view self.new) result }
    {
        if !self.joints.is_empty() {
            return Err(wrong(number, Fault::NextLevel));
        }
        swap(&mut self.joints, &mut self.patterns);
        Ok(())
    }

    /// What was read, at the end of a text of so many lines.
    fn end(self, count: usize, section: Section) -> Result<Reading<A>, ParseError>
        ensures { Reads (ended count (end_fault section (length (reading_view self).patterns)
            (length (reading_view self).exceptions)) (reading_view self)) reading_view result }
    {
        match end_fault(section, self.patterns.len(), self.exceptions.len()) {
            Some(fault) => Err(wrong(count.max(1), fault)),
            None => Ok(self),
        }
    }
}

/// What is wrong in a line.
fn wrong(line: usize, fault: Fault) -> ParseError
    ensures { result ≡ Line line fault }
{
    ParseError::Line { line, fault }
}

/// What is wrong in a line of TeX outside of groups.
fn outside_fault(line: &[char]) -> Option<Fault>
    ensures { result ≡ outside_fault line.now }
{
    if names_group(line) {
        Some(Fault::Brace)
    } else if has_input(line) {
        Some(Fault::Input)
    } else {
        None
    }
}

/// What is wrong at the end of a text that has so many patterns and exceptions.
fn end_fault(section: Section, patterns: usize, exceptions: usize) -> Option<Fault>
    ensures { result ≡ end_fault section patterns exceptions }
{
    match section {
        Section::Preamble | Section::Minima => Some(Fault::NoGroup),
        Section::Patterns | Section::Exceptions => Some(Fault::Unclosed),
        _ => count_fault(patterns, exceptions),
    }
}

fn count_fault(patterns: usize, exceptions: usize) -> Option<Fault>
    ensures { result ≡ count_fault patterns exceptions }
{
    if patterns > MOST_PATTERNS {
        Some(Fault::TooMany)
    } else if patterns == 0 && exceptions == 0 {
        Some(Fault::Empty)
    } else {
        None
    }
}

/// The section in which a line is read: a text of TeX begins with a comment or a command, and the
/// numbers in its header end with the first line that has none.
fn entered(section: Section, line: &str) -> Section
    ensures { result ≡ entered section line.now }
{
    if is_start(section) && is_tex(line.as_bytes()) {
        Section::Preamble
    } else if is_minima(section) && !is_minimum(comment_in(line)) {
        Section::Preamble
    } else {
        section
    }
}

/// A comment without its sign and the blanks on its sides; nothing of another line.
fn comment_in(line: &str) -> &str
    ensures { result.now ≡ comment_in line.now }
{
    match without_start(line.trim(), "%") {
        Some(comment) => comment.trim(),
        None => "",
    }
}

/// Whether the numbers of letters come behind a comment of this section.
fn begins_minima(section: Section, comment: &str) -> bool
    ensures { result ≡ (is_preamble section && names_minima comment.now) }
{
    is_preamble(section) && comment == "typesetting:"
}

fn is_minimum(comment: &str) -> bool
    ensures { result ≡ is_some (minimum_said comment.now) }
{
    starts_with(comment, "left:") || starts_with(comment, "right:")
}

/// What a comment says of how many letters stay.
fn minimum_entry<A: Allocator>(comment: &str) -> Option<Entry<A>>
    ensures { option_map entry_view result ≡ minimum_said comment.now }
{
    if let Some(number) = without_start(comment, "left:") {
        return Some(left_or_fault(first_number(number.trim().as_bytes())));
    }
    if let Some(number) = without_start(comment, "right:") {
        return Some(right_or_fault(first_number(number.trim().as_bytes())));
    }
    None
}

/// The number at the beginning.
fn first_number(text: &[u8]) -> Option<usize>
    ensures { result ≡ first_number text.now }
{
    number_of(&text[..digits_len(text)])
}

fn digits_len(text: &[u8]) -> usize
    ensures len { result ≡ prefix_len is_digit text.now }
    ensures within { result ≤ length text.now }
{
    for (i, byte) in text.iter().enumerate() {
        if !byte.is_ascii_digit() {
            return i;
        }
    }
    text.len()
}

fn is_minima(section: Section) -> bool
    ensures { result ≡ is_minima section }
{
    matches!(section, Section::Minima)
}

fn is_preamble(section: Section) -> bool
    ensures { result ≡ is_preamble section }
{
    matches!(section, Section::Preamble)
}

fn is_tex(line: &[u8]) -> bool
    ensures { result ≡ is_tex line.now }
{
    match line {
        [first, ..] => *first == b'%' || *first == b'\\',
        [] => false,
    }
}

fn is_group(section: Section) -> bool
    ensures { result ≡ is_group section }
{
    matches!(section, Section::Patterns | Section::Exceptions)
}

/// Whether a line of a list says nothing: it is empty, a comment, or begins or ends exceptions.
fn is_skipped(line: &str) -> bool
    ensures { result ≡ is_skipped line.now }
{
    match line.as_bytes() {
        [first, ..] => *first == b'%'
            || *first == b'#'
            || begins_exceptions(line)
            || ends_exceptions(line),
        [] => true,
    }
}

/// The section behind a line of a list.
fn list_after(section: Section, line: &str) -> Section
    ensures { result ≡ list_after section line.now }
{
    if begins_exceptions(line) {
        Section::Words
    } else if is_start(section) || ends_exceptions(line) {
        Section::Listing
    } else {
        section
    }
}

/// Whether the lines behind this one of a list are exceptions.
fn begins_exceptions(line: &str) -> bool
    ensures { result ≡ begins_exceptions line.now }
{
    line == "\\hyphenation{"
}

fn ends_exceptions(line: &str) -> bool
    ensures { result ≡ ends_exceptions line.now }
{
    line == "}"
}

/// The line without its comment.
fn before_comment(line: &[char]) -> &[char]
    ensures { result.now ≡ before_comment line.now }
{
    text_before(line, '%')
}

/// The section once a line opened a group, and the text of the line in the group.
fn open(section: Section, line: &[char]) -> (Section, &[char])
    ensures section { result.0 ≡ opened section line.now }
    ensures text { result.1.now ≡ opened_text section line.now }
{
    if is_group(section) {
        return (section, line);
    }
    if let Some(text) = after_mark(&PATTERNS_MARK, line) {
        return (Section::Patterns, text);
    }
    if let Some(text) = after_mark(&EXCEPTIONS_MARK, line) {
        return (Section::Exceptions, text);
    }
    (section, &line[line.len()..])
}

/// Whether a line has the command before a group in it.
fn names_group(line: &[char]) -> bool
    ensures { result ≡ names_group line.now }
{
    after_mark(&PATTERNS, line).is_some() || after_mark(&EXCEPTIONS, line).is_some()
}

/// Whether a line has the command that reads another file in it.
fn has_input(line: &[char]) -> bool
    ensures { result ≡ has_input line.now }
{
    after_mark(&INPUT, line).is_some() || after_mark(&INPUT_GROUP, line).is_some()
}

/// What follows the first place where a mark stands.
fn after_mark<'t>(mark: &[char], line: &'t [char]) -> Option<&'t [char]>
    ensures { option_copied result ≡ after_mark mark.now line.now }
{
    for at in 0..line.len() {
        if let Some(text) = line[at..].strip_prefix(mark) {
            return Some(text);
        }
    }
    None
}

/// The section behind the text of a group, and the text without what closes the group.
fn close(section: Section, text: &[char]) -> (Section, &[char])
    ensures section { result.0 ≡ closed section text.now }
    ensures text { result.1.now ≡ closed_text text.now }
{
    let at = find(text, '}');
    if at < text.len() && !has_opening(&text[at..]) {
        (Section::Behind, &text[..at])
    } else {
        (section, text)
    }
}

fn has_opening(text: &[char]) -> bool
    ensures { result ≡ has_opening text.now }
{
    text.iter().any(|ch| *ch == '{')
}

/// What stands between blanks, which may be empty.
fn words_of<A: Allocator>(alloc: A, text: &[char]) -> Result<Vec<&[char], A>, AllocError>
    ensures { IfOk result (λ words. map (λ word. word.now) words.items
        ≡ slice_split is_whitespace text.now) }
{
    let mut words = Vec::new(alloc);
    let mut left = text;
    let mut len = word_len(left);
    while len < left.len() {
        let (word, rest) = left.split_at(len);
        words.push(word)?;
        left = &rest[1..];
        len = word_len(left);
    }
    words.push(left)?;
    Ok(words)
}

/// How many characters stand before the first blank.
fn word_len(text: &[char]) -> usize
    ensures { result ≡ position_or_len is_whitespace text.now }
{
    for (i, ch) in text.iter().enumerate() {
        if ch.is_whitespace() {
            return i;
        }
    }
    text.len()
}
