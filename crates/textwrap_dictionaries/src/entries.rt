//! What the words and the lines of a dictionary say.
ghost use Rattle.std.specs.Prelude.{◌≡◌, false, true, option_map, IfOk};
ghost use Rattle.std.specs.Str.{trim};
ghost use Rattle.textwrap_dictionaries.specs.Entries.{CompoundLeft, CompoundRight, Left, Right, are_joints};
ghost use Rattle.textwrap_dictionaries.specs.Entries.{beside_said, command_said, number_or_fault, entry_view};
ghost use Rattle.textwrap_dictionaries.specs.Entries.{exception_said, exception_written, charset_said};
ghost use Rattle.textwrap_dictionaries.specs.Entries.{has_hyphen, has_digit, has_sign, has_slash, is_command};
ghost use Rattle.textwrap_dictionaries.specs.Entries.{is_exception, is_joint, is_list, is_sign, is_start};
ghost use Rattle.textwrap_dictionaries.specs.Entries.{is_unknown, item_said, changed_by, pattern_said};
ghost use Rattle.textwrap_dictionaries.specs.Entries.{says_levels, slashed_said, whole_said, word_said};
ghost use Rattle.textwrap_patterns.specs.Changes.{number_of};
ghost use Rattle.textwrap_patterns.specs.Listed.{exception_view, pattern_view};

use crate::errors::Fault;
use std::alloc::{AllocError, Allocator};
use textwrap_patterns::changes::{Region, region_said, text_before, text_behind, without_changes};
use textwrap_patterns::charsets::{names_charset, plain_name};
use textwrap_patterns::letters::{folded, is_hyphen};
use textwrap_patterns::patterns::{Exception, Pattern};
use textwrap_patterns::written::{characters_of, exception, is_digit, pattern_of};
use textwrap_text::starts::{starts_with, without_start};

/// The most letters of a pattern.
const MOST_LETTERS: usize = 255;

/// Where in a dictionary a word stands.
#[derive(Clone, Copy, Debug)]
pub enum Section {
    /// In the first line, before the form is known.
    Start,
    /// In a list of patterns and exceptions.
    Listing,
    /// In a list, behind `\hyphenation{`, where each line is an exception.
    Words,
    /// In a text of TeX, before its first group.
    Preamble,
    /// In the comments there, where they say how many letters stay before a hyphen and behind it.
    Minima,
    /// In a group of patterns.
    Patterns,
    /// In a group of exceptions.
    Exceptions,
    /// Behind a group.
    Behind,
}

/// What a word or a line says.
#[derive(Debug, Drop)]
pub enum Entry<A: Allocator> {
    Pattern(Pattern<A>),
    /// A pattern at whose hyphen letters would change, without that hyphen.
    Changed(Pattern<A>),
    Exception(Exception<A>),
    Left(usize),
    Right(usize),
    /// How many letters stay between a joint of a compound and a hyphen behind it.
    CompoundLeft(usize),
    /// How many letters stay between a hyphen and a joint behind it.
    CompoundRight(usize),
    /// Another group of patterns begins.
    NextGroup,
    Nothing,
    Wrong(Fault),
}

/// What a line of a list says beside patterns and exceptions, where it is neither empty nor a comment.
pub fn whole_entry<A: Allocator + Copy>(
    alloc: A,
    section: Section,
    line: &str,
) -> Result<Option<Entry<A>>, AllocError>
    ensures { IfOk result (λ entry. option_map entry_view entry ≡ whole_said section line.now) }
{
    match command_entry(alloc, line)? {
        Some(entry) => Ok(Some(entry)),
        None => charset_entry(alloc, section, line),
    }
}

/// What a line says that begins with a word of libhyphen.
fn command_entry<A: Allocator + Copy>(alloc: A, line: &str) -> Result<Option<Entry<A>>, AllocError>
    ensures { IfOk result (λ entry. option_map entry_view entry ≡ command_said line.now) }
{
    if let Some(number) = without_start(line, "LEFTHYPHENMIN") {
        return Ok(Some(left_or_fault(number_in(number))));
    }
    if let Some(number) = without_start(line, "RIGHTHYPHENMIN") {
        return Ok(Some(right_or_fault(number_in(number))));
    }
    if let Some(number) = without_start(line, "COMPOUNDLEFTHYPHENMIN") {
        return Ok(Some(compound_left_or_fault(number_in(number))));
    }
    if let Some(number) = without_start(line, "COMPOUNDRIGHTHYPHENMIN") {
        return Ok(Some(compound_right_or_fault(number_in(number))));
    }
    if let Some(signs) = without_start(line, "NOHYPHEN") {
        return Ok(Some(beside_entry(&characters_of(alloc, signs)?)));
    }
    if starts_with(line, "NEXTLEVEL") {
        return Ok(Some(Entry::NextGroup));
    }
    Ok(None)
}

/// How many letters stay before a hyphen.
pub fn left_or_fault<A: Allocator>(number: Option<usize>) -> Entry<A>
    ensures { entry_view result ≡ number_or_fault Left number }
{
    match number {
        Some(left) => Entry::Left(left),
        None => Entry::Wrong(Fault::Number),
    }
}

/// How many letters stay behind a hyphen.
pub fn right_or_fault<A: Allocator>(number: Option<usize>) -> Entry<A>
    ensures { entry_view result ≡ number_or_fault Right number }
{
    match number {
        Some(right) => Entry::Right(right),
        None => Entry::Wrong(Fault::Number),
    }
}

/// How many letters stay between a joint of a compound and a hyphen behind it.
fn compound_left_or_fault<A: Allocator>(number: Option<usize>) -> Entry<A>
    ensures { entry_view result ≡ number_or_fault CompoundLeft number }
{
    match number {
        Some(left) => Entry::CompoundLeft(left),
        None => Entry::Wrong(Fault::Number),
    }
}

/// How many letters stay between a hyphen and a joint behind it.
fn compound_right_or_fault<A: Allocator>(number: Option<usize>) -> Entry<A>
    ensures { entry_view result ≡ number_or_fault CompoundRight number }
{
    match number {
        Some(right) => Entry::CompoundRight(right),
        None => Entry::Wrong(Fault::Number),
    }
}

/// The number that a text is.
fn number_in(text: &str) -> Option<usize>
    ensures { result ≡ number_of (trim text.now) }
{
    number_of(text.trim().as_bytes())
}

/// What is said by signs beside which no point may stand: nothing, where none does in any case.
fn beside_entry<A: Allocator>(signs: &[char]) -> Entry<A>
    ensures { entry_view result ≡ beside_said signs.now }
{
    if are_joints(signs) {
        Entry::Nothing
    } else {
        Entry::Wrong(Fault::NoHyphen)
    }
}

fn are_joints(signs: &[char]) -> bool
    ensures { result ≡ are_joints signs.now }
{
    signs
        .iter()
        .all(|ch| is_joint(*ch) || *ch == ',' || ch.is_whitespace())
}

/// Whether a character ends a run of letters, as a hyphen does, or has no point beside it, as an
/// apostrophe.
fn is_joint(ch: char) -> bool
    ensures { result ≡ is_joint ch }
{
    ch == '\'' || ch == '\u{2019}' || is_hyphen(ch) || ch == '\u{2013}'
}

/// The number of one digit or two.
pub fn number_of(digits: &[u8]) -> Option<usize>
    ensures { result ≡ number_of digits.now }
{
    match digits {
        [one] if one.is_ascii_digit() => Some(usize::from(*one - b'0')),
        [ten, one] if ten.is_ascii_digit() && one.is_ascii_digit() => {
            Some(10 * usize::from(*ten - b'0') + usize::from(*one - b'0'))
        }
        _ => None,
    }
}

/// What the first line says of a charset. In a dictionary of libhyphen 2 letters stay behind a hyphen, if
/// nothing else is said.
fn charset_entry<A: Allocator + Copy>(
    alloc: A,
    section: Section,
    line: &str,
) -> Result<Option<Entry<A>>, AllocError>
    ensures { IfOk result (λ entry. option_map entry_view entry ≡ charset_said section line.now) }
{
    if is_start(section) && names_charset(&plain_name(alloc, line.as_bytes())?) {
        return Ok(Some(Entry::Right(2)));
    }
    Ok(None)
}

/// Whether a section is that of the first line.
pub fn is_start(section: Section) -> bool
    ensures { result ≡ is_start section }
{
    matches!(section, Section::Start)
}

/// Whether a section is one of a list.
pub fn is_list(section: Section) -> bool
    ensures { result ≡ is_list section }
{
    matches!(section, Section::Start | Section::Listing | Section::Words)
}

/// What a word between blanks says in a section.
pub fn item_entry<A: Allocator + Copy>(
    alloc: A,
    section: Section,
    word: &[char],
) -> Result<Entry<A>, AllocError>
    ensures { IfOk result (λ entry. entry_view entry ≡ item_said section word.now) }
{
    if is_unknown(section, word) {
        return Ok(Entry::Wrong(Fault::Word));
    }
    word_entry(alloc, section, word)
}

/// Whether a word of a list says nothing of letters, and so is wrong.
fn is_unknown(section: Section, word: &[char]) -> bool
    ensures { result ≡ is_unknown section word.now }
{
    is_list(section) && (is_command(word) || matches!(word, ['#', ..]))
}

/// Whether a word begins with two capital letters, and has neither a digit nor a hyphen behind them.
fn is_command(word: &[char]) -> bool
    ensures { result ≡ is_command word.now }
{
    match word {
        [first, second, rest @ ..] => {
            first.is_ascii_uppercase() && second.is_ascii_uppercase() && !says_levels(rest)
        }
        _ => false,
    }
}

/// Whether there is a digit or a hyphen in a text.
fn says_levels(text: &[char]) -> bool
    ensures { result ≡ says_levels text.now }
{
    text.iter().any(|ch| is_digit(*ch) || *ch == '-')
}

/// What a word says in a section, if it is known.
fn word_entry<A: Allocator + Copy>(
    alloc: A,
    section: Section,
    word: &[char],
) -> Result<Entry<A>, AllocError>
    ensures { IfOk result (λ entry. entry_view entry ≡ word_said section word.now) }
{
    if has_sign(word) {
        Ok(Entry::Wrong(Fault::Sign))
    } else if has_slash(word) {
        slashed_entry(alloc, section, word)
    } else if is_exception(section, word) {
        exception_entry(alloc, word)
    } else {
        pattern_entry(alloc, word)
    }
}

/// What a word with a slash says.
fn slashed_entry<A: Allocator + Copy>(
    alloc: A,
    section: Section,
    word: &[char],
) -> Result<Entry<A>, AllocError>
    ensures { IfOk result (λ entry. entry_view entry ≡ slashed_said section word.now) }
{
    if is_exception(section, word) {
        return Ok(Entry::Wrong(Fault::Replacement));
    }
    let pattern = pattern_of(alloc, text_before(word, '/'))?;
    let region = region_said(&pattern.letters, text_behind(word, '/'));
    changed_entry(alloc, region, pattern)
}

/// A pattern without the hyphens at which letters change.
fn changed_entry<A: Allocator + Copy>(
    alloc: A,
    region: Option<Region>,
    pattern: Pattern<A>,
) -> Result<Entry<A>, AllocError>
    ensures { IfOk result (λ entry. entry_view entry ≡ changed_by region (pattern_view pattern)) }
{
    let Some(region) = region else {
        return Ok(Entry::Wrong(Fault::Replacement));
    };
    if pattern.letters.len() > MOST_LETTERS {
        return Ok(Entry::Wrong(Fault::TooLong));
    }
    Ok(Entry::Changed(without_changes(alloc, pattern, region)?))
}

/// Whether a word of a section is an exception, and not a pattern.
fn is_exception(section: Section, word: &[char]) -> bool
    ensures { result ≡ is_exception section word.now }
{
    match section {
        Section::Patterns => false,
        Section::Words | Section::Exceptions => true,
        _ => has_hyphen(word) && !has_digit(word),
    }
}

fn has_slash(word: &[char]) -> bool
    ensures { result ≡ has_slash word.now }
{
    word.iter().any(|ch| *ch == '/')
}

fn has_sign(word: &[char]) -> bool
    ensures { result ≡ has_sign word.now }
{
    word.iter().any(|ch| is_sign(*ch))
}

/// Whether a character stands in no word of a dictionary.
fn is_sign(ch: char) -> bool
    ensures { result ≡ is_sign ch }
{
    ch.is_whitespace() || ch == '{' || ch == '}' || ch == '\\' || ch == '%' || ch == '\u{fffd}'
}

fn has_hyphen(word: &[char]) -> bool
    ensures { result ≡ has_hyphen word.now }
{
    word.iter().any(|ch| *ch == '-')
}

fn has_digit(word: &[char]) -> bool
    ensures { result ≡ has_digit word.now }
{
    word.iter().any(|ch| is_digit(*ch))
}

fn pattern_entry<A: Allocator + Copy>(alloc: A, word: &[char]) -> Result<Entry<A>, AllocError>
    ensures { IfOk result (λ entry. entry_view entry ≡ pattern_said word.now) }
{
    let pattern = pattern_of(alloc, word)?;
    if pattern.letters.len() > MOST_LETTERS {
        Ok(Entry::Wrong(Fault::TooLong))
    } else {
        Ok(Entry::Pattern(pattern))
    }
}

fn exception_entry<A: Allocator + Copy>(alloc: A, word: &[char]) -> Result<Entry<A>, AllocError>
    ensures { IfOk result (λ entry. entry_view entry ≡ exception_said word.now) }
{
    match exception_of(alloc, word)? {
        Some(exception) => Ok(Entry::Exception(exception)),
        None => Ok(Entry::Wrong(Fault::Hyphens)),
    }
}

/// The exception that is written with hyphens, if each is between two letters.
fn exception_of<A: Allocator + Copy>(
    alloc: A,
    word: &[char],
) -> Result<Option<Exception<A>>, AllocError>
    ensures { IfOk result (λ made. option_map exception_view made ≡ exception_written word.now) }
{
    let mut letters = Vec::new(alloc);
    let mut places = Vec::new(alloc);
    for ch in word {
        if *ch == '-' {
            places.push(letters.len())?;
        } else {
            letters.push(folded(*ch))?;
        }
    }
    Ok(exception(letters, places))
}
