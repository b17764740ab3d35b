//! How a text begins, and what no paragraph contains.
ghost use Rattle.std.specs.Char.{is_ascii_lowercase};
ghost use Rattle.std.specs.Prelude.{◌≡◌, ◌-◌, ◌<◌, ◌≤◌, ◌==◌, ◌||◌, [], ◌∷◌, true, false, length};
ghost use Rattle.std.specs.Prelude.{chars, codes, slice_get, slice_index, MatchOption};
ghost use Rattle.std.specs.List.{list_all, list_any};
ghost use Rattle.textwrap_marks.specs.Signs.{any_contains, ArePlain, begins_text, closes_block};
ghost use Rattle.textwrap_marks.specs.Signs.{closes_early, ends_code, ends_early, ends_sentence, first_word};
ghost use Rattle.textwrap_marks.specs.Signs.{words_before_last, has_columns, is_closing_sign};
ghost use Rattle.textwrap_marks.specs.Signs.{is_column_byte};
ghost use Rattle.textwrap_marks.specs.Signs.{is_column_word, is_comment_behind, is_directive};
ghost use Rattle.textwrap_marks.specs.Signs.{is_end, is_gap, is_key};
ghost use Rattle.textwrap_marks.specs.Signs.{is_key_character, is_rule, has_wide_gap};
ghost use Rattle.textwrap_marks.specs.Signs.{is_rule_characters, is_rule_of, is_sign, is_sign_byte};
ghost use Rattle.textwrap_marks.specs.Signs.{is_for_tools, is_tool_word, last_of, last_white, last_word, may_go_on};
ghost use Rattle.textwrap_marks.specs.Signs.{opens_code, opens_paragraph, deeper_by, is_example_key};
ghost use Rattle.textwrap_marks.specs.Signs.{is_prompt, is_table_rule, opens_session};
ghost use Rattle.textwrap_marks.specs.Marks.{is_bullet};
ghost use Rattle.textwrap_marks.specs.Words.{has_letter, is_letter_or_digit, is_white, spaced_view};
ghost use Rattle.textwrap_marks.specs.Words.{spaced_words, AreWhite};

use crate::marks::is_bullet;
use crate::options::ReflowOptions;
use crate::words::{
    SpacedWord, SpacedWords, contains, ends_with, first_byte, has_byte, has_letter, is_white,
    split_first, split_word, without_end,
};
use textwrap_text::starts::starts_with;

/// The first word, and the empty text where there is none.
pub fn first_word(text: &str) -> &str
    ensures { result.now ≡ first_word (spaced_words text.now) }
{
    let (word, _) = split_word(text);
    word
}

/// Where the white at the end of a text begins.
fn final_white(bytes: &[u8]) -> usize
    ensures within { result ≤ length bytes.now }
    ensures white { AreWhite true bytes.now result (length bytes.now) }
    ensures ink { 0 < result → is_white (slice_index bytes.now (result - 1)) ≡ false }
{
    let mut end = bytes.len();
    while end > 0 && is_white(bytes[end - 1]) {
        end -= 1;
    }
    end
}

/// Where the word begins that ends there.
fn word_start(bytes: &[u8], end: usize) -> usize
    requires { end ≤ length bytes.now }
    ensures within { result ≤ end }
    ensures ink { AreWhite false bytes.now result end }
    ensures white { 0 < result → is_white (slice_index bytes.now (result - 1)) ≡ true }
{
    let mut start = end;
    while start > 0 && !is_white(bytes[start - 1]) {
        start -= 1;
    }
    start
}

/// The text of all words but the last, and that of the last alone.
fn split_last(text: &str) -> (&str, &str)
    ensures front { spaced_words result.0.now ≡ words_before_last (spaced_words text.now) }
    ensures last { spaced_words result.1.now ≡ last_of (spaced_words text.now) }
{
    let bytes = text.as_bytes();
    text.split_at(word_start(bytes, final_white(bytes)))
}

pub fn last_word(text: &str) -> &str
    ensures { result.now ≡ last_word (spaced_words text.now) }
{
    let (_, last) = split_last(text);
    first_word(last)
}

/// The white behind the last word, and the empty text where there is none.
pub fn last_white(text: &str) -> &str
    ensures { result.now ≡ last_white (spaced_words text.now) }
{
    let (_, last) = split_last(text);
    match SpacedWords::of(last).next() {
        Some(last) => last.white,
        None => "",
    }
}

/// The only word of a text, if it has one and no other.
#[tactic(auto, using(crate::proofs::WordCuts::words_some))]
pub fn only_word(text: &str) -> Option<SpacedWord<'_>>
    ensures { MatchOption result ((length (spaced_words text.now) == 1) ≡ false)
        (λ word. spaced_words text.now ≡ spaced_view word ∷ []) }
{
    if text.is_empty() {
        return None;
    }
    let (word, later) = split_first(text);
    if later.is_empty() { Some(word) } else { None }
}

/// Whether the character may stand in a key: a letter, a digit, a hyphen or a low line.
fn is_key_character(ch: char) -> bool
    ensures { result ≡ is_key_character ch }
{
    ch.is_alphanumeric() | (ch == '-') | (ch == '_')
}

fn are_key_characters(text: &str) -> bool
    ensures { result ≡ list_all is_key_character (chars text.now) }
{
    text.chars().all(|ch| is_key_character(ch))
}

/// Whether a word is a key: letters, digits, `-` and `_`, and then a colon.
pub fn is_key(word: &str) -> bool
    ensures { result ≡ is_key word.now }
{
    match without_end(word, ":") {
        Some(front) => !front.is_empty() & are_key_characters(front),
        None => false,
    }
}

/// Whether a word begins code in a comment that Doxygen, JSDoc, Javadoc or Scaladoc reads: `@code`,
/// `@verbatim`, the same behind a backslash, `@example`, `{@snippet` or `{{{`.
pub fn opens_code(word: &str) -> bool
    ensures { result ≡ opens_code word.now }
{
    starts_with(word, "@code")
        | starts_with(word, "\\code")
        | starts_with(word, "@verbatim")
        | starts_with(word, "\\verbatim")
        | starts_with(word, "@example")
        | starts_with(word, "{@snippet")
        | (word == "{{{")
}

/// Whether a word ends such code.
pub fn ends_code(word: &str) -> bool
    ensures { result ≡ ends_code word.now }
{
    starts_with(word, "@endcode")
        | starts_with(word, "\\endcode")
        | starts_with(word, "@endverbatim")
        | starts_with(word, "\\endverbatim")
        | starts_with(word, "}}}")
}

/// Whether a word is as long as most of those for tools, or begins or ends as the short ones do. Few words
/// are, so this is asked before the word is compared with each.
fn may_be_tool_word(word: &str) -> bool
    ensures { result ≡ false → is_tool_word word.now ≡ false }
{
    match word.as_bytes() {
        [first, .., last] => (word.len() > 9) | (*first == b'n') | (*last == b':'),
        _ => false,
    }
}

/// Whether a comment that begins with this word is read by a linter, a formatter or an editor.
fn is_tool_word(word: &str) -> bool
    ensures { result ≡ is_tool_word word.now }
{
    may_be_tool_word(word)
        && matches!(
            word,
            "clang-format"
                | "shellcheck"
                | "noqa"
                | "noqa:"
                | "nolint"
                | "pylint:"
                | "type:"
                | "fmt:"
                | "isort:"
                | "eslint-disable"
                | "eslint-enable"
                | "eslint-disable-next-line"
                | "prettier-ignore"
                | "rubocop:disable"
                | "rubocop:enable"
                | "vim:"
        )
}

/// Whether a comment that begins with this word is read by a tool: such a word, `+build` of Go, `NOLINT`
/// of C++, or `@ts-ignore` of TypeScript.
fn is_for_tools(word: &str) -> bool
    ensures { result ≡ is_for_tools word.now }
{
    starts_with(word, "+build")
        | starts_with(word, "NOLINT")
        | starts_with(word, "@ts-")
        | is_tool_word(word)
}

/// Whether a word tells a program something of the lines around it: `[!NOTE]`, `[TOC]` and `:::note`
/// of Markdown, what a tool reads, `$$` before a formula, and what begins code.
fn is_directive(word: &str) -> bool
    ensures { result ≡ is_directive word.now }
{
    starts_with(word, "[!")
        | starts_with(word, "[TOC]")
        | starts_with(word, ":::")
        | is_for_tools(word)
        | starts_with(word, "$$")
        | opens_code(word)
}

/// Whether a word at the beginning of a line may mean something to a compiler, or in Markdown.
fn is_sign(word: &str) -> bool
    ensures { result ≡ is_sign word.now }
{
    is_sign_byte(first_byte(word))
        | starts_with(word, "//")
        | starts_with(word, "/*")
        | starts_with(word, "```")
        | starts_with(word, "~~~")
        | is_directive(word)
}

fn is_sign_byte(byte: u8) -> bool
    ensures { result ≡ is_sign_byte byte }
{
    matches!(byte, b'#' | b';' | b'%' | b'>' | b'<' | b'|' | b'=' | b'.')
}

/// Whether a word opens a paragraph: a key, `Copyright`, `@word`, `\word`, or `:word` without a
/// backtick.
pub fn opens_paragraph(word: &str) -> bool
    ensures { result ≡ opens_paragraph word.now }
{
    let first = first_byte(word);
    is_key(word)
        | (word == "Copyright")
        | (first == b'@')
        | (first == b'\\')
        | (first == b':') & !has_byte(b'`', word.as_bytes())
}

/// Whether a word may begin a text.
pub fn begins_text(starred: bool, word: &str) -> bool
    ensures { result ≡ begins_text starred word.now }
{
    is_usual(word) || has_letter(word) & !is_sign(word) & !(starred & (first_byte(word) == b'*'))
}

/// Whether a word that begins with a small letter may end so, and is no bullet or key then.
fn is_usual_end(byte: u8) -> bool
    ensures { result ≡ (is_ascii_lowercase byte || byte == 44) }
{
    matches!(byte, b'a'..=b'z' | b',')
}

/// Whether a word begins with a small letter of ASCII and ends with another one or a comma, as most
/// words do: then it has a letter, is no sign but for tools and no bullet, and opens no paragraph.
fn is_small(word: &str) -> bool
    ensures letter { result ≡ true → has_letter word.now ≡ true }
    ensures sign { result ≡ true → is_tool_word word.now ≡ false → is_sign word.now ≡ false }
    ensures first { result ≡ true → (slice_index word.now 0 == 42) ≡ false }
    ensures opens { result ≡ true → opens_paragraph word.now ≡ false }
    ensures bullet { result ≡ true → is_bullet word.now ≡ false }
{
    match word.as_bytes() {
        [first, .., last] => { first.is_ascii_lowercase() && is_usual_end(*last) }
        _ => false,
    }
}

/// The same of a word that is not for tools.
fn is_usual(word: &str) -> bool
    ensures letter { result ≡ true → has_letter word.now ≡ true }
    ensures sign { result ≡ true → is_sign word.now ≡ false }
    ensures first { result ≡ true → (slice_index word.now 0 == 42) ≡ false }
    ensures opens { result ≡ true → opens_paragraph word.now ≡ false }
    ensures bullet { result ≡ true → is_bullet word.now ≡ false }
{
    is_small(word) && !is_tool_word(word)
}

/// Whether a paragraph may have a line that this word begins, after its first one.
pub fn may_go_on(options: &ReflowOptions<'_>, starred: bool, word: &str) -> bool
    ensures { result ≡ may_go_on options.now starred word.now }
{
    let may_begin = is_usual(word)
        || begins_text(starred, word) && !opens_paragraph(word) && !is_bullet(word);
    may_begin && !options.is_marker(word)
}

/// Whether a character closes a quote or a bracket.
fn is_closing(ch: char) -> bool
    ensures { result ≡ is_closing_sign ch }
{
    matches!(ch, ')' | ']' | '"' | '\'' | '*' | '_' | '”' | '’' | '»')
}

/// Whether a character ends a sentence.
fn is_end(ch: char) -> bool
    ensures { result ≡ is_end ch }
{
    matches!(ch, '.' | '?' | '!' | ':')
}

/// Whether the last character of a word that closes nothing ends a sentence.
fn ends_sentence(word: &str) -> bool
    ensures { result ≡ ends_sentence word.now }
{
    word.chars().fold(
        false,
        |ends, ch| if is_closing(ch) { ends } else { is_end(ch) },
    )
}

/// Whether the white behind a word is wide: three blanks or more, or two that do not follow the end of
/// a sentence.
fn is_wide(word: &SpacedWord<'_>) -> bool
    ensures { result ≡ has_wide_gap (spaced_view word.now) }
{
    let len = word.white.len();
    len > 2 || len == 2 && !ends_sentence(word.word)
}

/// Whether the white behind a word is a gap: a tab, or wide; where lines are justified, a tab alone.
fn is_gap(justify: bool, word: &SpacedWord<'_>) -> bool
    ensures { result ≡ is_gap justify (spaced_view word.now) }
{
    word.white != " " && (has_byte(b'\t', word.white.as_bytes()) || !justify && is_wide(word))
}

/// Whether one of the bytes is there of which each word that no paragraph contains has one.
pub fn has_column_byte(bytes: &[u8]) -> bool
    ensures { result ≡ list_any is_column_byte bytes.now }
{
    // Without a stop at the first that is, the processor can look at many bytes at once.
    let mut any = false;
    for byte in bytes {
        any |= is_column_byte(*byte);
    }
    any
}

fn is_column_byte(byte: u8) -> bool
    ensures { result ≡ is_column_byte byte }
{
    (byte == b'|')
        | (byte == b'=')
        | (byte == b'/')
        | (byte == b'#')
        | (byte == b'%')
        | (byte == b'-')
        | (byte == b';')
        | (byte == b'\r')
        | (byte == b']')
        | (byte == b'<')
}

/// Whether a word begins a comment behind text in one of many languages. What stands below such a
/// comment must not be drawn into it.
fn is_comment_behind(word: &str) -> bool
    ensures { result ≡ is_comment_behind word.now }
{
    starts_with(word, "//")
        | starts_with(word, "/*")
        | matches!(word, "#" | "%" | "%%" | "--" | ";" | ";;" | ";;;")
}

/// Whether no paragraph contains this word: `|`, `=`, a comment behind text, a carriage return, `]:` or
/// `<pre`.
fn is_column_word(word: &str) -> bool
    ensures { result ≡ is_column_word word.now }
{
    word == "|"
        || word == "="
        || is_comment_behind(word)
        || has_byte(b'\r', word.as_bytes())
        || contains(word, "]:")
        || contains(word, "<pre")
}

/// Whether such a word is in a text. If the words are known to be plain, none is looked at.
fn any_column_word(plain: bool, text: &str) -> bool
    requires { plain ≡ true → ArePlain (spaced_words text.now) }
    ensures { result ≡ list_any (λ w. is_column_word w.word) (spaced_words text.now) }
{
    if plain {
        return false;
    }
    for word in SpacedWords::of(text) {
        if is_column_word(word.word) {
            return true;
        }
    }
    false
}

fn any_gap(justify: bool, text: &str) -> bool
    ensures { result ≡ list_any (is_gap justify) (spaced_words text.now) }
{
    for word in SpacedWords::of(text) {
        if is_gap(justify, &word) {
            return true;
        }
    }
    false
}

/// Whether such a word is in a text, whose words may be known to be plain, or a gap between two.
pub fn has_columns(justify: bool, plain: bool, text: &str) -> bool
    requires { plain ≡ true → ArePlain (spaced_words text.now) }
    ensures { result ≡ has_columns justify (spaced_words text.now) }
{
    let (front, _) = split_last(text);
    any_column_word(plain, text) || any_gap(justify, front)
}

/// Whether a part stands in one of the words of a text.
pub fn any_contains(text: &str, part: &str) -> bool
    ensures { result ≡ any_contains part.now (spaced_words text.now) }
{
    for word in SpacedWords::of(text) {
        if contains(word.word, part) {
            return true;
        }
    }
    false
}

/// Whether a block comment ends in a text.
pub fn closes_block(text: &str) -> bool
    ensures { result ≡ closes_block (spaced_words text.now) }
{
    any_contains(text, "*/")
}

/// Whether a word does not end in the end of a block comment, or has another one.
fn ends_early(word: &str) -> bool
    ensures { result ≡ ends_early word.now }
{
    match without_end(word, "*/") {
        Some(front) => contains(front, "*/"),
        None => true,
    }
}

/// Whether the end of a block comment stands in a text, and not only at the end of its words.
pub fn closes_early(text: &str) -> bool
    ensures { result ≡ closes_early (spaced_words text.now) }
{
    let (front, _) = split_last(text);
    closes_block(front) | ends_early(last_word(text))
}

/// The first character of a text, if it has one.
fn first_char(text: &str) -> Option<char>
    ensures { result ≡ slice_get (chars text.now) 0 }
{
    text.chars().next()
}

fn char_count(text: &str) -> usize
    ensures { result ≡ length (chars text.now) }
{
    text.chars().count()
}

/// Whether each character of a text is this one.
fn is_all(text: &str, ch: char) -> bool
    ensures { result ≡ list_all (λ c. c == ch) (chars text.now) }
{
    text.chars().all(|other| other == ch)
}

/// Whether a word consists of this character, at least three times, which is no letter, digit, tilde or
/// backtick.
fn is_rule_of(first: Option<char>, word: &str) -> bool
    ensures { result ≡ is_rule_of first (chars word.now) }
{
    match first {
        Some(first) => {
            (char_count(word) > 2)
                & is_all(word, first)
                & !(first.is_alphanumeric() | (first == '`') | (first == '~'))
        }
        None => false,
    }
}

/// Whether a word is a rule: one character, at least three times, which is no letter, digit, tilde or
/// backtick.
fn is_rule_word(word: &str) -> bool
    ensures { result ≡ is_rule_characters (chars word.now) }
{
    is_rule_of(first_char(word), word)
}

/// Whether the words of a text are a rule.
#[tactic(auto, using(crate::proofs::WordCuts::rule_others))]
pub fn is_rule(text: &str) -> bool
    ensures { result ≡ is_rule (spaced_words text.now) }
{
    match only_word(text) {
        Some(word) => is_rule_word(word.word),
        None => false,
    }
}

fn any_letter(text: &str) -> bool
    ensures { result ≡ list_any (λ w. has_letter w.word) (spaced_words text.now) }
{
    for word in SpacedWords::of(text) {
        if has_letter(word.word) {
            return true;
        }
    }
    false
}

/// Whether a word is a prompt of a shell, or of Python.
fn is_prompt(word: &str) -> bool
    ensures { result ≡ is_prompt word.now }
{
    matches!(word, "$" | ">>>")
}

/// Whether a bar stands in a text, whose words may be known to be plain.
fn has_bar(plain: bool, text: &str) -> bool
    requires { plain ≡ true → ArePlain (spaced_words text.now) }
    ensures { result ≡ any_contains (codes "|") (spaced_words text.now) }
{
    !plain && any_contains(text, "|")
}

/// Whether a text, whose words may be known to be plain, stands below the head of a table: `--- | ---`.
fn is_table_rule(plain: bool, text: &str) -> bool
    requires { plain ≡ true → ArePlain (spaced_words text.now) }
    ensures { result ≡ is_table_rule (spaced_words text.now) }
{
    has_bar(plain, text) && any_contains(text, "-") && !any_letter(text)
}

/// Whether a text, whose words may be known to be plain, begins a session or the rows of a table, up to a
/// line without text.
pub fn opens_session(plain: bool, text: &str) -> bool
    requires { plain ≡ true → ArePlain (spaced_words text.now) }
    ensures { result ≡ opens_session (spaced_words text.now) }
{
    is_prompt(first_word(text)) || is_table_rule(plain, text)
}

/// Whether a word says that examples stand below it.
fn is_example_key(word: &str) -> bool
    ensures { result ≡ is_example_key word.now }
{
    matches!(
        word,
        "Usage:" | "usage:" | "Example:" | "example:" | "Examples:" | "examples:"
    )
}

/// By how many columns code is deeper than this text, which stands behind this hanging form.
pub fn deeper_by(hanging: &str, text: &str) -> usize
    ensures { result ≡ deeper_by hanging.now (spaced_words text.now) }
{
    let last = last_word(text);
    if ends_with(last, "::")
        | is_example_key(last)
        | (hanging == " ")
        | (first_word(text) == "..")
    {
        1
    } else {
        4
    }
}
