//! Fences of code.
ghost use Rattle.std.specs.Prelude.{◌≡◌, ◌==◌, true};
ghost use Rattle.std.specs.List.{prefix_len};
ghost use Rattle.textwrap_marked_lines.specs.Fences.{fence_view, has_backtick_behind, has_pre};
ghost use Rattle.textwrap_marked_lines.specs.Fences.{has_pre_end, is_closed_by, is_left_by, is_long_run};
ghost use Rattle.textwrap_marked_lines.specs.Fences.{opened, opened_by, opens_attribute, opens_formula};
ghost use Rattle.textwrap_marked_lines.specs.Fences.{run_of};
ghost use Rattle.textwrap_marks.specs.Signs.{ArePlain};
ghost use Rattle.textwrap_marks.specs.Words.{has_byte, spaced_words};

use crate::columns::marks_of;
use textwrap_marks::signs::{any_contains, ends_code, first_word, only_word, opens_code};
use textwrap_marks::words::{
    contains, first_byte, has_byte, is_made_of, split_first, split_white, split_words,
};
use textwrap_text::starts::{starts_with, without_start};

/// So many of one character.
#[derive(Clone, Copy, Debug)]
pub struct FenceRun {
    pub mark: u8,
    pub len: usize,
}

/// The least that closes what an attribute opens.
const BACKTICKS: FenceRun = FenceRun { mark: b'`', len: 3 };

/// What a fence is opened by.
#[derive(Clone, Copy, Debug)]
pub enum FenceKind {
    /// Three or more backticks or tildes.
    Run(FenceRun),
    /// `<pre`.
    Pre,
    /// What [`opens_code`] names, such as `@code` of Doxygen.
    Code,
    /// `$$` of Markdown and TeX.
    Formula,
    /// An attribute of Rust that has a line of backticks for rustdoc, whatever marks that line would
    /// stand behind.
    Attribute,
}

/// A fence that is open, and the marks that it stands behind.
#[derive(Drop)]
pub struct Fence {
    pub marks: String,
    pub kind: FenceKind,
}

/// How many bytes from the front on are this one.
fn run_len(mark: u8, bytes: &[u8]) -> usize
    ensures { result ≡ prefix_len (λ c. c == mark) bytes.now }
{
    let mut len = 0;
    while len < bytes.len() && bytes[len] == mark {
        len += 1;
    }
    len
}

/// The backticks or tildes that a word begins with, if they are three or more.
fn run_of(word: &str) -> Option<FenceRun>
    ensures { result ≡ run_of word.now }
{
    let mark = first_byte(word);
    let len = run_len(mark, word.as_bytes());
    if ((mark == b'`') | (mark == b'~')) & (len > 2) {
        Some(FenceRun { mark, len })
    } else {
        None
    }
}

fn has_pre(plain: bool, text: &str) -> bool
    requires { plain ≡ true → ArePlain (spaced_words text.now) }
    ensures { result ≡ has_pre (spaced_words text.now) }
{
    !plain && any_contains(text, "<pre")
}

fn has_pre_end(text: &str) -> bool
    ensures { result ≡ has_pre_end (spaced_words text.now) }
{
    any_contains(text, "</pre")
}

/// Whether a backtick stands behind so many bytes.
fn has_backtick_behind(len: usize, text: &str) -> bool
    ensures { result ≡ has_backtick_behind len (spaced_words text.now) }
{
    let bytes = first_word(text).as_bytes();
    let (_, later) = split_words(text, 1);
    has_byte(b'`', &bytes[len.min(bytes.len())..]) | any_contains(later, "`")
}

/// Whether a text begins a formula by dollar signs, which ends in another line.
fn opens_formula(text: &str) -> bool
    ensures { result ≡ opens_formula (spaced_words text.now) }
{
    if text.is_empty() {
        return false;
    }
    let (first, later) = split_first(text);
    match without_start(first.word, "$$") {
        Some(behind) => !contains(behind, "$$") && !any_contains(later, "$$"),
        None => false,
    }
}

/// Whether a text is an attribute of Rust, of what follows or of what it stands in, that has three
/// backticks.
fn opens_attribute(text: &str) -> bool
    ensures { result ≡ opens_attribute (spaced_words text.now) }
{
    let word = first_word(text);
    (starts_with(word, "#[") || starts_with(word, "#![")) && any_contains(text, "```")
}

/// The fence that a text opens, whose words may be known to be plain, if it does.
pub fn opened(plain: bool, text: &str) -> Option<FenceKind>
    requires { plain ≡ true → ArePlain (spaced_words text.now) }
    ensures { result ≡ opened (spaced_words text.now) }
{
    opened_by(run_of(first_word(text)), plain, text)
}

fn opened_by(run: Option<FenceRun>, plain: bool, text: &str) -> Option<FenceKind>
    requires { plain ≡ true → ArePlain (spaced_words text.now) }
    ensures { result ≡ opened_by run (spaced_words text.now) }
{
    match run {
        Some(run) => {
            if (run.mark == b'`') & has_backtick_behind(run.len, text) {
                None
            } else {
                Some(FenceKind::Run(run))
            }
        }
        None => {
            if has_pre(plain, text) && !has_pre_end(text) {
                Some(FenceKind::Pre)
            } else if opens_code(first_word(text)) {
                Some(FenceKind::Code)
            } else if opens_formula(text) {
                Some(FenceKind::Formula)
            } else if opens_attribute(text) {
                Some(FenceKind::Attribute)
            } else {
                None
            }
        }
    }
}

/// Whether a text is one word of as many of the character or more.
#[tactic(auto, using(crate::proofs::FirstWords::run_others))]
fn is_long_run(run: FenceRun, text: &str) -> bool
    ensures { result ≡ is_long_run run (spaced_words text.now) }
{
    match only_word(text) {
        Some(word) => (word.word.len() >= run.len) & is_made_of(run.mark, word.word.as_bytes()),
        None => false,
    }
}

/// Whether a line with this hanging form and this text closes the fence.
pub fn is_closed_by(fence: &Fence, hanging: &str, text: &str) -> bool
    ensures { result ≡ is_closed_by (fence_view fence.now) hanging.now (spaced_words text.now) }
{
    match fence.kind {
        FenceKind::Pre => has_pre_end(text),
        FenceKind::Code => ends_code(first_word(text)),
        FenceKind::Formula => any_contains(text, "$$"),
        FenceKind::Attribute => is_long_run(BACKTICKS, text),
        FenceKind::Run(run) => {
            (marks_of(hanging) == fence.marks.as_str()) & is_long_run(run, text)
        }
    }
}

/// Whether a line without the marks of the fence ends it.
pub fn is_left_by(fence: &Fence, line: &str) -> bool
    ensures { result ≡ is_left_by (fence_view fence.now) line.now }
{
    let (_, behind) = split_white(line);
    !starts_with(behind, fence.marks.as_str())
}
