//! Texts of many paragraphs, in which marks stand before the words.
ghost use Rattle.textwrap_calls.specs.Options.{TellsFaults};
ghost use Rattle.std.specs.Prelude.{◌≡◌, ◌↔◌, true, IfOk, IsUtf8, string_bytes};
ghost use Rattle.textwrap_calls.specs.Reflowing.{reflow_algorithm, AreKnown, AreTexts, ending_of_number};
ghost use Rattle.textwrap_calls.specs.Reflowing.{IsReflowedBy};
ghost use Rattle.textwrap_calls.specs.Room.{WritesText};

use crate::options::VERSION;
use crate::room::put;
use crate::status::{NOT_UTF8, OUT_OF_MEMORY, UNKNOWN_OPTIONS};
use crate::texts::{TextwrapText, are_utf8, strs_of};
use simdutf8::basic::from_utf8;
use std::alloc::Global;
use textwrap::LineEnding;
use textwrap::wrap_algorithms::{Penalties, WrapError};
use textwrap_marked::{Algorithm, ReflowOptions, reflow};

/// How a text of many paragraphs is laid out again: what `ReflowOptions` of `textwrap_marked` say, in
/// numbers. A list of texts is a pointer and a length, and a number that says yes or no is 1 or 0.
#[repr(C)]
#[derive(Clone, Copy)]
pub struct TextwrapReflowOptions<'a> {
    /// [`VERSION`].
    pub version: u32,
    /// Whether lines have the least cost, at the penalties below, in place of first fit.
    pub optimal_fit: u32,
    /// How all lines end: in LF (1) or in CRLF (2). By 0 each line that stays keeps its ending, and
    /// filled lines take that of the first line of the text.
    pub ending: u32,
    /// Whether the text has no comments, and `#` is a heading.
    pub markdown: u32,
    /// Whether block comments have no margin of `*`: the later lines of one stand behind blanks.
    pub bare: u32,
    /// Whether text is filled that is deeper than the text before it.
    pub indented: u32,
    /// Whether each line of a paragraph but its last has its gaps widened up to the width.
    pub justify: u32,
    /// 0. A later version may give it a meaning, in which 0 will change nothing.
    pub reserved: u32,
    /// The columns of a line, with its prefix.
    pub width: usize,
    /// Further words that mark a comment, in UTF-8.
    pub markers: &'a [TextwrapText<'a>],
    /// What the marks before a paragraph have to begin with, for one of them, so that it is filled,
    /// in UTF-8. With none all are.
    pub prefixes: &'a [TextwrapText<'a>],
    /// What each line costs.
    pub nline_penalty: usize,
    /// What each column past the width costs.
    pub overflow_penalty: usize,
    /// A last line of one piece is short if it takes less than the width divided by this.
    pub short_last_line_fraction: usize,
    /// What a short last line costs.
    pub short_last_line_penalty: usize,
    /// What a line costs more that ends in an added hyphen. None is added here.
    pub hyphen_penalty: usize,
    /// 0 each, until a later option takes one, for which 0 will change nothing.
    pub reserved_sizes: [usize; 4],
}

/// Fills the paragraphs of a text again behind the marks before their words, and writes it as
/// `textwrap_fill` writes a filled one.
pub fn textwrap_reflow(
    alloc: Global,
    text: &[u8],
    options: &TextwrapReflowOptions<'_>,
    room: &mut [u8],
    len: &mut usize,
) -> u32
    ensures reflowed { WritesText (IsReflowedBy options.now text.now)
        result room.old room.new len.old len.new }
    ensures faults { TellsFaults result (AreKnown options.now)
        (IsUtf8 text.now × AreTexts options.now) }
{
    if !are_known(options) {
        return UNKNOWN_OPTIONS;
    }
    if !are_texts(options) {
        return NOT_UTF8;
    }
    let Ok(text) = from_utf8(text) else {
        return NOT_UTF8;
    };
    match reflowed(alloc, text, options) {
        Ok(reflowed) => put(reflowed.as_bytes(), room, len),
        Err(_) => OUT_OF_MEMORY,
    }
}

/// Whether the version is known, and each number means something.
fn are_known(given: &TextwrapReflowOptions<'_>) -> bool
    ensures { result ≡ true ↔ AreKnown given.now }
{
    given.version == VERSION
        && given.optimal_fit <= 1
        && given.ending <= 2
        && given.markdown <= 1
        && given.bare <= 1
        && given.indented <= 1
        && given.justify <= 1
        && given.reserved == 0
        && given.reserved_sizes == [0; 4]
}

/// Whether the marks and the prefixes are UTF-8.
fn are_texts(given: &TextwrapReflowOptions<'_>) -> bool
    ensures { result ≡ true ↔ AreTexts given.now }
{
    are_utf8(given.markers) && are_utf8(given.prefixes)
}

/// The text, laid out as these options say.
fn reflowed(
    alloc: Global,
    text: &str,
    given: &TextwrapReflowOptions<'_>,
) -> Result<String, WrapError>
    requires { AreTexts given.now }
    ensures { IfOk result (λ reflowed. IsReflowedBy given.now text.now (string_bytes reflowed)) }
{
    let markers = strs_of(alloc, given.markers)?;
    let prefixes = strs_of(alloc, given.prefixes)?;
    let options = ReflowOptions {
        width: given.width,
        algorithm: read_algorithm(given),
        ending: read_ending(given.ending),
        markdown: given.markdown != 0,
        markers: &markers,
        bare: given.bare != 0,
        prefixes: &prefixes,
        indented: given.indented != 0,
        justify: given.justify != 0,
    };
    reflow(alloc, text, &options)
}

/// The algorithm that is asked for.
fn read_algorithm(given: &TextwrapReflowOptions<'_>) -> Algorithm
    ensures { result ≡ reflow_algorithm given.now }
{
    if given.optimal_fit == 0 {
        return Algorithm::FirstFit;
    }
    Algorithm::LeastCost(Penalties {
        nline_penalty: given.nline_penalty,
        overflow_penalty: given.overflow_penalty,
        short_last_line_fraction: given.short_last_line_fraction,
        short_last_line_penalty: given.short_last_line_penalty,
        hyphen_penalty: given.hyphen_penalty,
    })
}

/// The ending that a number asks for, if it does.
fn read_ending(number: u32) -> Option<LineEnding>
    ensures { result ≡ ending_of_number number }
{
    match number {
        0 => None,
        1 => Some(LineEnding::LF),
        _ => Some(LineEnding::CRLF),
    }
}
