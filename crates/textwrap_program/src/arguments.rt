//! The program's arguments.
ghost use Rattle.std.specs.Prelude.{◌≡◌, List, drop, map, string_bytes, IfOk};
ghost use Rattle.std.specs.Iterator.{Drains, IsFinite};
ghost use Rattle.std.specs.Str.{all_ascii_digits};
ghost use Rattle.textwrap_program.specs.Arguments.{width_of, algorithm_of, request_with, request_of};

use std::alloc::{AllocError, Allocator};

/// How words are divided into lines: one of the two ways that the arguments can name.
#[derive(Clone, Copy, Debug, PartialEq, Eq)]
pub enum Algorithm {
    /// Each line takes words while they fit.
    FirstFit,
    /// The lines are those of least cost at the default penalties.
    OptimalFit,
}

/// What the arguments ask for.
#[derive(Debug, Drop, PartialEq)]
pub struct FillRequest {
    /// The columns of a line.
    pub width: usize,
    /// How words are divided into lines.
    pub algorithm: Algorithm,
}

/// The arguments without the first, which is the program's name. The iterator has to end.
///
/// # Errors
/// [`AllocError`] where memory runs out.
pub fn words_after_name<A: Allocator, I: Iterator<Item = String>>(
    alloc: A,
    arguments: I,
) -> Result<Vec<String, A>, AllocError>
    requires can { I.can_next arguments }
    requires ends { IsFinite (I.remaining arguments) }
    ensures { IfOk result (λ words. (given : List _) × Drains I.next_gives arguments given
        × (words.items ≡ drop 1 given)) }
{
    // One by one, since `collect` would grow again where its first reservation is refused.
    let mut words = Vec::new(alloc);
    for word in arguments {
        words.push(word)?;
    }
    if !words.is_empty() {
        words.remove(0);
    }
    Ok(words)
}

/// The request that the words after the program's name mean: a width in ASCII digits, and `first`
/// or `optimal`, which may be left out. Any other words mean none. The call needs no memory.
pub fn arguments(words: &[String]) -> Option<FillRequest>
    ensures { result ≡ request_of (map string_bytes words.now) }
{
    match words {
        [width] => parse_request(width.as_str(), Some(Algorithm::OptimalFit)),
        [width, algorithm] => parse_request(width.as_str(), parse_algorithm(algorithm.as_str())),
        _ => None,
    }
}

/// The request of a width and an algorithm, where both are there.
fn parse_request(width: &str, algorithm: Option<Algorithm>) -> Option<FillRequest>
    ensures { result ≡ request_with width.now algorithm }
{
    let width = parse_width(width)?;
    let algorithm = algorithm?;
    Some(FillRequest { width, algorithm })
}

/// The number of one or more ASCII digits, where it fits. The standard `parse` also takes a sign.
pub fn parse_width(word: &str) -> Option<usize>
    ensures { result ≡ width_of word.now }
{
    if !is_all_digits(word.as_bytes()) {
        return None;
    }
    word.parse().ok()
}

/// Whether each byte is an ASCII digit.
fn is_all_digits(bytes: &[u8]) -> bool
    ensures { result ≡ all_ascii_digits bytes.now }
{
    for byte in bytes {
        if !byte.is_ascii_digit() {
            return false;
        }
    }
    true
}

/// The algorithm of that name.
fn parse_algorithm(word: &str) -> Option<Algorithm>
    ensures { result ≡ algorithm_of word.now }
{
    if word == "first" {
        return Some(Algorithm::FirstFit);
    }
    (word == "optimal").then_some(Algorithm::OptimalFit)
}
