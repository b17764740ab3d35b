//! Hyphenation by patterns.
use super::plain::{assert_count, assert_found, assert_holds, assert_text};
use std::alloc::{AllocError, Allocator, Global};
use std::process::Abort;
use textwrap::minima::Steps;
use textwrap_dictionaries::errors::{Fault, ParseError};
use textwrap_hyphens::dictionary::Patterns;
use textwrap_hyphens::levels::levels_counted;
use textwrap_hyphens::points::points;
use textwrap_patterns::patterns::{Exception, Pattern};
use textwrap_patterns::written::{exception, pattern};
use textwrap_vectors::heap::Heap;

/// The patterns of Liang's thesis that stand in `hyphenation`.
#[rattlefmt::skip]
const LIANG: [&str; 9] = ["hy3ph", "he2n", "hena4", "hen5at", "1na", "n2at", "1tio", "2io", "o2n"];

/// Patterns of other scripts and signs.
#[rattlefmt::skip]
const OTHERS: [&str; 6] = ["\u{e4}1\u{df}", "\u{df}1e", "\u{130}1i", "1d1'a", ".a1b", "e1\u{301}"];

/// A word, its points by both lists of patterns, and how many allocations these take. Each row has the
/// rule that it shows.
#[rattlefmt::skip]
const REFUSED: &[(&str, &str, &[usize], usize)] = &[
    ("points alone", "hyphenation", &[2, 6], 1),
    ("each run of letters", "hyphenation/hyphenation", &[2, 6, 14, 18], 1),
    ("letters, and points twice", "hyphenation/hyphenation/hyphenation/hyphenation", &[2, 6, 14, 18, 26, 30, 38, 42], 3),
    ("letters, those of the run, between dots, levels, places and points twice", "hyphenationhyphenationhyphenationhyphenation", &[2, 6, 13, 17, 24, 28, 35, 39], 8),
    ("an exception", "table", &[1, 4], 1),
    ("a word without letters", "-", &[], 0),
    ("a word without points", "than", &[], 0),
];

/// Patterns in no order, so that memory is needed to sort them.
const UNORDERED: &str = "\\patterns{ m1a z1a c1a y1a b1a x1a e1a w1a d1a v1a g1a u1a f1a t1a i1a\n\
     s1a h1a r1a k1a q1a j1a p1a l1a o1a n1a a1a }\n\\hyphenation{ ta-ble\tno-table }";

/// What stands in the table of texts, and how many allocations it takes.
#[rattlefmt::skip]
const READ: &[((&str, &str, &str, &[usize]), usize)] = &[
    (("a list", "hy3ph\nhe2n\n1na\nta-ble\n# none\nLEFTHYPHENMIN 2", "hyphenation", &[2]), 75),
    (("groups of TeX, with many letters at one place", UNORDERED, "lebamale", &[3, 5]), 242),
    (("patterns of the same letters", "1bl\n2bl\n1bl2\n", "tablets", &[]), 37),
    (("a charset", "iso 8859-1\nhe2n\nb1c", "abcd", &[2]), 39),
    (("letters that change", "a1bb1c1d/bb=,2,2", "abbcdefg", &[4]), 38),
    (("two groups", "UTF-8\nb1c\nNEXTLEVEL\nc1d\nb2c", "abcdef", &[2, 3]), 67),
];

/// The letters of the patterns that are counted.
#[rattlefmt::skip]
const LETTERS: [char; 18] = ['a', 'b', 'c', 'd', 'e', 'f', 'g', 'h', 'i', 'j', 'k', 'l', 'm', 'n', 'o', 'p', 'q', 'r'];

/// How many words have three such letters.
const NUMBERS: usize = 5832;

/// How many of them are patterns.
const PATTERNS: usize = 5000;

/// Whether something was found to hold, if there was memory for it.
type Found = Result<bool, AllocError>;

/// The same by a dictionary that is read.
type FoundByText = Result<bool, ParseError>;

/// A dictionary of both lists of patterns.
fn dictionary(alloc: Global) -> Result<Patterns, AllocError> {
    let mut patterns = Vec::new(alloc);
    push_patterns(alloc, &mut patterns, &LIANG)?;
    push_patterns(alloc, &mut patterns, &OTHERS)?;
    let mut exceptions = Vec::new(alloc);
    push_exception(alloc, &mut exceptions, "table", &[1, 4])?;
    push_exception(alloc, &mut exceptions, "phenation", &[])?;
    Patterns::new(alloc, patterns, exceptions, 2, 3)
}

pub fn push_patterns(
    alloc: Global,
    patterns: &mut Vec<Pattern>,
    texts: &[&str],
) -> Result<(), AllocError> {
    for text in texts {
        patterns.push(pattern(alloc, text)?)?;
    }
    Ok(())
}

fn push_exception(
    alloc: Global,
    exceptions: &mut Vec<Exception>,
    word: &str,
    places: &[usize],
) -> Result<(), AllocError> {
    let letters = word.chars().collect(alloc)?;
    let places = Vec::from_slice(alloc, places)?;
    if let Some(made) = exception(letters, places) {
        exceptions.push(made)?;
    }
    Ok(())
}

/// Whether a word has these points.
fn has_points<A: Allocator + Copy, B: Allocator + Copy>(
    alloc: A,
    word: &str,
    patterns: &Patterns<B>,
    wanted: &[usize],
) -> Found {
    Ok(points(alloc, word, &patterns.table())?.as_slice() == wanted)
}

/// Whether the letters of a word are looked up so often.
fn has_lookups(alloc: Global, word: &str, patterns: &Patterns, wanted: u128) -> Found {
    let letters: Vec<char> = word.chars().collect(alloc)?;
    let mut lookups = Steps::new();
    levels_counted(alloc, &letters, &patterns.table(), &mut lookups)?;
    Ok(lookups.count() == wanted)
}

#[test]
fn look_ups_are_counted(rt: HostRuntime) -> Result<(), AllocError> {
    let alloc = rt.alloc();
    let patterns = listed(alloc, &LIANG)?;
    // From each place on, each letter up to the first with which no pattern goes on, but none behind a
    // pattern that no other one begins with.
    let rule = "each letter up to the first with which no pattern goes on";
    assert_found(&rt, rule, has_lookups(alloc, "hyphenation", &patterns, 27));
    Ok(())
}

/// Whether a word of this part, so many times, has a point in each behind so many letters of it.
fn has_points_in_each(alloc: Global, part: &str, times: usize, patterns: &Patterns) -> Found {
    let word = part.repeat(alloc, times)?;
    let found = points(alloc, &word, &patterns.table())?;
    Ok(found.len() == times)
}

#[test]
fn a_long_word_has_its_points(rt: HostRuntime) -> Result<(), AllocError> {
    let alloc = rt.alloc();
    let mut patterns = Vec::new(alloc);
    push_patterns(alloc, &mut patterns, &["ab1cd"])?;
    let patterns = Patterns::new(alloc, patterns, Vec::new(alloc), 2, 2)?;
    let found = has_points_in_each(alloc, "abcd", 2500, &patterns);
    assert_found(&rt, "a word of 10,000 letters", found);
    Ok(())
}

/// Whether a word has these points where so many allocations are allowed, none more and none fewer.
fn has_points_with(
    heap: &Heap,
    word: &str,
    patterns: &Patterns,
    wanted: &[usize],
    allowed: usize,
) -> Found {
    heap.allow(allowed);
    let is_right = has_points(heap, word, patterns, wanted)?;
    Ok(is_right && heap.left() == 0)
}

#[test]
fn each_allocation_may_be_refused(rt: HostRuntime) -> Result<(), AllocError> {
    let patterns = dictionary(rt.alloc())?;
    let heap = Heap::new(rt.alloc(), 0);
    for (rule, word, wanted, needed) in REFUSED {
        for allowed in 0..*needed {
            let found = has_points_with(&heap, word, &patterns, wanted, allowed);
            assert_holds(&rt, rule, found.is_err() && heap.left() == usize::MAX);
        }
        let found = has_points_with(&heap, word, &patterns, wanted, *needed);
        assert_found(&rt, rule, found);
    }
    Ok(())
}

/// Whether a word has these points by the dictionary that a text says.
fn has_points_by<A: Allocator + Copy>(
    alloc: A,
    text: &str,
    word: &str,
    wanted: &[usize],
) -> FoundByText {
    let patterns = Patterns::parse(alloc, text)?;
    Ok(has_points(alloc, word, &patterns, wanted)?)
}

/// How many allocations it takes to read a text and to find a word's points by it, each of which was
/// refused before.
fn allocations(
    rt: &(impl Abort + AllocGlobal),
    (rule, text, word, wanted): (&str, &str, &str, &[usize]),
) -> usize {
    let heap = Heap::new(rt.alloc(), 0);
    for allowed in 0..1_000 {
        heap.allow(allowed);
        match has_points_by(&heap, text, word, wanted) {
            Ok(is_right) => {
                assert_holds(rt, rule, is_right && heap.left() == 0);
                return allowed;
            }
            Err(error) => {
                let is_told = matches!(error, ParseError::Memory(_));
                assert_holds(rt, rule, is_told & (heap.left() == usize::MAX));
            }
        }
    }
    1_000
}

#[test]
fn each_allocation_of_a_dictionary_may_be_refused(rt: HostRuntime) {
    for &(row, needed) in READ {
        assert_count(&rt, row.0, allocations(&rt, row), needed);
    }
}

#[test]
fn patterns_that_change_letters_are_counted(rt: HostRuntime) -> Result<(), ParseError> {
    let text = "1b\nc1k/k=k\nNEXTLEVEL\nd1d/d=d,1,2\nb1d";
    let patterns = Patterns::parse(rt.alloc(), text)?;
    assert_count(&rt, "in both groups", patterns.table().changed(), 2);
    Ok(())
}

/// Whether a dictionary is refused for this fault of this line.
fn is_for(error: &ParseError, line: usize, fault: Fault) -> bool {
    match error {
        ParseError::Line {
            line: found,
            fault: why,
        } => *found == line && *why == fault,
        ParseError::Memory(_) => false,
    }
}

/// Whether a text is refused for this fault of this line.
fn is_refused(alloc: Global, text: &str, line: usize, fault: Fault) -> bool {
    match Patterns::parse(alloc, text) {
        Err(error) => is_for(&error, line, fault),
        Ok(_) => false,
    }
}

/// A word of this part, so many times, with what follows it.
fn repeated(alloc: Global, part: &str, times: usize, end: &str) -> Result<String, AllocError> {
    let mut text = part.repeat(alloc, times)?;
    text.push_str(end)?;
    Ok(text)
}

#[test]
fn a_pattern_has_at_most_255_letters(rt: HostRuntime) -> Result<(), AllocError> {
    let alloc = rt.alloc();
    let longest = repeated(alloc, "a", 255, "1")?;
    let refused = is_refused(alloc, &longest, 1, Fault::TooLong);
    assert_holds(&rt, "255 letters are taken", !refused);
    let longer = repeated(alloc, "a", 256, "1")?;
    let refused = is_refused(alloc, &longer, 1, Fault::TooLong);
    assert_holds(&rt, "256 letters are not", refused);
    Ok(())
}

/// Whether a dictionary of 5,000 lines and one more that is not right is refused for that one.
fn is_long_refused(alloc: Global) -> Found {
    let text = repeated(alloc, "hy3ph\n", 5000, "hy--phen")?;
    Ok(is_refused(alloc, &text, 5001, Fault::Hyphens))
}

#[test]
fn a_long_dictionary_is_read(rt: HostRuntime) -> Result<(), AllocError> {
    let alloc = rt.alloc();
    let lines = "hy3ph\nhe2n\nta-ble\nhena4\nhen5at\n";
    let text = repeated(alloc, lines, 1000, "1na\nn2at")?;
    let found = has_points_by(alloc, &text, "hyphenation", &[2, 6]);
    assert_found(&rt, "a dictionary of 5,002 lines", found);
    assert_found(&rt, "its last line is wrong", is_long_refused(alloc));
    Ok(())
}

/// The dictionary of these patterns alone.
fn listed(alloc: Global, texts: &[&str]) -> Result<Patterns, AllocError> {
    let mut patterns = Vec::new(alloc);
    push_patterns(alloc, &mut patterns, texts)?;
    Patterns::new(alloc, patterns, Vec::new(alloc), 2, 3)
}

/// The word of this number, with something before its last letter and behind it.
fn numbered(alloc: Global, number: usize, level: &str, end: &str) -> Result<String, AllocError> {
    let mut word = String::new(alloc);
    word.push(LETTERS[number / 324 % 18])?;
    word.push(LETTERS[number / 18 % 18])?;
    word.push_str(level)?;
    word.push(LETTERS[number % 18])?;
    word.push_str(end)?;
    Ok(word)
}

/// The level of a pattern whose number stands a second time. Each has level 1 the first time.
fn second_level(number: usize) -> &'static str {
    if number % 2 == 0 { "2" } else { "1" }
}

/// All patterns, one a line, and then from the last to the first with other levels.
fn many_lines(alloc: Global) -> Result<String, AllocError> {
    let mut lines = String::new(alloc);
    for number in 0..PATTERNS {
        lines.push_str(&numbered(alloc, number, "1", "\n")?)?;
    }
    for number in (0..PATTERNS).rev() {
        lines.push_str(&numbered(alloc, number, second_level(number), "\n")?)?;
    }
    Ok(lines)
}

/// The same in a list.
fn many_patterns(alloc: Global) -> Result<Vec<Pattern>, AllocError> {
    let mut patterns = Vec::new(alloc);
    for number in 0..PATTERNS {
        patterns.push(pattern(alloc, &numbered(alloc, number, "1", "")?)?)?;
    }
    for number in (0..PATTERNS).rev() {
        patterns.push(pattern(alloc, &numbered(alloc, number, second_level(number), "")?)?)?;
    }
    Ok(patterns)
}

/// Whether each word has a point exactly if its greatest level is odd.
fn have_their_points(alloc: Global, patterns: &Patterns) -> Found {
    for number in 0..NUMBERS {
        let word = numbered(alloc, number, "", "zz")?;
        let wanted: &[usize] = if number < PATTERNS && number % 2 == 1 {
            &[2]
        } else {
            &[]
        };
        if !has_points(alloc, &word, patterns, wanted)? {
            return Ok(false);
        }
    }
    Ok(true)
}

/// Whether they have them by the patterns in a list.
fn are_listed(alloc: Global) -> Found {
    let patterns = Patterns::new(alloc, many_patterns(alloc)?, Vec::new(alloc), 2, 3)?;
    have_their_points(alloc, &patterns)
}

/// And where these are read.
fn are_read(alloc: Global) -> FoundByText {
    let patterns = Patterns::parse(alloc, &many_lines(alloc)?)?;
    Ok(have_their_points(alloc, &patterns)?)
}

#[test]
fn many_patterns_are_found(rt: HostRuntime) {
    let rule = "5,000 patterns twice, in a list";
    assert_found(&rt, rule, are_listed(rt.alloc()));
    assert_found(&rt, "and in a text", are_read(rt.alloc()));
}

/// An exception for each two letters, from the last to the first.
fn many_exceptions(alloc: Global) -> Result<String, AllocError> {
    let mut text = String::new(alloc);
    for first in ('a'..='z').rev() {
        for second in ('a'..='z').rev() {
            text.push_str(&format!(in alloc; "{first}{second}-cd\n")?)?;
        }
    }
    Ok(text)
}

/// Whether the exception that begins with these letters is found.
fn is_found(alloc: Global, first: char, second: char, patterns: &Patterns) -> Found {
    let word = format!(in alloc; "{first}{second}cd")?;
    has_points(alloc, &word, patterns, &[2])
}

/// Whether each of these exceptions is found.
fn are_found(alloc: Global) -> FoundByText {
    let patterns = Patterns::parse(alloc, &many_exceptions(alloc)?)?;
    for first in 'a'..='z' {
        for second in 'a'..='z' {
            if !is_found(alloc, first, second, &patterns)? {
                return Ok(false);
            }
        }
    }
    Ok(true)
}

#[test]
fn each_exception_is_found(rt: HostRuntime) {
    assert_found(&rt, "676 exceptions", are_found(rt.alloc()));
}

#[test]
fn what_is_wrong_is_printed(rt: HostRuntime) -> Result<(), AllocError> {
    let alloc = rt.alloc();
    if let Err(error) = Patterns::parse(alloc, "a1b\nNEXTLEVEL\nNEXTLEVEL") {
        let text = format!(in alloc; "{error}")?;
        let wanted = "line 3: there are more than two groups of patterns";
        assert_text(&rt, "the line and why", &text, wanted);
    }
    Ok(())
}
