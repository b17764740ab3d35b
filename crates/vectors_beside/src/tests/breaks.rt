//! The cases are texts with the mark `÷` wherever a line may or must end, as in the official file.
mod differing;
mod official;

use super::plain::{assert_count, assert_holds};
use Numbers::{ByExpression, ByPairs};
use differing::BY_PAIRS;
use official::{BEGINNINGS, OTHERS, SECONDS};
use std::alloc::{AllocError, Global};
use std::collections::BTreeSet;
use std::process::Abort;
use textwrap_unicode::{LineBreak, LineBreaks, Numbers, line_breaks, line_breaks_by, unicode_cuts};

/// How many distinct cases the official file has. Its 29 further lines repeat some of these.
const DISTINCT_CASES: usize = 7625;
/// How many of them have the official breaks by pairs: all but the 34 of [`BY_PAIRS`].
const OFFICIAL_BY_PAIRS: usize = 7591;

/// Parts of the rules that can be left out with no official case to show it, and a case that does. The
/// classes that came after 15.0 are those that 15.0 had: AK, AP and AS are AL, VI and VF are CM, HH is
/// BA.
#[rattlefmt::skip]
const BEYOND_OFFICIAL: &[(&str, Numbers, &str)] = &[
    ("LB1: SA and a mark, taken as CM", ByPairs, "中\u{e31}÷中÷"),
    ("LB21a: HL BA ×", ByPairs, "\u{5d0}\u{2010}\u{5d0}÷"),
    ("LB28: AL × AL, where the second is AK", ByPairs, "a\u{1b05}÷中÷"),
    ("LB28: AL × AL, where the first is AP", ByPairs, "中÷\u{11003}a÷"),
    ("LB28: AL × AL, where the second is AS", ByPairs, "a\u{1bc0}÷中÷"),
    ("LB9: ID × CM, which is VI", ByPairs, "中\u{1b44}÷中÷"),
    ("LB9: ID × CM, which is VF", ByPairs, "中\u{1bf2}÷中÷"),
    ("LB21: × BA, which is HH, and LB31: ÷ behind it", ByPairs, "中\u{2010}÷中÷"),
    ("LB13: × IS, behind a space too, and LB25: IS × NU", ByPairs, "equals .35÷"),
    ("LB13 as well, and LB31: what begins with IS is no number", ByExpression, "equals .÷35÷"),
    ("LB25: no pair of it may be parted", ByPairs, "$(12.35)%÷"),
    ("LB25: it is one number", ByExpression, "$(12.35)%÷"),
    ("LB25: IS × NU", ByPairs, "a.2÷"),
    ("LB31: what begins with IS is no number", ByExpression, "a.÷2÷"),
    ("LB25: CP × PO", ByPairs, "s)%÷"),
    ("LB31: a number has digits", ByExpression, "s)÷%÷"),
    ("LB25: PO × OP", ByPairs, "%(s÷"),
    ("LB31: a number has digits", ByExpression, "%÷(s÷"),
    ("LB18: SP ÷, LB5: LF !, LB3: ! eot", ByPairs, "foo ÷bar\n÷baz÷"),
    ("LB2 and LB3: no text has no breaks", ByPairs, ""),
];

/// Each case of the official file.
fn official_cases(alloc: Global) -> Result<BTreeSet<String>, AllocError> {
    let mut cases = BTreeSet::new(alloc);
    for &(beginning, ends) in BEGINNINGS {
        insert_pairs(alloc, &mut cases, beginning, ends)?;
    }
    insert_others(alloc, &mut cases)?;
    Ok(cases)
}

/// Inserts the pairs of a beginning, where the bits of `ends` say before which second characters a
/// line may end.
fn insert_pairs(
    alloc: Global,
    cases: &mut BTreeSet<String>,
    beginning: &str,
    ends: u64,
) -> Result<(), AllocError> {
    let mut ends = ends;
    for second in SECONDS.chars() {
        let mark = if ends % 2 == 1 { "÷" } else { "" };
        cases.insert(format!(in alloc; "{beginning}{mark}{second}÷")?)?;
        ends /= 2;
    }
    Ok(())
}

/// Inserts the cases that are no pairs.
fn insert_others(alloc: Global, cases: &mut BTreeSet<String>) -> Result<(), AllocError> {
    for other in OTHERS {
        cases.insert(other.to_string(alloc)?)?;
    }
    Ok(())
}

/// A case's text, without the marks.
fn text_of(alloc: Global, case: &str) -> Result<String, AllocError> {
    let mut text = String::new(alloc);
    for c in case.chars() {
        if c != '÷' {
            text.push(c)?;
        }
    }
    Ok(text)
}

/// The breaks of a text, by the call that is for these numbers.
fn breaks_of(text: &str, numbers: Numbers) -> LineBreaks<'_> {
    match numbers {
        ByPairs => line_breaks(text),
        ByExpression => line_breaks_by(text, numbers),
    }
}

/// Whether the next break of a text of so many bytes is this one, behind this line. A line must end
/// after a line ending and at the end of the text.
fn is_next(breaks: &mut LineBreaks<'_>, at: usize, line: &str, len: usize) -> bool {
    let is_mandatory = at == len || must_end(line);
    breaks.next() == Some(LineBreak { at, is_mandatory })
}

/// Whether a line must end after its last character (one of the classes BK, CR, LF and NL).
fn must_end(line: &str) -> bool {
    matches!(
        line.chars().next_back(),
        Some('\n'..='\r' | '\u{85}' | '\u{2028}' | '\u{2029}')
    )
}

/// Whether a text has the breaks that a case has marks for, and no others, however often one more is
/// asked for.
fn are_marked(mut breaks: LineBreaks<'_>, case: &str, len: usize) -> bool {
    let mut at: usize = 0;
    for line in case.split_inclusive('÷') {
        let Some(line) = line.strip_suffix("÷") else {
            return false;
        };
        at = at.saturating_add(line.len());
        if !is_next(&mut breaks, at, line, len) {
            return false;
        }
    }
    breaks.next().is_none() && breaks.next().is_none()
}

/// Asserts that the text of a case has the breaks that the case has marks for.
fn assert_breaks(rt: &(impl Abort + AllocGlobal), case: &str, numbers: Numbers) {
    let text = text_of(rt.alloc(), case).expect(rt, case);
    assert_holds(rt, case, is_case(&text, case, numbers));
}

/// Whether a text has the breaks that a case has marks for.
fn is_case(text: &str, case: &str, numbers: Numbers) -> bool {
    are_marked(breaks_of(text, numbers), case, text.len())
}

/// Asserts this of each case.
fn assert_all_breaks(rt: &(impl Abort + AllocGlobal), cases: &BTreeSet<String>, numbers: Numbers) {
    for case in cases {
        assert_breaks(rt, case, numbers);
    }
}

/// Whether two cases are the same text with other marks.
fn is_marked_anew(alloc: Global, case: &str, other: &str) -> Result<bool, AllocError> {
    let text = text_of(alloc, case)?;
    let other_text = text_of(alloc, other)?;
    Ok(text == other_text && case != other)
}

/// Takes the cases out that [`BY_PAIRS`] has. Asserts that each of these is one, that it stands there
/// once, and that its text has the breaks that stand there by pairs.
fn take_differing(rt: &(impl Abort + AllocGlobal), cases: &mut BTreeSet<String>) {
    for &(_, official, by_pairs) in BY_PAIRS {
        assert_holds(rt, official, cases.remove(official));
        let is_other = is_marked_anew(rt.alloc(), official, by_pairs).expect(rt, official);
        assert_holds(rt, official, is_other);
        assert_breaks(rt, by_pairs, ByPairs);
    }
}

/// All cases have the official breaks by the expression of numbers, which the official file assumes.
/// By pairs all but those of [`BY_PAIRS`] have them, and these have the breaks there.
fn assert_official(rt: &(impl Abort + AllocGlobal), cases: &mut BTreeSet<String>) {
    assert_count(rt, "distinct cases", cases.len(), DISTINCT_CASES);
    assert_all_breaks(rt, cases, ByExpression);
    take_differing(rt, cases);
    assert_count(rt, "by pairs", cases.len(), OFFICIAL_BY_PAIRS);
    assert_all_breaks(rt, cases, ByPairs);
}

#[test]
fn official_cases_have_their_breaks(rt: HostRuntime) {
    let mut cases = official_cases(rt.alloc()).expect(&rt, "cases");
    assert_official(&rt, &mut cases);
}

#[test]
fn cases_beyond_the_official(rt: HostRuntime) {
    for &(_, numbers, case) in BEYOND_OFFICIAL {
        assert_breaks(&rt, case, numbers);
    }
}

/// A line of 50,000 words of three letters, with the blank after each.
#[test]
fn a_long_line_is_cut_at_each_blank(rt: HostRuntime) {
    let line = "foo ".repeat(rt.alloc(), 50_000).expect(&rt, "line");
    let cuts = unicode_cuts(rt.alloc(), &line).expect(&rt, "cuts");
    assert_count(&rt, "cuts", cuts.len(), 49_999);
    assert_holds(&rt, "the last", cuts.last() == Some(&199_996));
}
