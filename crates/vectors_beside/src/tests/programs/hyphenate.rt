//! The program `hyphenate`.
use super::reflow::folder::{FileFault, Given};
use super::reflow::plain::{
    Program, assert_no_request, assert_rendered, assert_run, repeated, sound_start,
};
use filter_programs::hyphenate::arguments::{HELP, VERSION};
use filter_programs::hyphenate::program::Hyphenate;
use std::io::ErrorKind;
use std::process::Abort;
use text_filters::tool::matches_in;
use textwrap_vectors::streams::FeedFault;

/// The patterns of Liang's thesis that stand in `hyphenation`, and an exception.
const LIANG: &[u8] = b"hy3ph\nhe2n\nhena4\nhen5at\n1na\nn2at\n1tio\n2io\no2n\nta-ble\n";

/// What a row shows, a text, and its words with their hyphens.
#[rattlefmt::skip]
const WORDS: &[(&str, &str, &str)] = &[
    ("Liang's example", "hyphenation\n", "hy-phen-ation\n"),
    ("capital letters stay", "HYPHENation\n", "HY-PHEN-ation\n"),
    ("signs around a word stay", "(hyphenation),\n", "(hy-phen-ation),\n"),
    ("a line is a word, whatever stands in it", "hyphenation table\n", "hy-phen-ation ta-ble\n"),
    ("an exception", "Table\n", "Ta-ble\n"),
    ("each line ends in a line feed, the last one too", "table\r\n\r\nhyphenation", "ta-ble\n\nhy-phen-ation\n"),
    ("a word with a hyphen gets none", "hyphenation-table\n", "hyphenation-table\n"),
    ("nor does one without points", "unknown\n", "unknown\n"),
    ("a point stands behind a soft hyphen", "hy\u{ad}phenation\n", "hy\u{ad}-phen-ation\n"),
    ("points count bytes", "\u{e4}/table\n", "\u{e4}/ta-ble\n"),
    ("no words", "", ""),
];

/// What a row shows, a text, the columns of a line, and the text filled there.
#[rattlefmt::skip]
const PARAGRAPHS: &[(&str, &str, &str, &str)] = &[
    ("a line ends at a point of the dictionary", "the hyphenation\n", "-11", "the hyphen-\nation\n"),
    ("each paragraph for itself", "a hyphenation\nthe table", "-8", "a hy-\nphen-\nation\nthe ta-\nble"),
    ("first fit", "a b c hyphenation", "-8", "a b c\nhyphen-\nation"),
    ("a wide line needs no hyphen", "the hyphenation\n", "-80", "the hyphenation\n"),
];

/// The file of the dictionary.
const DICTIONARY: Given = ("words.dic", LIANG, FileFault::Nothing);

/// Runs the program over these words, with the dictionary and two texts as its files, and asserts what
/// it writes and says, and the status.
fn assert_writes(
    rt: &(impl Abort + AllocGlobal),
    rule: &str,
    words: &[&str],
    input: &[u8],
    wanted: (&str, &str, u8),
) {
    let files = [
        DICTIONARY,
        ("one", b"table\n", FileFault::Nothing),
        ("two", b"hyphenation", FileFault::Nothing),
    ];
    let start = sound_start(words, input, &files);
    assert_run(rt, rule, Program::Hyphenate, start, wanted);
}

#[test]
fn words_get_their_hyphens(rt: HostRuntime) {
    for (rule, text, wanted) in WORDS {
        assert_writes(&rt, rule, &["words.dic"], text.as_bytes(), (wanted, "", 0));
    }
}

#[test]
fn paragraphs_are_filled_with_hyphens(rt: HostRuntime) {
    for (rule, text, width, wanted) in PARAGRAPHS {
        let words = ["words.dic", width];
        assert_writes(&rt, rule, &words, text.as_bytes(), (wanted, "", 0));
    }
}

/// What a row shows, words, the standard input, and what is written.
#[rattlefmt::skip]
const CALLS: &[(&str, &[&str], &str, &str)] = &[
    ("a long width", &["words.dic", "--width", "8"], "a table", "a table"),
    ("a width before the dictionary", &["-w", "6", "words.dic"], "a table", "a ta-\nble"),
    ("a width after =", &["--width=6", "words.dic"], "a table", "a ta-\nble"),
    ("the last width counts", &["-w6", "words.dic", "-80"], "a table", "a table"),
    ("first fit, if nothing else is asked for", &["words.dic", "-6"], "aaa bb cc ddddd", "aaa bb\ncc\nddddd"),
    ("the least ragged lines", &["words.dic", "-6", "--least-cost"], "aaa bb cc ddddd", "aaa\nbb cc\nddddd"),
    ("between blanks, if nothing else is asked for", &["words.dic", "-8"], "これは「ペン」です。", "これは「\nペン」で\nす。"),
    ("where Unicode lets lines end", &["words.dic", "-8", "--breaks"], "これは「ペン」です。", "これは\n「ペン」\nです。"),
    ("both, with hyphens", &["--breaks", "--least-cost", "-11", "words.dic"], "the hyphenation\n", "the hyphen-\nation\n"),
    ("fewer letters on both sides than the dictionary says", &["words.dic", "--left", "1", "--right=1"], "ana\n", "a-na\n"),
    ("soft hyphens alone, if they are asked for", &["--soft-hyphens", "words.dic"], "hyphena\u{ad}tion\ntable\n", "hyphena\u{ad}-tion\nta-ble\n"),
    ("more before a hyphen", &["--left=3", "words.dic"], "hyphenation\n", "hyphen-ation\n"),
    ("more behind it, of which the last counts", &["--right", "1", "words.dic", "--right", "6"], "hyphenation\n", "hy-phenation\n"),
    ("a file", &["words.dic", "one"], "hyphenation", "ta-ble\n"),
    ("files one after another, and the standard input among them", &["words.dic", "two", "-", "one"], "unknown", "hy-phen-ation\nunknown\nta-ble\n"),
];

#[test]
fn the_words_of_a_call_mean_a_request(rt: HostRuntime) {
    for (rule, words, input, wanted) in CALLS {
        assert_writes(&rt, rule, words, input.as_bytes(), (wanted, "", 0));
    }
}

/// Words that are no request, and what is said of them.
#[rattlefmt::skip]
const NO_REQUESTS: &[(&[&str], &str)] = &[
    (&["words.dic", "--width", "+24"], "hyphenate: --width: '+24' is not a number of 64 bits\n"),
    (&["words.dic", "--width="], "hyphenate: --width: '' is not a number of 64 bits\n"),
    (&["words.dic", "--left", "two"], "hyphenate: --left: 'two' is not a number of 64 bits\n"),
    (&["words.dic", "--right=-1"], "hyphenate: --right: '-1' is not a number of 64 bits\n"),
    (&["no.dic"], "hyphenate: no.dic: not found\n"),
];

#[test]
fn other_words_are_no_request(rt: HostRuntime) {
    for (words, said) in NO_REQUESTS {
        assert_writes(&rt, said, words, b"hyphen\n", ("", said, 2));
    }
    for words in [&[][..], &["--bogus"], &["words.dic", "--width"]] {
        assert_no_request(&rt, Program::Hyphenate, words, &[DICTIONARY]);
    }
}

#[test]
fn many_words_get_their_hyphens(rt: HostRuntime) {
    let text = repeated(&rt, "hyphenation\ntable\n", 5000);
    let wanted = repeated(&rt, "hy-phen-ation\nta-ble\n", 5000);
    let words = ["words.dic"];
    let wanted = (wanted.as_str(), "", 0);
    assert_writes(&rt, "10,000 words", &words, text.as_bytes(), wanted);
}

/// What a row shows, a dictionary and what goes wrong with it, and what is said.
type Failing = (&'static str, &'static [u8], FileFault, &'static str);

/// Runs that fail.
#[rattlefmt::skip]
const FAILURES: &[Failing] = &[
    ("a line of the dictionary is wrong", b"hy3ph\nNEXTLEVEL\nNEXTLEVEL\n", FileFault::Nothing,
        "hyphenate: words.dic: line 3: there are more than two groups of patterns\n"),
    ("the dictionary is in a charset that is not known", b"ISCII-DEVANAGARI\n1\xe4\n", FileFault::Nothing,
        "hyphenate: words.dic: line 1: not UTF-8, and no charset that is known: convert it, as by iconv -t UTF-8\n"),
    ("the dictionary has no patterns", b"UTF-8\nLEFTHYPHENMIN 2\n% none\n", FileFault::Nothing, "hyphenate: words.dic: line 3: has no patterns\n"),
    ("the dictionary is empty", b"", FileFault::Nothing, "hyphenate: words.dic: line 1: has no patterns\n"),
    ("a read of the dictionary fails", b"hy3ph\n", FileFault::Read(FeedFault::Fails(3, ErrorKind::Other)), "hyphenate: words.dic: cannot read\n"),
];

#[test]
fn a_dictionary_is_read_in_its_charset(rt: HostRuntime) {
    let files = [(
        "words.dic",
        b"ISO8859-1\n\xf61\xdf\n" as &[u8],
        FileFault::Nothing,
    )];
    let start = sound_start(&["words.dic"], "gr\u{f6}\u{df}er\n".as_bytes(), &files);
    let wanted = ("gr\u{f6}-\u{df}er\n", "", 0);
    assert_run(&rt, "a charset", Program::Hyphenate, start, wanted);
}

/// What a row shows, the options, a dictionary, and what is said of it.
#[rattlefmt::skip]
const CHANGES: &[(&str, &[&str], &[u8], &str)] = &[
    ("one pattern would change letters", &["words.dic"], b"c1k/k=k\nu1c\n",
        "hyphenate: words.dic: patterns that would change letters, and set no hyphen there: 1\n"),
    ("two would", &["words.dic", "--left=2"], b"c1k/k=k\nu1c\ns1s/ss=s,1,2\n",
        "hyphenate: words.dic: patterns that would change letters, and set no hyphen there: 2\n"),
    ("none would", &["words.dic"], b"c2k\nu1c\n", ""),
    ("it is not to be said", &["-q", "words.dic"], b"c1k/k=k\nu1c\n", ""),
    ("nor is it by the long name", &["words.dic", "--quiet"], b"c1k/k=k\nu1c\n", ""),
];

#[test]
fn changes_of_letters_are_told(rt: HostRuntime) {
    for &(rule, words, dictionary, said) in CHANGES {
        let files = [("words.dic", dictionary, FileFault::Nothing)];
        let start = sound_start(words, b"zucker\n", &files);
        let wanted = ("zu-cker\n", said, 0);
        assert_run(&rt, rule, Program::Hyphenate, start, wanted);
    }
}

#[test]
fn failures_are_explained(rt: HostRuntime) {
    for &(rule, bytes, fault, said) in FAILURES {
        let files = [("words.dic", bytes, fault)];
        let start = sound_start(&["words.dic"], b"hyphen\n", &files);
        assert_run(&rt, rule, Program::Hyphenate, start, ("", said, 2));
    }
}

#[test]
fn help_and_version_are_shown(rt: HostRuntime) {
    for words in [&["--help"][..], &["-h"], &["words.dic", "--help"]] {
        assert_writes(&rt, "the help", words, b"", (HELP, "", 0));
    }
    for words in [&["--version"][..], &["-V"], &["words.dic", "-V"]] {
        assert_writes(&rt, "the version", words, b"", (VERSION, "", 0));
    }
}

#[test]
fn what_is_shown_is_as_clap_makes_it(rt: HostRuntime) {
    assert_rendered(&rt, matches_in(rt.alloc(), &Hyphenate, &["--help"]), HELP);
    let parse = matches_in(rt.alloc(), &Hyphenate, &["--version"]);
    assert_rendered(&rt, parse, VERSION);
}
