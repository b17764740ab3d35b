//! What becomes of texts in which marks stand before the words. Each row has the kind of text that it
//! shows.
use super::plain::assert_gives;
use std::process::Abort;
use textwrap_lines::LineEnding;
use textwrap_marked::{Algorithm, ReflowOptions, reflow};
use textwrap_words::wrap_algorithms::Penalties;

/// First fit at 16 columns, with nothing declared.
const AT_16: ReflowOptions<'_> = ReflowOptions {
    width: 16,
    algorithm: Algorithm::FirstFit,
    ending: None,
    markdown: false,
    markers: &[],
    bare: false,
    prefixes: &[],
    indented: false,
    justify: false,
};

/// The same at other widths.
const AT_12: ReflowOptions<'_> = ReflowOptions { width: 12, ..AT_16 };

const AT_20: ReflowOptions<'_> = ReflowOptions { width: 20, ..AT_16 };

const AT_24: ReflowOptions<'_> = ReflowOptions { width: 24, ..AT_16 };

/// A text without comments.
const MARKDOWN: ReflowOptions<'_> = ReflowOptions {
    markdown: true,
    ..AT_16
};

/// Gaps that are widened up to the width.
const JUSTIFIED: ReflowOptions<'_> = ReflowOptions {
    justify: true,
    ..AT_16
};

/// A kind of text, the options, and what becomes of a text; the empty text where it stays.
type Row<'a> = (&'a str, ReflowOptions<'a>, &'a str, &'a str);

#[rattlefmt::skip]
const ROWS: &[Row<'_>] = &[
    ("prose", AT_16, "One two three four\nfive six.\n", "One two three\nfour five six.\n"),
    ("words with signs", AT_12, "Use --all --force or -1 and *note* now\n", "Use --all\n--force or\n-1 and\n*note* now\n"),
    ("mail", AT_16, "> one two three four\n> > five six seven eight\n>> nine ten\n", "> one two three\n> four\n> > five six\n> > seven eight\n>> nine ten\n"),
    ("references", AT_16, "[1] http://x.y/z\n[2] http://x.y/w\n", ""),
    ("lists", AT_16, "- one two three four\n  five\n10. six seven eight\n    - nine ten eleven twelve\n",
        "- one two three\n  four five\n10. six seven\n    eight\n    - nine ten\n      eleven\n      twelve\n"),
    ("tasks", AT_16, "- [ ] one two three four\n- [x] five\n", "- [ ] one two\n      three four\n- [x] five\n"),
    ("fences", AT_16, "````sh\n```\nls -l\n````\none\ntwo\n", "````sh\n```\nls -l\n````\none two\n"),
    ("indented code", AT_16, "One\ntwo\n\n    make all\n    make install\n", "One two\n\n    make all\n    make install\n"),
    ("code of Markdown that no text stands before", MARKDOWN, "    make all\n    make install\n\nOne\n\n>     one\n>     two\n", ""),
    ("tables", AT_16, "a | b\n--|--\n1 | 2\nName    Size\nfoo     12\n", ""),
    ("what is below a comment is not drawn into it", AT_16, "A.  % see Ann\nB.\n\nFROM a -- x\nFROM b\n\nMOV A, B ; load\nMOV C, D\n", ""),
    ("alerts, containers", AT_16, "> [!WARNING]\n> one\n> two\n\n[TOC]\n:::note\none\ntwo\n\n:::\n",
        "> [!WARNING]\n> one two\n\n[TOC]\n:::note\none two\n\n:::\n"),
    ("code that Doxygen shows", AT_16, "/**\n * One\n * two\n * @code{.c}\n * f(1);\n * g(2);\n * @endcode\n * three\n * four\n */\n",
        "/**\n * One two\n * @code{.c}\n * f(1);\n * g(2);\n * @endcode\n * three four\n */\n"),
    ("code that JSDoc shows, and none of the lines behind it", AT_16, "/**\n * One\n * two\n * @example\n * f(1);\n * g(2);\n */\nOne\ntwo\n",
        "/**\n * One two\n * @example\n * f(1);\n * g(2);\n */\nOne two\n"),
    ("code that Scaladoc and Javadoc show", AT_16, "/**\n * {{{\n * f(1)\n * g(2)\n * }}}\n * three\n * four\n * {@snippet :\n * f(1);\n * g(2);\n */\n",
        "/**\n * {{{\n * f(1)\n * g(2)\n * }}}\n * three four\n * {@snippet :\n * f(1);\n * g(2);\n */\n"),
    ("code that is commented out", AT_16, "# a = 1\n# b = 2\n", ""),
    ("examples below their key", AT_24, "# Usage:\n#   foo a\n#   foo b\n\n# one\n#   two\n#   three\n",
        "# Usage:\n#   foo a\n#   foo b\n\n# one\n#   two three\n"),
    ("Debian's descriptions", AT_20, "Description: foo\n one two three four\n five\n .\n  six\n  seven\n eight\n nine\n",
        "Description: foo\n one two three four\n five\n .\n  six\n  seven\n eight nine\n"),
    ("rows of a table without bars", AT_16, "a | b\n--|--\n1 | 2\none\ntwo\n\none\ntwo\n", "a | b\n--|--\n1 | 2\none\ntwo\n\none two\n"),
    ("a session in a fence ends with it", AT_16, "```\n$ ls\n```\none\ntwo\n", "```\n$ ls\n```\none two\n"),
    ("formulas", AT_16, "one\ntwo\n$$\na = b\nc = d\n$$\none\ntwo\n$$a$$\none\ntwo\n$$e\nf = g\nh$$\none\ntwo\n",
        "one two\n$$\na = b\nc = d\n$$\none two\n$$a$$\none two\n$$e\nf = g\nh$$\none two\n"),
    ("code of rustdoc that an attribute begins", AT_24,
        "/// one\n/// two\n#[cfg_attr(a, doc = \"```\")]\n#[cfg_attr(not(a), doc = \"```text\")]\n/// f(1);\n/// g(2);\n/// ```\n/// one\n/// two\n#![cfg_attr(a, doc = \" ```\")]\n//! f(1);\n//! g(2);\n//! ```\n//! one\n//! two\n",
        "/// one two\n#[cfg_attr(a, doc = \"```\")]\n#[cfg_attr(not(a), doc = \"```text\")]\n/// f(1);\n/// g(2);\n/// ```\n/// one two\n#![cfg_attr(a, doc = \" ```\")]\n//! f(1);\n//! g(2);\n//! ```\n//! one two\n"),
    ("nor below one that begins otherwise", AT_16, "int a; //x\nint b;\n\na %% b\nc\n\n(f) ;; one\n(g)\n", ""),
    ("what tools read", AT_24, "# one\n# shellcheck disable=SC1\n# two\n# three\n\n// NOLINTNEXTLINE(a)\n// clang-format off\n// @ts-ignore\n// one\n// two\n",
        "# one\n# shellcheck disable=SC1\n# two three\n\n// NOLINTNEXTLINE(a)\n// clang-format off\n// @ts-ignore\n// one two\n"),
    ("lists counted by letters", AT_16, "a. one\nb. two three four five\n\nA. one\nB. two\n\ni. one\nii. two\niii. three\nIV. four\n",
        "a. one\nb. two three\n   four five\n\nA. one\nB. two\n\ni. one\nii. two\niii. three\nIV. four\n"),
    ("constraints of Go", AT_16, "// +build linux\n// +build mips\n", ""),
    ("setext, rules", AT_16, "One two\nTitle\n=====\none\ntwo\n***\n", ""),
    ("headings", AT_16, "## One two three four five\none\ntwo\n", "## One two three four five\none two\n"),
    ("#: a comment", AT_16, "# One two three four five\n", "# One two three\n# four five\n"),
    ("#: a heading", MARKDOWN, "# One two three four five\n", ""),
    ("hard breaks", AT_16, "one  \ntwo\\\nthree\nfour\n", "one  \ntwo\\\nthree four\n"),
    ("link definitions", AT_16, "[a]: x\n[b]: y\n", ""),
    ("front matter", AT_16, "---\ntitle: a\ndate: b\n---\none\ntwo\n", "---\ntitle: a\ndate: b\n---\none two\n"),
    ("C++, a tab", AT_24, "\t// one two three four\n\t// five\n", "\t// one two three\n\t// four five\n"),
    ("Rust", AT_20, "//! One two three four.\n//!\n//! # Panics\n//!\n//! ```\n//! let x = 1;\n//! let y = 2;\n//! ```\n",
        "//! One two three\n//! four.\n//!\n//! # Panics\n//!\n//! ```\n//! let x = 1;\n//! let y = 2;\n//! ```\n"),
    ("C", AT_24, "\t/* one two three four\n\t * five\n\t * - six seven eight nine\n\t * @param a b\n\t * @return c\n\t */\n\tint x;\n",
        "\t/* one two three\n\t * four five\n\t * - six seven\n\t *   eight nine\n\t * @param a b\n\t * @return c\n\t */\n\tint x;\n"),
    ("GNU C, without a margin of asterisks", ReflowOptions { bare: true, ..AT_20 },
        "/* one two\n   three four\n   five.  */\nint x;\n", "/* one two three\n   four five. */\nint x;\n"),
    ("shell, Python", AT_16, "#!/bin/sh\n# one two three four\n# five\n#six=1\n", "#!/bin/sh\n# one two three\n# four five\n#six=1\n"),
    ("SQL, Lua, Haskell", AT_16, "-- one two three four\n-- five\nSELECT 1;\n", "-- one two three\n-- four five\nSELECT 1;\n"),
    ("Lisp, TeX, Erlang", AT_16, ";; one two three four\n;; five\n% six\n% seven\n", ";; one two three\n;; four five\n% six seven\n"),
    ("Go", AT_16, "// One two:\n//\n//\tx := 1\n//\ty := 2\n", ""),
    ("Make", AT_20, "all:\n\t# one two three\n\tcc -o x x.c\n\tld y\n", "all:\n\t# one two\n\t# three\n\tcc -o x x.c\n\tld y\n"),
    ("git trailers", AT_16, "One two three four\n\nFixes: 12ab (\"One two three\")\nSigned-off-by: A B <a@b.c>\n",
        "One two three\nfour\n\nFixes: 12ab (\"One two three\")\nSigned-off-by: A B <a@b.c>\n"),
    ("Debian changelog", AT_24, "  * One two three four five\n    six.\n\n -- A B <a@b.c>  Mon, 01 Jan 2024 00:00:00 +0000\n",
        "  * One two three four\n    five six.\n\n -- A B <a@b.c>  Mon, 01 Jan 2024 00:00:00 +0000\n"),
    ("license header", AT_20, "# Copyright 2019 A\n# Copyright 2020 B\n#\n# One two three four\n", ""),
    ("doctest, shell", AT_16, ">>> f(1)\n1\n2\n\n$ ls\na\nb\n", ""),
    ("CR LF", AT_16, "one two three four\r\nfive\r\n", "one two three\r\nfour five\r\n"),
    ("BOM", AT_16, "\u{feff}// one two three\n// four\n", ""),
    ("wide", AT_16, "// 本日は 晴天 なり 明日も\n// 晴れ\n", "// 本日は 晴天\n// なり 明日も\n// 晴れ\n"),
];

/// Asserts what becomes of a text.
fn assert_becomes(
    rt: &(impl Abort + AllocGlobal),
    kind: &str,
    options: &ReflowOptions<'_>,
    text: &str,
    wanted: &str,
) {
    assert_gives(rt, kind, reflow(rt.alloc(), text, options), wanted);
}

/// Each kind of text is filled by its marks, and what is no running text stays.
#[test]
fn each_kind_of_text_is_filled_by_its_marks(rt: HostRuntime) {
    for &(kind, options, text, becomes) in ROWS {
        let wanted = if becomes.is_empty() { text } else { becomes };
        assert_becomes(&rt, kind, &options, text, wanted);
    }
}

/// The library's own penalties.
const PENALTIES: Penalties = Penalties {
    nline_penalty: 1000,
    overflow_penalty: 2500,
    short_last_line_fraction: 4,
    short_last_line_penalty: 25,
    hyphen_penalty: 25,
};

/// Options that are declared, and an ending that is asked for.
#[rattlefmt::skip]
const DECLARED: &[Row<'_>] = &[
    ("a mark of the caller", ReflowOptions { markers: &["dnl"], ..AT_16 }, "dnl one two three four\ndnl five\n", "dnl one two\ndnl three four\ndnl five\n"),
    ("only behind this prefix", ReflowOptions { prefixes: &["//"], ..AT_16 },
        "one two three four five\n// one two three four\n", "one two three four five\n// one two three\n// four\n"),
    ("deeper text too", ReflowOptions { indented: true, ..AT_16 }, "one\n\n    two three four five\n", "one\n\n    two three\n    four five\n"),
    ("all lines end so", ReflowOptions { ending: Some(LineEnding::CRLF), ..AT_16 }, "one two three four\n==\n", "one two three\r\nfour\r\n==\r\n"),
    ("least cost; a word like a key begins no line", ReflowOptions { algorithm: Algorithm::LeastCost(PENALTIES), ..AT_12 },
        "> To be, or not to be: that is the question\n", "> To be, or\n> not to be:\n> that\n> is the\n> question\n"),
];

/// Justified paragraphs: all lines but the last are as wide as 16 columns.
#[rattlefmt::skip]
const JUSTIFIED_ROWS: &[Row<'_>] = &[
    ("the first gaps get one blank more", JUSTIFIED, "> one two six ten red blue\n> four\n", "> one   two  six\n> ten  red  blue\n> four\n"),
    ("a list; a single line stays", JUSTIFIED, "- one two three four five six\n- seven eight\n", "- one  two three\n  four five six\n- seven eight\n"),
    ("wide gaps are no columns", JUSTIFIED, "One    two\nthree four five\n", "One   two  three\nfour five\n"),
    ("a tab is one", JUSTIFIED, "one\ttwo three four five\n", "one\ttwo three four five\n"),
    ("a tab in the prefix has its columns", ReflowOptions { width: 28, ..JUSTIFIED },
        "\t// one two three four\n\t// five\n", "\t// one   two   three\n\t// four five\n"),
    ("lines of one word stay", ReflowOptions { width: 8, ..JUSTIFIED }, "abcdefghijkl mnopqrstuvwxyz abc\n", "abcdefghijkl\nmnopqrstuvwxyz\nabc\n"),
];

/// What a caller declares and asks for counts.
#[test]
fn what_is_declared_counts(rt: HostRuntime) {
    for &(kind, options, text, becomes) in DECLARED {
        assert_becomes(&rt, kind, &options, text, becomes);
    }
    for &(kind, options, text, becomes) in JUSTIFIED_ROWS {
        assert_becomes(&rt, kind, &options, text, becomes);
    }
}

/// How many paragraphs the large text has.
const MANY: usize = 2_000;

/// Asserts what becomes of the large text, as often.
fn assert_large_becomes(
    rt: &(impl Abort + AllocGlobal),
    options: &ReflowOptions<'_>,
    paragraph: &str,
) {
    let text = "> one two three four\n> five\n\n".repeat(rt.alloc(), MANY);
    let wanted = paragraph.repeat(rt.alloc(), MANY).expect(rt, "text");
    assert_becomes(rt, paragraph, options, &text.expect(rt, "text"), &wanted);
}

/// A large text is filled paragraph by paragraph.
#[test]
fn a_large_text_is_filled(rt: HostRuntime) {
    let options = ReflowOptions::new(16);
    assert_large_becomes(&rt, &options, "> one two three\n> four five\n\n");
    assert_large_becomes(&rt, &JUSTIFIED, "> one  two three\n> four five\n\n");
}
