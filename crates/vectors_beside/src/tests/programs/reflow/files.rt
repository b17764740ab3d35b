//! What becomes of files, one after another.
use super::folder::{FileFault, Folder, Given};
use super::plain::{
    Left, assert_bytes, assert_left, assert_number, assert_unread, run, sound_start,
};
use std::io::ErrorKind;
use std::process::Abort;
use text_files::files::FileKind;
use textwrap_vectors::streams::{FeedFault, SinkFault};

const COUNT: &[u8] = b"one two three four\n";

const FIVE: &[u8] = b"five six seven\n";

const EIGHT: &[u8] = b"eight\n";

/// No text: it begins as one.
const NO_TEXT: &[u8] = b"one \xFF\n";

/// Two files that change at 10 columns, and one that does not.
#[rattlefmt::skip]
const SOUND_FILES: &[Given] = &[("a", COUNT, FileFault::Nothing), ("b", FIVE, FileFault::Nothing), ("c", EIGHT, FileFault::Nothing)];

/// The second of three files goes wrong.
#[rattlefmt::skip]
const CLOSED: &[Given] = &[("a", COUNT, FileFault::Nothing), ("b", FIVE, FileFault::Open), ("c", EIGHT, FileFault::Nothing)];

#[rattlefmt::skip]
const CUT_OFF: &[Given] = &[
    ("a", COUNT, FileFault::Nothing),
    ("b", FIVE, FileFault::Read(FeedFault::Fails(9, ErrorKind::BrokenPipe))),
    ("c", EIGHT, FileFault::Nothing),
];

#[rattlefmt::skip]
const NO_UTF8: &[Given] = &[("a", COUNT, FileFault::Nothing), ("b", NO_TEXT, FileFault::Nothing), ("c", EIGHT, FileFault::Nothing)];

/// The first of two files goes wrong when it is replaced.
#[rattlefmt::skip]
const NO_DRAFT: &[Given] = &[("a", COUNT, FileFault::Draft(ErrorKind::StorageFull)), ("b", FIVE, FileFault::Nothing)];

#[rattlefmt::skip]
const DRAFT_CUT_OFF: &[Given] = &[("a", COUNT, FileFault::Write(SinkFault::Fails(7, ErrorKind::BrokenPipe))), ("b", FIVE, FileFault::Nothing)];

#[rattlefmt::skip]
const DRAFT_FULL: &[Given] = &[("a", COUNT, FileFault::Write(SinkFault::TakesNothing(0))), ("b", FIVE, FileFault::Nothing)];

#[rattlefmt::skip]
const DRAFT_NOT_FLUSHED: &[Given] = &[("a", COUNT, FileFault::Write(SinkFault::FlushFails)), ("b", FIVE, FileFault::Nothing)];

#[rattlefmt::skip]
const NOT_RENAMED: &[Given] = &[("a", COUNT, FileFault::Rename), ("b", FIVE, FileFault::Nothing)];

/// All goes wrong that may go wrong before a file is replaced, and after that nothing.
#[rattlefmt::skip]
const NOT_REPLACED: &[Given] = &[
    ("pipe", COUNT, FileFault::Kind(FileKind::Pipe)),
    ("device", COUNT, FileFault::Kind(FileKind::Device)),
    ("folder", COUNT, FileFault::Kind(FileKind::Folder)),
    ("closed", COUNT, FileFault::MayNotWrite),
    ("drafts", COUNT, FileFault::OneDraft(100)),
    ("changed", COUNT, FileFault::Changed),
    ("mode", COUNT, FileFault::NoMode),
    ("sync", COUNT, FileFault::Sync),
    ("memory", COUNT, FileFault::Draft(ErrorKind::OutOfMemory)),
    ("long", COUNT, FileFault::Draft(ErrorKind::InvalidFilename)),
    ("fixed", COUNT, FileFault::Draft(ErrorKind::ReadOnlyFilesystem)),
    ("last", COUNT, FileFault::OneDraft(99)),
];

/// Files that belong to somebody else then.
const OF_NOBODY: &[Given] = &[("a", COUNT, FileFault::NoOwner)];

/// A file with a name like an option.
const ODD_NAME: &[Given] = &[("--check", COUNT, FileFault::Nothing)];

/// A run over files, and what has to come of it.
struct FileRun {
    /// What it shows.
    rule: &'static str,
    words: &'static [&'static str],
    files: &'static [Given],
    output: &'static str,
    messages: &'static str,
    status: u8,
    /// The bytes of the files after it.
    after: &'static [&'static [u8]],
    /// How many of them were replaced.
    replaced: usize,
}

#[rattlefmt::skip]
const FILE_RUNS: &[FileRun] = &[
    FileRun { rule: "files are printed one after another", words: &["-w", "10", "a", "b", "c"], files: SOUND_FILES,
        output: "one two\nthree four\nfive six\nseven\neight\n", messages: "", status: 0, after: &[COUNT, FIVE, EIGHT], replaced: 0 },
    FileRun { rule: "options may stand after files, and a file may come twice", words: &["b", "b", "-w", "10"], files: SOUND_FILES,
        output: "five six\nseven\nfive six\nseven\n", messages: "", status: 0, after: &[COUNT, FIVE, EIGHT], replaced: 0 },
    FileRun { rule: "what stands after -- is a file", words: &["-w", "10", "--", "--check"], files: ODD_NAME,
        output: "one two\nthree four\n", messages: "", status: 0, after: &[COUNT], replaced: 0 },
    FileRun { rule: "a file that is not there, and the others", words: &["-w", "10", "x", "c"], files: SOUND_FILES,
        output: "eight\n", messages: "reflow: x: not found\n", status: 2, after: &[COUNT, FIVE, EIGHT], replaced: 0 },
    FileRun { rule: "a file that cannot be opened, and the others", words: &["-w", "10", "a", "b", "c"], files: CLOSED,
        output: "one two\nthree four\neight\n", messages: "reflow: b: cannot read\n", status: 2, after: &[COUNT, FIVE, EIGHT], replaced: 0 },
    FileRun { rule: "nothing is printed of a file whose read fails", words: &["-w", "10", "a", "b", "c"], files: CUT_OFF,
        output: "one two\nthree four\neight\n", messages: "reflow: b: cannot read\n", status: 2, after: &[COUNT, FIVE, EIGHT], replaced: 0 },
    FileRun { rule: "nothing is printed of a file that is no text", words: &["-w", "10", "a", "b", "c"], files: NO_UTF8,
        output: "one two\nthree four\neight\n", messages: "reflow: b: not UTF-8 after 4 bytes\n", status: 2, after: &[COUNT, NO_TEXT, EIGHT], replaced: 0 },
    FileRun { rule: "each fault has its line", words: &["-w", "10", "y", "b", "x"], files: NO_UTF8, output: "",
        messages: "reflow: y: not found\nreflow: b: not UTF-8 after 4 bytes\nreflow: x: not found\n", status: 2, after: &[COUNT, NO_TEXT, EIGHT], replaced: 0 },
    FileRun { rule: "a check prints the names of files that would change", words: &["-w", "10", "--check", "a", "b", "c"],
        files: SOUND_FILES, output: "a\nb\n", messages: "", status: 1, after: &[COUNT, FIVE, EIGHT], replaced: 0 },
    FileRun { rule: "a check of files that would not change", words: &["-w", "10", "--check", "c", "c"],
        files: SOUND_FILES, output: "", messages: "", status: 0, after: &[COUNT, FIVE, EIGHT], replaced: 0 },
    FileRun { rule: "the status of a check is the greatest, not the last", words: &["-w", "10", "--check", "b", "a", "c"], files: NO_UTF8,
        output: "a\n", messages: "reflow: b: not UTF-8 after 4 bytes\n", status: 2, after: &[COUNT, NO_TEXT, EIGHT], replaced: 0 },
    FileRun { rule: "a check of a file that cannot be opened, of one that is not there, and of the others",
        words: &["-w", "10", "--check", "b", "x", "a", "c"], files: CLOSED, output: "a\n", messages: "reflow: b: cannot read\nreflow: x: not found\n",
        status: 2, after: &[COUNT, FIVE, EIGHT], replaced: 0 },
    FileRun { rule: "a check of nothing but a file that cannot be opened", words: &["-w", "10", "--check", "b"],
        files: CLOSED, output: "", messages: "reflow: b: cannot read\n", status: 2, after: &[COUNT, FIVE, EIGHT], replaced: 0 },
    FileRun { rule: "a check counts for more than replacing", words: &["-w", "10", "--in-place", "--check", "a"],
        files: SOUND_FILES, output: "a\n", messages: "", status: 1, after: &[COUNT, FIVE, EIGHT], replaced: 0 },
    FileRun { rule: "files are replaced, but for those that do not change", words: &["-w", "10", "--in-place", "a", "b", "c"], files: SOUND_FILES,
        output: "", messages: "reflow: 2 of 3 files changed\n", status: 0, after: &[b"one two\nthree four\n", b"five six\nseven\n", EIGHT], replaced: 2 },
    FileRun { rule: "how many is not said if that is not wanted", words: &["-q", "-w", "10", "--in-place", "a", "b", "c"], files: SOUND_FILES,
        output: "", messages: "", status: 0, after: &[b"one two\nthree four\n", b"five six\nseven\n", EIGHT], replaced: 2 },
    FileRun { rule: "a file that comes twice is replaced once", words: &["-w", "10", "--in-place", "a", "a"], files: SOUND_FILES,
        output: "", messages: "reflow: 1 of 2 files changed\n", status: 0, after: &[b"one two\nthree four\n", FIVE, EIGHT], replaced: 1 },
    FileRun { rule: "a file that is no text is not replaced", words: &["-w", "10", "--in-place", "a", "b"], files: NO_UTF8, output: "",
        messages: "reflow: b: not UTF-8 after 4 bytes\nreflow: 1 of 2 files changed\n", status: 2, after: &[b"one two\nthree four\n", NO_TEXT, EIGHT],
        replaced: 1 },
    FileRun { rule: "a file whose read fails is not replaced", words: &["-w", "10", "--in-place", "b", "a"], files: CUT_OFF, output: "",
        messages: "reflow: b: cannot read\nreflow: 1 of 2 files changed\n", status: 2, after: &[b"one two\nthree four\n", FIVE, EIGHT], replaced: 1 },
    FileRun { rule: "a file without a draft is not replaced", words: &["-w", "10", "--in-place", "a", "b"], files: NO_DRAFT, output: "",
        messages: "reflow: a: no space is left\nreflow: 1 of 2 files changed\n", status: 2, after: &[COUNT, b"five six\nseven\n"], replaced: 1 },
    FileRun { rule: "nor is one whose draft is cut off", words: &["-w", "10", "--in-place", "a", "b"], files: DRAFT_CUT_OFF, output: "",
        messages: "reflow: a: cannot write\nreflow: 1 of 2 files changed\n", status: 2, after: &[COUNT, b"five six\nseven\n"], replaced: 1 },
    FileRun { rule: "nor is one whose draft takes nothing", words: &["-w", "10", "--in-place", "a", "b"], files: DRAFT_FULL, output: "",
        messages: "reflow: a: cannot write\nreflow: 1 of 2 files changed\n", status: 2, after: &[COUNT, b"five six\nseven\n"], replaced: 1 },
    FileRun { rule: "nor is one whose draft cannot be flushed", words: &["-w", "10", "--in-place", "a", "b"], files: DRAFT_NOT_FLUSHED, output: "",
        messages: "reflow: a: cannot write\nreflow: 1 of 2 files changed\n", status: 2, after: &[COUNT, b"five six\nseven\n"], replaced: 1 },
    FileRun { rule: "nor is one whose draft cannot be put in its place", words: &["-w", "10", "--in-place", "a", "b"], files: NOT_RENAMED, output: "",
        messages: "reflow: a: cannot write\nreflow: 1 of 2 files changed\n", status: 2, after: &[COUNT, b"five six\nseven\n"], replaced: 1 },
    FileRun { rule: "each step that fails has its message, and leaves the file as it was",
        words: &["-w", "10", "--in-place", "pipe", "device", "folder", "closed", "drafts", "changed", "mode", "sync", "memory", "long", "fixed", "last"],
        files: NOT_REPLACED, output: "", messages: "reflow: pipe: is a pipe or a socket\nreflow: device: is a device\n\
reflow: folder: is a folder\nreflow: closed: may not be written\nreflow: drafts: 100 drafts are there already\n\
reflow: changed: has changed while it was read\nreflow: mode: cannot write\nreflow: sync: cannot write\nreflow: memory: out of memory\n\
reflow: long: its name is too long\nreflow: fixed: stands on a file system that may only be read\nreflow: 1 of 12 files changed\n",
        status: 2, after: &[COUNT, COUNT, COUNT, COUNT, COUNT, COUNT, COUNT, COUNT, COUNT, COUNT, COUNT, b"one two\nthree four\n"],
        replaced: 1 },
    FileRun { rule: "no line has the marks that are filled", words: &["-w", "10", "--in-place", "--prefix", "//", "a", "c"], files: SOUND_FILES, output: "",
        messages: "reflow: a: no line begins with what --prefix says\nreflow: c: no line begins with what --prefix says\n\
reflow: 0 of 2 files changed\n", status: 0, after: &[COUNT, FIVE, EIGHT], replaced: 0 },
];

/// Asserts what stands in the files, and how many were replaced. No draft is left.
fn assert_folder(rt: &impl Abort, row: &FileRun, folder: &Folder) {
    assert_number(rt, row.rule, folder.held.len(), row.after.len());
    for (held, after) in folder.held.iter().zip(row.after) {
        assert_bytes(rt, row.rule, &held.bytes, after);
    }
    assert_number(rt, row.rule, folder.replaced, row.replaced);
    assert_number(rt, row.rule, folder.drafts, 0);
}

/// Asserts what a run left behind, and how it ended.
fn assert_row_left(rt: &impl Abort, row: &FileRun, left: &Left) {
    let written = (row.output.as_bytes(), row.messages.as_bytes());
    assert_left(rt, row.rule, left, written);
    assert_unread(rt, row.rule, left, row.status);
    assert_folder(rt, row, &left.folder);
}

/// No run over files reads the standard input.
#[test]
fn files_are_treated_one_after_another(rt: HostRuntime) {
    for row in FILE_RUNS {
        let start = sound_start(row.words, b"one two", row.files);
        assert_row_left(&rt, row, &run(&rt, row.rule, start));
    }
}

/// A file of another owner and another group lets these do no more than all others might, and they no
/// more than these.
#[test]
fn rights_are_no_wider_for_another_owner(rt: HostRuntime) {
    let start = sound_start(&["-w", "10", "--in-place", "a"], b"", OF_NOBODY);
    let left = run(&rt, "a file of nobody", start);
    assert!(&rt; left.folder.mode == 0o644);
}
