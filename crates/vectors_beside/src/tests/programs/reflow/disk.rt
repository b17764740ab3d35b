//! Files of the file system, in a folder of their own.
use super::super::super::plain::{assert_found, assert_holds};
use super::folder::WRITTEN_AT_ONCE;
use super::plain::{SOUND, strings};
use filter_programs::reflow::program::Reflow;
use std::alloc::AllocError;
use std::fs::{File, OpenOptions};
use std::io::Write;
use std::os::unix::fs::{MetadataExt, PermissionsExt, lchown, symlink};
use std::process::Abort;
use std::{env, fs, io, process, rt};
use text_files::disk::Disk;
use text_files::files::{FileKind, Files};
use text_filters::tool::execute;
use textwrap_vectors::streams::{Sink, SinkFault};

const COUNT: &str = "one two three four\n";

const COUNT_AT_10: &str = "one two\nthree four\n";

/// Asserts that something was done without a fault of the file system.
fn assert_done(rt: &impl Abort, rule: &str, done: io::Result<()>) {
    assert_holds(rt, rule, done.is_ok());
}

/// The path of a file in the folder, for which there has to be memory.
fn path(rt: &(impl AllocGlobal + Abort), folder: &str, name: &str) -> String {
    format!(in rt.alloc(); "{folder}/{name}").expect(rt, name)
}

/// Writes a text into a file of the folder, and gives it this mode.
fn write(
    rt: &(impl rt::Files<File = File> + AllocGlobal + Abort),
    folder: &str,
    (name, text, mode): (&str, &str, u32),
) -> io::Result<()> {
    let file = path(rt, folder, name);
    fs::write(rt, file.as_str(), text)?;
    fs::set_permissions(rt, file.as_str(), fs::Permissions::from_mode(mode))
}

/// Whether this text stands in the file of the folder.
fn holds(
    rt: &(impl rt::Files<File = File> + AllocGlobal + Abort),
    folder: &str,
    (name, text): (&str, &str),
) -> io::Result<bool> {
    let file = path(rt, folder, name);
    Ok(fs::read_to_string(rt, file.as_str())?.as_str() == text)
}

/// Whether there is no file of this name in the folder.
fn is_gone(
    rt: &(impl rt::Files<File = File> + AllocGlobal + Abort),
    folder: &str,
    name: &str,
) -> io::Result<bool> {
    let file = path(rt, folder, name);
    Ok(!fs::exists(rt, file.as_str())?)
}

/// The owner, the group and the mode of a file of the folder.
fn rights(
    rt: &(impl rt::Files<File = File> + AllocGlobal + Abort),
    folder: &str,
    name: &str,
) -> io::Result<(u32, u32, u32)> {
    let file = path(rt, folder, name);
    let found = fs::metadata(rt, file.as_str())?;
    Ok((found.uid(), found.gid(), found.mode() & 0o7777))
}

/// A name, a text and a mode.
#[rattlefmt::skip]
const BEFORE: &[(&str, &str, u32)] = &[("a", COUNT, 0o640), ("b", COUNT, 0o644), (".reflow-draft-0", "old", 0o600), ("closed", COUNT, 0o444)];

/// Makes the files.
fn make_files(rt: &(impl rt::Files<File = File> + AllocGlobal + Abort), folder: &str) {
    for &file in BEFORE {
        assert_done(rt, file.0, write(rt, folder, file));
    }
}

/// Makes a link to a file of the folder.
fn make_link(
    rt: &(impl rt::Files<File = File> + AllocGlobal + Abort),
    folder: &str,
    (name, target): (&str, &str),
) -> io::Result<()> {
    let link = path(rt, folder, name);
    symlink(rt, target, link.as_str())
}

/// Gives the file `a` to another owner and another group, if the tests may do that: only the
/// super-user may.
fn give_away(rt: &(impl rt::Files<File = File> + AllocGlobal + Abort), folder: &str) {
    let a = path(rt, folder, "a");
    let _given = lchown(rt, a.as_str(), Some(1), Some(2));
}

/// A way, the name of a file, the output, the end of the messages, and the status.
type Run<'a> = (&'a str, &'a str, &'a str, &'a str, u8);

/// The words that ask for ten columns and name a file of the folder.
fn words(
    rt: &(impl AllocGlobal + Abort),
    folder: &str,
    (way, name): (&str, &str),
) -> Result<Vec<String>, AllocError> {
    let file = path(rt, folder, name);
    strings(rt.alloc(), &["-w", "10", way, file.as_str()])
}

/// Whether the output is this, and so is the end of the messages.
fn are_written(written: Sink, said: Sink, (output, message): (&str, &str)) -> bool {
    written.taken.as_slice() == output.as_bytes()
        && said.taken.ends_with(message.as_bytes())
        && said.taken.is_empty() == message.is_empty()
}

/// Whether a run of the program on a file of the folder ends as the row says.
fn is_run(
    rt: &(impl rt::Files<File = File> + AllocGlobal + Abort),
    folder: &str,
    (way, name, output, message, status): Run<'_>,
) -> io::Result<bool> {
    let words = words(rt, folder, (way, name))?;
    let mut written = Sink::new(rt.alloc(), WRITTEN_AT_ONCE, SOUND.1);
    let mut said = Sink::new(rt.alloc(), WRITTEN_AT_ONCE, SOUND.2);
    let ending = execute(
        rt.alloc(),
        &Reflow,
        &words,
        &mut Disk::new(rt),
        &mut io::empty(),
        &mut written,
        &mut said,
    );
    let are_written = are_written(written, said, (output, message));
    Ok(ending.status == status && are_written)
}

const RUNS: &[Run<'_>] = &[
    ("--first-fit", "a", COUNT_AT_10, "", 0),
    ("--in-place", "none", "", "/none: not found\n", 2),
    ("--in-place", "", "", "/: is a folder\n", 2),
    ("--in-place", "link", "", "", 0),
    ("--in-place", "a", "", "", 0),
    ("--first-fit", "link", COUNT_AT_10, "", 0),
    ("--check", "none", "", "/none: not found\n", 2),
];

/// Asserts what comes of the runs.
fn assert_runs(rt: &(impl rt::Files<File = File> + AllocGlobal + Abort), folder: &str) {
    for &row in RUNS {
        assert_found(rt, row.1, is_run(rt, folder, row));
    }
}

/// What stands in the files after the runs.
const AFTER: &[(&str, &str)] = &[("a", COUNT_AT_10), ("b", COUNT)];

/// Whether the link is one.
fn is_link(
    rt: &(impl rt::Files<File = File> + AllocGlobal + Abort),
    folder: &str,
) -> io::Result<bool> {
    let link = path(rt, folder, "link");
    Ok(fs::symlink_metadata(rt, link.as_str())?.is_symlink())
}

/// Whether there are so many files in the folder.
fn has_files(rt: &impl rt::Runtime, folder: &str, count: usize) -> io::Result<bool> {
    Ok(fs::read_dir(rt, folder)?.count() == count)
}

/// Asserts that one file was replaced, and no other written. The link is still one, and the draft that
/// was left over is gone.
fn assert_replaced(
    rt: &(impl rt::Runtime + rt::Files<File = File> + AllocGlobal + Abort),
    folder: &str,
) {
    for &file in AFTER {
        assert_found(rt, file.0, holds(rt, folder, file));
    }
    assert_found(rt, "the link", is_link(rt, folder));
    assert_found(rt, "files and links", has_files(rt, folder, BEFORE.len()));
}

/// Whether the tests may write the file `closed`, as the super-user may write any.
fn may_write(rt: &(impl rt::Files<File = File> + AllocGlobal + Abort), folder: &str) -> bool {
    let file = path(rt, folder, "closed");
    OpenOptions::new()
        .write(true)
        .open(rt, file.as_str())
        .is_ok()
}

/// A run on a file that may not be written, though its folder may be.
#[rattlefmt::skip]
const OF_CLOSED: Run<'_> = ("--in-place", "closed", "", "/closed: may not be written\n", 2);

/// Asserts that such a file is left alone.
fn assert_closed_kept(rt: &(impl rt::Files<File = File> + AllocGlobal + Abort), folder: &str) {
    if !may_write(rt, folder) {
        assert_found(rt, "closed", is_run(rt, folder, OF_CLOSED));
        assert_found(rt, "closed", holds(rt, folder, ("closed", COUNT)));
    }
}

/// Whether these are the rights of a file before it is replaced and after.
fn are_kept(
    before: io::Result<(u32, u32, u32)>,
    after: io::Result<(u32, u32, u32)>,
) -> io::Result<bool> {
    let before = before?;
    Ok(before.2 == 0o640 && after? == before)
}

/// A file is replaced with its owner, its group and its mode, and through a link, and no other file is
/// written.
fn assert_files_are_replaced(
    rt: &(impl rt::Runtime + rt::Files<File = File> + AllocGlobal + Abort),
    folder: &str,
) {
    make_files(rt, folder);
    assert_done(rt, "link", make_link(rt, folder, ("link", "a")));
    give_away(rt, folder);
    let before = rights(rt, folder, "a");
    assert_runs(rt, folder);
    let after = rights(rt, folder, "a");
    assert_found(rt, "the rights", are_kept(before, after));
    assert_closed_kept(rt, folder);
    assert_replaced(rt, folder);
}

/// Whether a draft of so many bytes is its owner's alone.
fn is_draft(found: io::Result<fs::Metadata>, len: u64) -> io::Result<bool> {
    let found = found?;
    Ok(found.mode() & 0o7777 == 0o600 && found.len() == len)
}

/// Makes a draft for a file, writes the text into it and removes it. Returns whether the draft is its
/// owner's alone, and the write says how much it wrote.
fn is_drafted(
    rt: &(impl rt::Files<File = File> + AllocGlobal + Abort),
    (file, draft_path): (&str, &str),
    text: &str,
) -> io::Result<bool> {
    let mut disk = Disk::new(rt);
    let original = disk.open_original(file)?;
    let mut draft = disk.create_draft(&original.node, 0)?;
    let count = draft.stream.write(text.as_bytes()).expect(rt, "a write");
    let found = fs::metadata(rt, draft_path);
    disk.remove(&draft)?;
    is_draft(found, count as u64)
}

/// The same for the file `a`, with a long text.
fn is_drafted_long(
    rt: &(impl rt::Files<File = File> + AllocGlobal + Abort),
    folder: &str,
) -> io::Result<bool> {
    let (a, beside) = (path(rt, folder, "a"), path(rt, folder, DRAFT));
    let text = COUNT.repeat(rt.alloc(), 5_000).expect(rt, "a text");
    is_drafted(rt, (a.as_str(), beside.as_str()), text.as_str())
}

/// The name of the first draft in a folder.
const DRAFT: &str = ".reflow-draft-0";

/// Whether a draft stands as long as it is open, so that another run makes one of another number. Only
/// after that it is left over.
fn is_held(
    rt: &(impl rt::Files<File = File> + AllocGlobal + Abort),
    folder: &str,
) -> io::Result<bool> {
    let a = path(rt, folder, "a");
    let mut disk = Disk::new(rt);
    let original = disk.open_original(a.as_str())?;
    let draft = disk.create_draft(&original.node, 0)?;
    let is_taken = disk.create_draft(&original.node, 0).is_err();
    let is_held = disk.remove_left_over(&original.node, 0).is_err();
    drop(draft);
    disk.remove_left_over(&original.node, 0)?;
    Ok(is_taken && is_held)
}

/// Whether it is seen that a file was written, or replaced, since it was opened.
fn is_seen(
    rt: &(impl rt::Files<File = File> + AllocGlobal + Abort),
    folder: &str,
    text: &str,
) -> io::Result<bool> {
    let a = path(rt, folder, "a");
    let mut disk = Disk::new(rt);
    let original = disk.open_original(a.as_str())?;
    let before = disk.rights(&original.node)?;
    write(rt, folder, ("a", text, 0o644))?;
    let after = disk.rights(&original.node)?;
    Ok(before.is_some() && after.is_none())
}

/// The kinds of what is there on each system.
fn are_kinds(
    rt: &(impl rt::Files<File = File> + AllocGlobal + Abort),
    folder: &str,
) -> io::Result<bool> {
    let a = path(rt, folder, "a");
    let disk = Disk::new(rt);
    Ok(
        disk.kind(folder)? == FileKind::Folder
            && disk.kind(a.as_str())? == FileKind::Regular
            && disk.kind("/dev/null")? == FileKind::Device,
    )
}

/// A draft is its owner's alone. What another program writes into a file is seen.
fn assert_drafts(rt: &(impl rt::Files<File = File> + AllocGlobal + Abort), folder: &str) {
    assert_done(rt, "a file", write(rt, folder, ("a", COUNT, 0o644)));
    assert_found(rt, "a draft", is_drafted_long(rt, folder));
    assert_found(rt, "it is removed", is_gone(rt, folder, DRAFT));
    assert_found(rt, "a draft that is held", is_held(rt, folder));
    assert_found(rt, "it is removed", is_gone(rt, folder, DRAFT));
    assert_found(rt, "a change", is_seen(rt, folder, "another text\n"));
    assert_found(rt, "kinds", are_kinds(rt, folder));
}

/// The path of a new folder of the process of this number.
fn made_folder(
    rt: &(impl rt::Runtime + rt::Files<File = File> + AllocGlobal + Abort),
    process: u32,
) -> String {
    let temporary = env::temp_dir(rt).expect(rt, "a folder").into_string();
    let folder = format!(in rt.alloc(); "{temporary}/reflow-test-{process}").expect(rt, "a path");
    assert_done(rt, "a folder", fs::create_dir(rt, folder.as_str()));
    folder
}

#[test]
fn files_of_the_file_system_are_replaced(rt: HostRuntime) {
    let folder = made_folder(&rt, process::id(rt.process()));
    assert_files_are_replaced(&rt, folder.as_str());
    let _removed = fs::remove_dir_all(&rt, folder.as_str());
}

#[test]
fn drafts_are_made_and_removed(rt: HostRuntime) {
    let folder = made_folder(&rt, process::id(rt.process()));
    assert_drafts(&rt, folder.as_str());
    let _removed = fs::remove_dir_all(&rt, folder.as_str());
}
