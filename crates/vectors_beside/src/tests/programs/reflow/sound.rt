//! A run over streams that cannot fail.
ghost use Rattle.std.specs.Prelude.{None};
ghost use Rattle.text_filters.specs.Streams.{NoReason};

use super::folder::Folder;
use super::plain::{assert_ending, assert_number, repeated, strings};
use filter_programs::reflow::program::Reflow;
use std::alloc::Global;
use std::process::Abort;
use text_filters::faults::{Fault, Reason};
use text_filters::program::Ending;
use text_filters::streams::{ReadWhole, WriteWhole};
use text_filters::tool::execute;

/// A text that is there already.
#[derive(Drop)]
struct Letter {
    text: Option<String>,
}

impl ReadWhole for Letter {
    ghost remaining = { λ _. None };

    ghost faults = { NoReason };

    fn read_whole(&mut self, alloc: Global) -> Result<Vec<u8>, Fault> {
        match self.text.take() {
            Some(text) => Ok(text.into_bytes()),
            None => Ok(Vec::new(alloc)),
        }
    }
}

/// How many bytes were written.
#[derive(Drop)]
struct Counted {
    bytes: usize,
}

impl WriteWhole for Counted {
    ghost contents = { λ _. None };

    ghost faults = { NoReason };

    fn write_whole(&mut self, bytes: &[u8]) -> Result<(), Reason> {
        self.bytes = self.bytes.saturating_add(bytes.len());
        Ok(())
    }
}

/// Runs `reflow` at this width, and says how it ended, and how many bytes it printed and said.
fn counted_run(
    rt: &(impl Abort + AllocGlobal),
    rule: &str,
    width: &str,
    text: String,
) -> (Ending, usize, usize) {
    let words = strings(rt.alloc(), &["-w", width]).expect(rt, rule);
    let mut folder = Folder::new(rt.alloc(), &[]).expect(rt, rule);
    let mut letter = Letter { text: Some(text) };
    let mut output = Counted { bytes: 0 };
    let mut messages = Counted { bytes: 0 };
    let ending = execute(
        rt.alloc(),
        &Reflow,
        &words,
        &mut folder,
        &mut letter,
        &mut output,
        &mut messages,
    );
    (ending, output.bytes, messages.bytes)
}

#[test]
fn streams_that_cannot_fail_are_served(rt: HostRuntime) {
    let rule = "all is printed, and nothing is said";
    for times in [0, 1, 2000] {
        let text = repeated(&rt, "one two three four\n\n", times);
        let (ending, printed, said) = counted_run(&rt, rule, "10", text);
        assert_ending(&rt, rule, ending, 0, true);
        assert_number(&rt, rule, printed, 20 * times);
        assert_number(&rt, rule, said, 0);
    }
}
