//! A call of `top` over the memory forms, and the words of calls.

use script_run::top;
use std::alloc::{AllocError, Global};
use std::process::Abort;
use std::str::from_utf8;
use std::test::Fail;
use vt_outside::{Failed, MemDisk, MemSink, MemSource, MemWatch, Sink};
use vt_types::{Bytes, Memory};

/// How much the sink of a call takes, in bytes.
const ROOM: u32 = 1 << 20;

/// The usage line.
const USAGE: &str = "usage: vt run BUS [trace] [file NAME] | raw BUS [file NAME] | load BUS N\n";

/// What a call is given: its words, its script, and which calls of the source, the sink and the disk fail: byte k is 1 where
/// call number k (from 0) does.
#[derive(Clone, Copy)]
pub(crate) struct Call<'a> {
    pub(crate) words: &'a [&'a str],
    pub(crate) script: &'a str,
    pub(crate) source_fails: &'a [u8],
    pub(crate) sink_fails: &'a [u8],
    pub(crate) disk_fails: &'a [u8],
}

/// A call with these words, in which nothing fails.
pub(crate) fn with_words<'a>(words: &'a [&'a str], script: &'a str) -> Call<'a> {
    Call {
        words,
        script,
        source_fails: &[],
        sink_fails: &[],
        disk_fails: &[],
    }
}

/// The call that runs a script, in which nothing fails.
pub(crate) fn run(script: &str) -> Call<'_> {
    with_words(&["run", "mmio"], script)
}

/// What a call came to: its status, how many calls of its sink failed, what was written, and what the watch was shown.
#[derive(Drop)]
pub(crate) struct Outcome {
    pub(crate) status: u8,
    pub(crate) failed: u32,
    sink: MemSink,
    watch: MemWatch,
}

impl Outcome {
    /// What was written.
    pub(crate) fn text(&self) -> &str {
        from_utf8(self.sink.bytes()).unwrap_or("no text")
    }

    /// What the watch was shown; None where it does not tell.
    pub(crate) fn shown(&self) -> Option<&str> {
        if self.watch.tells() {
            from_utf8(self.watch.bytes()).ok()
        } else {
            None
        }
    }
}

/// A sink in memory that counts its calls that failed.
#[derive(Drop)]
struct Counting {
    sink: MemSink,
    failed: u32,
}

impl Sink for Counting {
    ghost use Rattle.vt_outside.specs.Memory.{sink_view};

    ghost view = { λ c. sink_view c.sink };

    fn write(&mut self, bytes: &[u8]) -> Result<usize, Failed> {
        let written = self.sink.write(bytes);
        if written.is_err() {
            self.failed = self.failed.saturating_add(1);
        }
        written
    }
}

/// Bytes as a list.
pub(crate) fn list(alloc: Global, bytes: &[u8]) -> Result<Bytes, Memory> {
    let mut all = Bytes::new(alloc);
    all.extend(alloc, bytes)?;
    Ok(all)
}

impl Call<'_> {
    /// Makes the call over a disk of 2,048 sectors of zeros.
    pub(crate) fn make(&self, alloc: Global) -> Result<Outcome, AllocError> {
        let disk = MemDisk::new(alloc, 2048, false, list(alloc, self.disk_fails)?)?;
        let (outcome, _disk) = self.make_over(alloc, disk)?;
        Ok(outcome)
    }

    /// Makes the call over a disk, which comes back.
    pub(crate) fn make_over(
        &self,
        alloc: Global,
        disk: MemDisk,
    ) -> Result<(Outcome, MemDisk), AllocError> {
        let mut words = Vec::new(alloc);
        for word in self.words {
            words.push(String::from_str(alloc, word)?)?;
        }
        let script = list(alloc, self.script.as_bytes())?;
        let mut source = MemSource::new(script, list(alloc, self.source_fails)?);
        let mut sink = Counting {
            sink: MemSink::new(alloc, ROOM, list(alloc, self.sink_fails)?)?,
            failed: 0,
        };
        let mut watch = MemWatch::new();
        let ended = top(alloc, &words, &mut source, &mut sink, disk, &mut watch);
        let Counting { sink, failed } = sink;
        let outcome = Outcome {
            status: ended.status,
            failed,
            sink,
            watch,
        };
        Ok((outcome, ended.disk))
    }

    /// Makes the call over a disk of 2,048 sectors of zeros: it writes this text, and ends with this status.
    pub(crate) fn gives(
        &self,
        rt: &impl Abort,
        alloc: Global,
        text: &str,
        status: u8,
    ) -> Result<Outcome, AllocError> {
        let outcome = self.make(alloc)?;
        assert_eq!(rt; outcome.text(), text);
        assert_eq!(rt; outcome.status, status);
        Ok(outcome)
    }
}

/// Lists of words that are not in the grammar.
const OTHER_WORDS: &[&[&str]] = &[
    &[],
    &["run"],
    &["mmio"],
    &["run", "isa"],
    &["run", "pci-intx"],
    &["raw", "ccw-classic"],
    &["load", "mmio", "1"],
    &["check", "mmio"],
    &["Run", "mmio"],
    &["run", "MMIO"],
    &["run", "mmi"],
    &["run", "mmio", "-x"],
    &["run", "mmio", ""],
    &["run", "mmio", "traces"],
    &["run", "trace", "mmio"],
    &["run", "mmio", "trace", "trace"],
    &["run", "mmio", "file", "disk"],
    &["raw", "mmio", "trace"],
    &["", "run", "mmio"],
];

/// The lists of words that are in the grammar, each with a script, its report and its status: what one runs is no script of
/// the others.
const WORDS: &[(&[&str], &str, &str, u8)] = &[
    (
        &["run", "mmio"],
        "probe con\nreset con\n",
        "1 id 3 p=0 n=4\n2 ok p=0 n=2\nframes 0\nconsole -\ndisk 2048\nend\n",
        0,
    ),
    (
        &["run", "mmio", "trace"],
        "probe con\n",
        ". load 40002000 4 = 74726976\n. load 40002004 4 = 00000002\n. load 40002008 4 = 00000003\n. load 4000200c 4 = 00001af4\n1 id 3 p=0 n=4\nframes 0\nconsole -\ndisk 2048\nend\n",
        0,
    ),
    (
        &["raw", "mmio"],
        "load 40002008 4\n",
        "1 00000003\nframes 0\nconsole -\ndisk 2048\nend\n",
        0,
    ),
    (&["run", "mmio"], "load 40002008 4\n", "fault 1\n", 3),
    (
        &["run", "mmio", "trace"],
        "load 40002008 4\n",
        "fault 1\n",
        3,
    ),
    (&["raw", "mmio"], "probe con\n", "fault 1\n", 3),
];

/// For words that are not in the grammar the source is not read, and the watch is shown nothing; their usage line may be one
/// that can't be written.
#[test]
fn words(rt: HostRuntime) -> Result<(), Fail> {
    for (words, script, text, status) in WORDS {
        let _outcome = with_words(words, script).gives(&rt, rt.alloc(), text, *status)?;
    }
    for words in OTHER_WORDS {
        let call = Call {
            source_fails: &[1],
            ..with_words(words, "probe con\n")
        };
        let outcome = call.gives(&rt, rt.alloc(), USAGE, 2)?;
        assert_eq!(rt; outcome.shown(), Some(""));
    }
    let call = Call {
        sink_fails: &[1],
        ..with_words(&["run", "isa"], "")
    };
    let outcome = call.gives(&rt, rt.alloc(), "", 5)?;
    assert_eq!(rt; outcome.failed, 1);
    Ok(())
}
