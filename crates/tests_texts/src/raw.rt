//! Raw scripts on the MMIO bus, over the memory forms.

use mmio_regs::MmioBus;
use raw_run::run_raw;
use std::alloc::{AllocError, Global};
use std::test::Fail;
use vt_outside::{Failed, MemDisk, MemSink, MemSource, Sink};
use vt_types::{Bytes, Memory};

const END: &str = "frames 0\nconsole -\ndisk 2\nend\n";

/// A raw script; which calls of the source, the sink and the disk fail, where byte k is 1 for call number k (from 0); and
/// what is wanted: the status, how many calls of the sink failed, and what was written.
#[derive(Clone, Copy)]
struct Row<'a> {
    script: &'a str,
    source: &'a [u8],
    sink: &'a [u8],
    disk: &'a [u8],
    status: u8,
    failed: u32,
    text: &'a str,
}

/// A row in which no call fails.
const CALM: Row<'static> = Row {
    script: "",
    source: &[],
    sink: &[],
    disk: &[],
    status: 0,
    failed: 0,
    text: END,
};

fn list(alloc: Global, bytes: &[u8]) -> Result<Bytes, Memory> {
    let mut all = Bytes::new(alloc);
    all.extend(alloc, bytes)?;
    Ok(all)
}

/// A sink in memory that counts its calls that failed.
#[derive(Drop)]
struct Counting {
    sink: MemSink,
    failed: u32,
}

impl Sink for Counting {
    ghost use Rattle.vt_outside.specs.Memory.{sink_view};

    ghost view = { λ c. sink_view c.sink };

    fn write(&mut self, bytes: &[u8]) -> Result<usize, Failed> {
        let written = self.sink.write(bytes);
        if written.is_err() {
            self.failed = self.failed.saturating_add(1);
        }
        written
    }
}

/// Whether a row gives what is wanted, on a disk of two sectors.
fn holds(alloc: Global, row: &Row<'_>) -> Result<bool, AllocError> {
    let mut source = MemSource::new(
        list(alloc, row.script.as_bytes())?,
        list(alloc, row.source)?,
    );
    let mut sink = Counting {
        sink: MemSink::new(alloc, 1 << 20, list(alloc, row.sink)?)?,
        failed: 0,
    };
    let disk = MemDisk::new(alloc, 2, false, list(alloc, row.disk)?)?;
    let ended = run_raw::<MmioBus, MemSource, Counting, MemDisk>(
        alloc,
        &mut source,
        &mut sink,
        disk,
    );
    Ok(
        ended.status == row.status
            && sink.failed == row.failed
            && sink.sink.bytes() == row.text.as_bytes(),
    )
}

/// Loads of all widths, accesses that the bus or guest memory does not have, and a number that is swapped.
const ACCESSES: &str =
    "load 40002100 4\nload 40002102 1\nload 40002104 4\nload 40002000 2\nload 400020b0 4\ncfgload 2 0 4\nget fffffff 2\nget fffffff 1\nswap 1000 0102030405060708\nget 1000 2\n";

const ANSWERED: &str =
    "1 00190050\n2 19\n3 00000001\n4 0000\n5 ffffffff\n6 none\n7 outside\n8 bytes 00\n9 0000000000000000\n10 bytes 0102\nframes 0\nconsole -\ndisk 2\nend\n";

/// A queue whose available ring lies past the end of guest memory: serving it needs a reset of the device, and signals a
/// change of its configuration.
const MALFORMED: &str =
    "store 40002024 4 1\nstore 40002020 4 1\nstore 40002070 4 b\nstore 40002030 4 1\nstore 40002038 4 4\nstore 40002080 4 ffffff00\nstore 40002044 4 1\nstore 40002070 4 f\nstore 40002050 4 1\nev serve con 1\nload 40002070 4\nload 40002060 4\n";

const NEEDS_RESET: &str =
    "1 ok\n2 ok\n3 ok\n4 ok\n5 ok\n6 ok\n7 ok\n8 ok\n9 ok\n11 0000004f\n12 00000002\nframes 0\nconsole -\ndisk 2\nend\n";

const TWO_LOADS: &str = "load 40002000 4\nload 40002004 4\n";

/// Rows in which no call fails: a script, the status, and what is written.
const CALM_ROWS: [(&str, u8, &str); 7] = [
    (ACCESSES, 0, ANSWERED),
    (MALFORMED, 0, NEEDS_RESET),
    ("", 0, END),
    (
        "# nothing\n\nload 40002000 4",
        0,
        "3 74726976\nframes 0\nconsole -\ndisk 2\nend\n",
    ),
    (
        "store 40002108 4 41\nload 40002008 4",
        0,
        "1 ok\n2 00000003\nframes 0\nconsole 41\ndisk 2\nend\n",
    ),
    (
        "load 40002000 4\nload 40002000 3\nload 40002000 4\n",
        3,
        "1 74726976\nfault 2\n",
    ),
    (
        "ev serve con 0\nev key 61\nev consize 90 30\nload 40002100 4\nev serve blk 0\n",
        3,
        "4 001e005a\nfault 5\n",
    ),
];

/// Rows in which a call fails.
const FAILING_ROWS: [Row<'static>; 5] = [
    Row {
        script: TWO_LOADS,
        source: &[0, 1],
        status: 4,
        text: "1 74726976\n2 00000002\n",
        ..CALM
    },
    Row {
        script: TWO_LOADS,
        source: &[1],
        status: 4,
        text: "",
        ..CALM
    },
    Row {
        script: TWO_LOADS,
        sink: &[0, 1],
        status: 5,
        failed: 1,
        text: "1 74726976\n",
        ..CALM
    },
    Row {
        script: TWO_LOADS,
        sink: &[0, 0, 1],
        status: 5,
        failed: 1,
        text: "1 74726976\n2 00000002\n",
        ..CALM
    },
    Row {
        disk: &[0, 1],
        text: "frames 0\nconsole -\ndisk 2\nsector 1 unreadable\nend\n",
        ..CALM
    },
];

#[test]
fn rows_of_raw_scripts(rt: HostRuntime) -> Result<(), Fail> {
    for (script, status, text) in CALM_ROWS {
        let row = Row {
            script,
            status,
            text,
            ..CALM
        };
        assert!(rt; holds(rt.alloc(), &row)?, "{script}");
    }
    for row in FAILING_ROWS {
        assert!(rt; holds(rt.alloc(), &row)?, "{} {}", row.status, row.text);
    }
    Ok(())
}

#[test]
fn a_script_that_is_too_long(rt: HostRuntime) -> Result<(), Fail> {
    let mut script = String::new(rt.alloc());
    for _block in 0..1u32 << 20 {
        script.push_str(
            "\n\n\n\n\n\n\n\n\n\n\n\n\n\n\n\n\n\n\n\n\n\n\n\n\n\n\n\n\n\n\n\n\n\n\n\n\n\n\n\n\n\n\n\n\n\n\n\n\n\n\n\n\n\n\n\n\n\n\n\n\n\n\n\n",
        )?;
    }
    script.push_str("\n")?;
    let row = Row {
        script: script.as_str(),
        status: 7,
        text: "too long\n",
        ..CALM
    };
    assert!(rt; holds(rt.alloc(), &row)?);
    Ok(())
}
