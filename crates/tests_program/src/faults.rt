//! Sources, sinks and disks that fail, and what was written until then.

use crate::call::{Call, list, run};
use crate::script::{OPENED, Script};
use std::alloc::{AllocError, Global};
use std::process::Abort;
use std::test::Fail;
use vt_outside::{Disk, MemDisk};

/// A script of three lines where some calls fail, and what comes of it: the status, how many calls of the sink failed, and
/// what was written.
#[derive(Clone, Copy)]
struct Case {
    source_fails: &'static [u8],
    sink_fails: &'static [u8],
    disk_fails: &'static [u8],
    status: u8,
    failed: u32,
    text: &'static str,
}

const CASES: &[Case] = &[
    // The first read fails.
    Case {
        source_fails: &[1],
        sink_fails: &[],
        disk_fails: &[],
        status: 4,
        failed: 0,
        text: "",
    },
    // The second read fails, once the lines that came were run.
    Case {
        source_fails: &[0, 1],
        sink_fails: &[],
        disk_fails: &[],
        status: 4,
        failed: 0,
        text: "1 id 3 p=0 n=4\n2 ok p=0 n=2\n3 status 00 p=0 n=1\n",
    },
    // The line of an operation can't be written: the run stops at once.
    Case {
        source_fails: &[],
        sink_fails: &[1],
        disk_fails: &[],
        status: 5,
        failed: 1,
        text: "",
    },
    Case {
        source_fails: &[],
        sink_fails: &[0, 0, 1],
        disk_fails: &[],
        status: 5,
        failed: 1,
        text: "1 id 3 p=0 n=4\n2 ok p=0 n=2\n",
    },
    // The end parts can't be written.
    Case {
        source_fails: &[],
        sink_fails: &[0, 0, 0, 1],
        disk_fails: &[],
        status: 5,
        failed: 1,
        text: "1 id 3 p=0 n=4\n2 ok p=0 n=2\n3 status 00 p=0 n=1\n",
    },
    // Sectors can't be read: the run goes on.
    Case {
        source_fails: &[],
        sink_fails: &[],
        disk_fails: &[1],
        status: 0,
        failed: 0,
        text: "1 id 3 p=0 n=4\n2 ok p=0 n=2\n3 status 00 p=0 n=1\nframes 0\nconsole -\ndisk 2048\nsector 0 unreadable\nend\n",
    },
    Case {
        source_fails: &[],
        sink_fails: &[],
        disk_fails: &[0, 1, 0, 1],
        status: 0,
        failed: 0,
        text: "1 id 3 p=0 n=4\n2 ok p=0 n=2\n3 status 00 p=0 n=1\nframes 0\nconsole -\ndisk 2048\nsector 1 unreadable\nsector 3 unreadable\nend\n",
    },
];

/// The cases, and a source that fails in the middle of a long script: what was run is a front of the script, and its report
/// is written.
#[test]
fn failing_calls(rt: HostRuntime) -> Result<(), Fail> {
    for case in CASES {
        let call = Call {
            source_fails: case.source_fails,
            sink_fails: case.sink_fails,
            disk_fails: case.disk_fails,
            ..run("probe con\nreset con\ngetstatus con\n")
        };
        let outcome = call.gives(&rt, rt.alloc(), case.text, case.status)?;
        assert_eq!(rt; outcome.failed, case.failed);
    }
    let mut script = Script::new(rt.alloc(), OPENED)?;
    for _line in 0..1000 {
        script.line("getstatus con", "status 0f p=0 n=1")?;
    }
    let call = Call {
        source_fails: &[0, 0, 1],
        ..run(script.input.as_str())
    };
    let outcome = call.make(rt.alloc())?;
    let text = outcome.text();
    assert!(rt; script.report.as_str().starts_with(text));
    assert!(rt; 4096 < text.len() && text.len() < script.report.len());
    assert_eq!(rt; outcome.status, 4);
    Ok(())
}

/// A disk of three sectors, one of which is not all zeros; byte k of `fails` says whether the k-th reading fails.
fn written_disk(rt: &impl Abort, alloc: Global, fails: &[u8]) -> Result<MemDisk, AllocError> {
    let mut calls = list(alloc, &[0])?;
    calls.extend(alloc, fails)?;
    let mut disk = MemDisk::new(alloc, 3, true, calls)?;
    let mut sector = [0; 512];
    sector[511] = 0x2a;
    assert_eq!(rt; disk.sectors(), 3);
    assert_eq!(rt; disk.write_sector(1, &sector), Ok(()));
    Ok(disk)
}

/// Runs over such a disk: which readings fail, and how the report begins and ends.
const WRITTEN: &[(&[u8], &str, &str)] = &[
    (
        &[],
        "frames 0\nconsole -\ndisk 3\nsector 1 0000",
        "002a\nend\n",
    ),
    (
        &[0, 1],
        "frames 0\nconsole -\ndisk 3\nsector 1 unreadable\nend\n",
        "disk 3\nsector 1 unreadable\nend\n",
    ),
];

/// A sector that is not all zeros has its line, where it can be read; the disk comes back as it was.
#[test]
fn written_disks(rt: HostRuntime) -> Result<(), Fail> {
    for (fails, begin, end) in WRITTEN {
        let disk = written_disk(&rt, rt.alloc(), fails)?;
        let (outcome, mut disk) = run("").make_over(rt.alloc(), disk)?;
        assert!(rt; outcome.text().starts_with(*begin));
        assert!(rt; outcome.text().ends_with(*end));
        let mut sector = [0; 512];
        assert_eq!(rt; disk.sectors(), 3);
        assert_eq!(rt; disk.read_sector(1, &mut sector), Ok(()));
        assert_eq!(rt; sector[511], 0x2a);
    }
    Ok(())
}
