//! The lines of a script: which are in the grammar, and where a script ends.

use crate::call::{run, with_words};
use std::test::Fail;

/// Blank lines and comments count and do nothing; spaces may stand around words, and the last line feed may be missing. A
/// script, and its report.
const COUNTED: &[(&str, &str)] = &[
    (
        "\n# a comment\nprobe con\n",
        "3 id 3 p=0 n=4\nframes 0\nconsole -\ndisk 2048\nend\n",
    ),
    (
        "   \n#probe con\n   probe    con  ",
        "3 id 3 p=0 n=4\nframes 0\nconsole -\ndisk 2048\nend\n",
    ),
    (
        "probe con\nreset con",
        "1 id 3 p=0 n=4\n2 ok p=0 n=2\nframes 0\nconsole -\ndisk 2048\nend\n",
    ),
    (
        "probe con\nreset con\n\n",
        "1 id 3 p=0 n=4\n2 ok p=0 n=2\nframes 0\nconsole -\ndisk 2048\nend\n",
    ),
    (
        "probe con\nreset con\n# the end",
        "1 id 3 p=0 n=4\n2 ok p=0 n=2\nframes 0\nconsole -\ndisk 2048\nend\n",
    ),
];

/// What a script prints whose second line is not in the grammar.
const SECOND_IS_BAD: &str = "1 id 3 p=0 n=4\nfault 2\n";

/// Lines that are not in the grammar. The console is the one device that is there, so lines that name another are among them.
const BAD: &[&str] = &[
    "foo",
    "probe",
    "Probe con",
    "probe\tcon",
    "probe con con",
    "setq con 1",
    "setq con 65536 8",
    "accept con 000000010000000",
    "accept con 000000010000000g",
    "status con ok",
    "post con 1 1",
    "post con 1 1 r:",
    "post con 1 1 r:4",
    "post con 1 1 w:4097",
    "post con 1 1 w:1 r:41",
    "post con 1 1 w:1 w:1 w:1 w:1 w:1 w:1 w:1 w:1 w:1",
    "readcfg con emerg",
    "readcfg con mac",
    "writecfg con cols 1",
    "writecfg con emerg 4294967296",
    "irq con",
    "ev",
    "ev key",
    "ev consize 1",
    "ev serve con 65536",
    "reset con @0",
    "reset con @0:",
    "reset con @1:key 61 @0:key 61",
    "reset con @65536:key 61",
    "reset con @0:key 61 con",
    "load 40002000 4",
    "probe blk",
    "reset net",
    "features blk",
    "getstatus net",
    "accept blk 0000000100000000",
    "status net ack",
    "setq blk 0 8",
    "post net 1 1 r:41",
    "notify blk 0",
    "reap net 0",
    "arm blk 0",
    "disarm net 1",
    "readcfg blk capacity",
    "readcfg net mac",
    "writecfg blk writeback 1",
    "irq queues net",
    "irq config blk",
    "ev serve blk 0",
    "ev serve net 1",
    "ev frame 00",
    "ev link up",
    "ev resize 1",
    "ev diskfail 1",
    "reset con @0:serve net 0",
    "reset con @0:key 61 @1:resize 1",
];

/// Loads of all widths, accesses that the bus or guest memory does not have, and a number that is swapped.
const RAW: &str =
    "load 40002100 4\nload 40002102 1\nload 40002104 4\nload 40002000 2\nload 400020b0 4\ncfgload 2 0 4\nget fffffff 2\nget fffffff 1\nswap 1000 0102030405060708\nget 1000 2\n";

const RAW_REPORT: &str =
    "1 00190050\n2 19\n3 00000001\n4 0000\n5 ffffffff\n6 none\n7 outside\n8 bytes 00\n9 0000000000000000\n10 bytes 0102\nframes 0\nconsole -\ndisk 2048\nend\n";

/// A script ends at the first line that is not in the grammar, with the report of the lines before it; a line past the line
/// limit is not in the grammar, a comment too. A raw script shows the watch nothing.
#[test]
fn lines(rt: HostRuntime) -> Result<(), Fail> {
    for (script, report) in COUNTED {
        let _outcome = run(script).gives(&rt, rt.alloc(), report, 0)?;
    }
    for line in BAD {
        let script = format!(in rt.alloc(); "probe con\n{line}\nreset con\n")?;
        let _outcome = run(script.as_str()).gives(&rt, rt.alloc(), SECOND_IS_BAD, 3)?;
    }
    let mut script = String::from_str(rt.alloc(), "probe con\n#")?;
    for _block in 0..0xffff {
        script.push_str("0123456789abcdef")?;
    }
    script.push_str("0123456789abcde")?;
    let longest = "1 id 3 p=0 n=4\nframes 0\nconsole -\ndisk 2048\nend\n";
    let _outcome = run(script.as_str()).gives(&rt, rt.alloc(), longest, 0)?;
    script.push_str("f\nreset con\n")?;
    let _outcome = run(script.as_str()).gives(&rt, rt.alloc(), SECOND_IS_BAD, 3)?;
    let call = with_words(&["raw", "mmio"], RAW);
    let outcome = call.gives(&rt, rt.alloc(), RAW_REPORT, 0)?;
    assert_eq!(rt; outcome.shown(), Some(""));
    Ok(())
}

/// More bytes than a script may have.
#[test]
fn a_script_that_is_too_long(rt: HostRuntime) -> Result<(), Fail> {
    let mut script = String::new(rt.alloc());
    for _block in 0..1u32 << 20 {
        script.push_str(
            "\n\n\n\n\n\n\n\n\n\n\n\n\n\n\n\n\n\n\n\n\n\n\n\n\n\n\n\n\n\n\n\n\n\n\n\n\n\n\n\n\n\n\n\n\n\n\n\n\n\n\n\n\n\n\n\n\n\n\n\n\n\n\n\n",
        )?;
    }
    script.push_str("\n")?;
    let _outcome = run(script.as_str()).gives(&rt, rt.alloc(), "too long\n", 7)?;
    Ok(())
}
