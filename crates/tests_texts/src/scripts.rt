//! Tables of lines, and the reader over sources in memory.

use script_text::{
    LONGEST_LINE, Line, LineFault, LineReader, NextFault, RawLine, limits_are_defined, parse_line,
    parse_raw,
};
use std::alloc::{AllocError, Global};
use std::test::Fail;
use vt_outside::MemSource;
use vt_types::{Access, Bytes};

/// Lines of a script.
const GOOD: &[&[u8]] = &[
    b"probe blk",
    b"reset net",
    b"features con",
    b"getstatus blk",
    b"accept con 00000001aBcD0000",
    b"status blk ack",
    b"status net driver",
    b"status con featok",
    b"status con drvok",
    b"setq con 0 65535",
    b"post net 1 7 r:00ff",
    b"post con 0 65535 ind r:00 r:01 w:1 w:4096",
    b"post con 0 0 w:1 w:1 w:1 w:1 w:1 w:1 w:1 w:1",
    b"notify con 65535",
    b"reap con 00000000000000000001",
    b"arm blk 0",
    b"disarm blk 0",
    b"readcfg blk seg_max",
    b"readcfg net status",
    b"readcfg con ports",
    b"writecfg blk writeback 4294967295",
    b"writecfg con emerg 0",
    b"irq queues net",
    b"irq config net",
    b"ev serve net 65535",
    b"ev frame 0A",
    b"ev key 00ff",
    b"ev resize 18446744073709551615",
    b"ev link up",
    b"ev link down",
    b"ev consize 0 65535",
    b"ev diskfail 1",
    b"ev diskfail 65535",
    b"reap con 1 @0:serve con 1 @0:frame 0a @65535:link up",
];

/// What is not in the grammar of a script.
const BAD: &[&[u8]] = &[
    b"probe",
    b"probe blk blk",
    b"probe foo",
    b"Probe blk",
    b"probe\tblk",
    b"probe blk\r",
    b"probe blk\x00",
    b"accept con 00000001abcd000",
    b"accept con 00000001abcd00000",
    b"accept con 00000001abcd000g",
    b"status blk ok",
    b"setq con 0 65536",
    b"setq con 65536 0",
    b"setq con -1 0",
    b"setq con 0x1 0",
    b"post con 0 0",
    b"post con 0 65536 r:00",
    b"post con 0 0 r:",
    b"post con 0 0 r:0",
    b"post con 0 0 w:0",
    b"post con 0 0 w:4097",
    b"post con 0 0 w:1 r:00",
    b"post con 0 0 ind ind r:00",
    b"post con 0 0 w:1 w:1 w:1 w:1 w:1 w:1 w:1 w:1 w:1",
    b"reap con 000000000000000000001",
    b"readcfg con mac",
    b"readcfg con emerg",
    b"readcfg blk cols",
    b"writecfg net mac 0",
    b"writecfg con cols 0",
    b"writecfg blk writeback 4294967296",
    b"irq net",
    b"irq queue net",
    b"ev",
    b"ev serve net 65536",
    b"ev frame",
    b"ev frame 0",
    b"ev resize 18446744073709551616",
    b"ev resize 99999999999999999999",
    b"ev link UP",
    b"ev consize 0",
    b"ev diskfail 0",
    b"ev diskfail 65536",
    b"ev link up up",
    b"ev link up @0:link up",
    b"@0:link up",
    b"reap con 1 @1:link up @0:link up",
    b"reap con 1 @65536:link up",
    b"reap con 1 @:link up",
    b"reap con 1 @0: link up",
    b"reap con 1 @0 link up",
    b"reap con 1 @0:link up 1",
];

/// Accesses of a raw script.
const GOOD_RAW: &[&[u8]] = &[
    b"load 0 1",
    b"store ffffffffffffffff 04 FFFFFFFF",
    b"cfgload 255 fff 2",
    b"cfgstore 0 0 4 0",
    b"put 0 00",
    b"get 0 8192",
    b"zero 0 65535",
    b"swap 0 0123456789abcdef",
    b"ssch 00010000 0",
    b"tsch 0 0",
    b"stsch 0 0",
    b"msch 0 0",
    b"csch ffffffff",
    b"turn 0",
    b"diag 500 0 0 ffffffffffffffff",
];

/// What is not in the grammar of a raw script.
const BAD_RAW: &[&[u8]] = &[
    b"load 0 3",
    b"load 0 0",
    b"load 10000000000000000 1",
    b"load g 1",
    b"load 0",
    b"store 0 1 100000000",
    b"cfgload 256 0 1",
    b"cfgload 0 1000 1",
    b"put 0",
    b"put 0 000",
    b"get 0 0",
    b"get 0 8193",
    b"zero 0 0",
    b"zero 0 65536",
    b"swap 0 0 0",
    b"ssch 100000000 0",
    b"csch",
    b"probe blk",
];

/// Lines of either script that do nothing.
const BLANK: &[&[u8]] = &[b"", b"   ", b"#", b"  #probe blk \x00"];

fn is_bad(alloc: Global, line: &[u8]) -> bool {
    matches!(parse_line(alloc, line), Err(LineFault::Bad))
}

/// So many copies of a text, after a beginning.
fn repeated(alloc: Global, begin: &[u8], text: &[u8], count: usize) -> Result<Vec<u8>, AllocError> {
    let mut line = Vec::from_slice(alloc, begin)?;
    for _ in 0..count {
        line.extend_from_slice(text)?;
    }
    Ok(line)
}

/// The beginning of a line, and a text of which the line may have so many copies behind it, and no more.
const MOST: [(&[u8], &[u8], usize); 5] = [
    (b"reap con 1", b" @7:link up", 128),
    (b"", b" ", LONGEST_LINE),
    (b"ev frame ", b"0a", 2048),
    (b"ev key ", b"0a", 64),
    (b"post con 1 0 r:", b"0a", 4096),
];

#[test]
fn lines_of_a_script(rt: HostRuntime) -> Result<(), Fail> {
    let alloc = rt.alloc();
    for line in GOOD {
        assert!(rt; parse_line(alloc, line).is_ok(), "{line:?}");
    }
    for line in BAD {
        assert!(rt; is_bad(alloc, line), "{line:?}");
    }
    for line in BLANK {
        assert!(rt;
            matches!(parse_line(alloc, line), Ok(Line::Blank)),
            "{line:?}"
        );
    }
    limits_are_defined();
    for (begin, text, most) in MOST {
        let mut line = repeated(alloc, begin, text, most)?;
        assert!(rt; parse_line(alloc, &line).is_ok(), "{most} of {text:?}");
        line.extend_from_slice(text)?;
        assert!(rt; is_bad(alloc, &line), "{most} of {text:?}");
    }
    Ok(())
}

/// Whether a line puts these bytes at an address.
fn puts(alloc: Global, line: &[u8], at: u64, wanted: &[u8]) -> bool {
    match parse_raw(alloc, line) {
        Ok(RawLine::Access(access)) => match access.access() {
            Access::Put { addr, bytes } => addr == at && bytes == wanted,
            _ => false,
        },
        _ => false,
    }
}

#[test]
fn lines_of_a_raw_script(rt: HostRuntime) {
    let alloc = rt.alloc();
    for line in GOOD_RAW {
        assert!(rt;
            matches!(parse_raw(alloc, line), Ok(RawLine::Access(_))),
            "{line:?}"
        );
    }
    for line in BAD_RAW {
        assert!(rt;
            matches!(parse_raw(alloc, line), Err(LineFault::Bad)),
            "{line:?}"
        );
    }
    for line in BLANK {
        assert!(rt;
            matches!(parse_raw(alloc, line), Ok(RawLine::Blank)),
            "{line:?}"
        );
    }
    assert!(rt; puts(alloc, b"put 1f 0aFF", 0x1f, &[0x0a, 0xff]));
}

/// A source of these bytes, of which the calls that `fails` has a 1 for fail.
fn source_of(alloc: Global, bytes: &[u8], fails: &[u8]) -> Result<MemSource, AllocError> {
    let bytes = Bytes::from_vec(Vec::from_slice(alloc, bytes)?);
    let fails = Bytes::from_vec(Vec::from_slice(alloc, fails)?);
    Ok(MemSource::new(bytes, fails))
}

/// The answers for a source whose second call fails, with the lines that are lent then.
const ANSWERS: [(Result<Option<u32>, NextFault>, &[u8]); 5] = [
    (Ok(Some(1)), b"one"),
    (Ok(Some(2)), b""),
    (Err(NextFault::Read), b""),
    (Ok(Some(3)), b" three"),
    (Ok(None), b""),
];

#[test]
fn lines_of_a_source(rt: HostRuntime) -> Result<(), Fail> {
    let alloc = rt.alloc();
    let mut source = source_of(alloc, b"one\n\n three", &[0, 1])?;
    let mut reader = LineReader::new(alloc)?;
    for (answer, line) in ANSWERS {
        assert_eq!(rt; reader.next_line(alloc, &mut source), answer);
        assert_eq!(rt; reader.line(), line);
    }
    let bytes = repeated(alloc, b"x\n", b"x", LONGEST_LINE + 1)?;
    let mut source = source_of(alloc, &bytes, &[])?;
    let mut reader = LineReader::new(alloc)?;
    for answer in [Ok(Some(1)), Err(NextFault::Long)] {
        assert_eq!(rt; reader.next_line(alloc, &mut source), answer);
    }
    Ok(())
}
