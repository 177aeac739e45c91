//! What a watch is shown, and the traces in a report.

use crate::call::{Call, with_words};
use std::alloc::{AllocError, Global};
use std::process::Abort;
use std::test::Fail;

/// A line of a script, its trace, and what it prints behind its number.
type Traced<'a> = (&'a str, &'a str, &'a str);

/// The console is brought up with indirect tables, sends and receives.
const SESSION: &[Traced<'static>] = &[
    (
        "probe con",
        ". load 40002000 4 = 74726976\n. load 40002004 4 = 00000002\n. load 40002008 4 = 00000003\n. load 4000200c 4 = 00001af4\n",
        "id 3 p=0 n=4",
    ),
    (
        "reset con",
        ". store 40002070 4 00000000 = ok\n. load 40002070 4 = 00000000\n",
        "ok p=0 n=2",
    ),
    (
        "getstatus con",
        ". load 40002070 4 = 00000000\n",
        "status 00 p=0 n=1",
    ),
    (
        "features con",
        ". store 40002014 4 00000000 = ok\n. load 40002010 4 = 30000005\n. store 40002014 4 00000001 = ok\n. load 40002010 4 = 00000001\n",
        "features 0000000130000005 p=0 n=4",
    ),
    (
        "status con ack",
        ". store 40002070 4 00000001 = ok\n. load 40002070 4 = 00000001\n",
        "status 01 p=0 n=2",
    ),
    (
        "status con driver",
        ". store 40002070 4 00000003 = ok\n. load 40002070 4 = 00000003\n",
        "status 03 p=0 n=2",
    ),
    (
        "accept con 0000000110000000",
        ". store 40002024 4 00000000 = ok\n. store 40002020 4 10000000 = ok\n. store 40002024 4 00000001 = ok\n. store 40002020 4 00000001 = ok\n",
        "ok p=0 n=4",
    ),
    (
        "status con featok",
        ". store 40002070 4 0000000b = ok\n. load 40002070 4 = 0000000b\n",
        "status 0b p=0 n=2",
    ),
    (
        "setq con 0 4",
        ". zero 04000000 40960 = ok\n. store 40002030 4 00000000 = ok\n. load 40002044 4 = 00000000\n. load 40002034 4 = 00000100\n. store 40002038 4 00000004 = ok\n. store 40002080 4 04000000 = ok\n. store 40002084 4 00000000 = ok\n. store 40002090 4 04004000 = ok\n. store 40002094 4 00000000 = ok\n. store 400020a0 4 04006000 = ok\n. store 400020a4 4 00000000 = ok\n. store 40002044 4 00000001 = ok\n",
        "ok p=0 n=12",
    ),
    (
        "setq con 1 8",
        ". zero 05000000 40960 = ok\n. store 40002030 4 00000001 = ok\n. load 40002044 4 = 00000000\n. load 40002034 4 = 00000100\n. store 40002038 4 00000008 = ok\n. store 40002080 4 05000000 = ok\n. store 40002084 4 00000000 = ok\n. store 40002090 4 05004000 = ok\n. store 40002094 4 00000000 = ok\n. store 400020a0 4 05006000 = ok\n. store 400020a4 4 00000000 = ok\n. store 40002044 4 00000001 = ok\n",
        "ok p=0 n=12",
    ),
    (
        "status con drvok",
        ". store 40002070 4 0000000f = ok\n. load 40002070 4 = 0000000f\n",
        "status 0f p=0 n=2",
    ),
    (
        "notify con 1",
        ". store 40002050 4 00000001 = ok\n",
        "ok p=0 n=1",
    ),
    (
        "post con 1 7 r:6869 @2:consize 90 30 @4:serve con 1",
        ". put 05400000 6869 = ok\n. put 05000000 00004005000000000200000000000000 = ok\n* consize 90 30\n. put 05004004 0000 = ok\n. put 05004002 0100 = ok\n* serve con 1\n",
        "ok p=1 n=4",
    ),
    (
        "post con 1 8 r:41 r:4243 w:3",
        ". put 05402000 414243 = ok\n. put 05000010 00204005000000000100000001000200 = ok\n. put 05000020 01204005000000000200000001000300 = ok\n. put 05000030 03204005000000000300000002000000 = ok\n. put 05004006 0100 = ok\n. put 05004002 0200 = ok\n",
        "ok p=0 n=6",
    ),
    (
        "post con 1 9 ind r:44 w:1",
        ". put 05408000 44 = ok\n. put 05020200 0080400500000000010000000100010001804005000000000100000002000000 = ok\n. put 05000040 00020205000000002000000004000000 = ok\n. put 05004008 0400 = ok\n. put 05004002 0300 = ok\n",
        "ok p=0 n=5",
    ),
    ("ev serve con 1", "", ""),
    (
        "reap con 1",
        ". get 05006002 2 = bytes 0200\n. get 05006004 8 = bytes 0000000000000000\n",
        "used 7 0 - p=0 n=2",
    ),
    (
        "reap con 1",
        ". get 05006002 2 = bytes 0200\n. get 0500600c 8 = bytes 0100000000000000\n",
        "used 8 0 - p=0 n=2",
    ),
    (
        "reap con 1",
        ". get 05006002 2 = bytes 0200\n",
        "none p=0 n=1",
    ),
    (
        "irq queues con",
        ". load 40002060 4 = 00000003\n. store 40002064 4 00000001 = ok\n",
        "irq some p=0 n=2",
    ),
    (
        "irq config con",
        ". load 40002060 4 = 00000002\n. store 40002064 4 00000002 = ok\n",
        "irq config p=0 n=2",
    ),
    (
        "irq config con",
        ". load 40002060 4 = 00000000\n",
        "irq none p=0 n=1",
    ),
    (
        "readcfg con cols @1:consize 100 40",
        ". load 400020fc 4 = 00000001\n* consize 100 40\n. load 40002100 2 = 0064\n. load 400020fc 4 = 00000002\n. load 400020fc 4 = 00000002\n. load 40002100 2 = 0064\n. load 400020fc 4 = 00000002\n",
        "value 6400 p=1 n=6",
    ),
    (
        "readcfg con rows",
        ". load 400020fc 4 = 00000002\n. load 40002102 2 = 0028\n. load 400020fc 4 = 00000002\n",
        "value 2800 p=0 n=3",
    ),
    (
        "readcfg con ports",
        ". load 400020fc 4 = 00000002\n. load 40002104 4 = 00000001\n. load 400020fc 4 = 00000002\n",
        "value 01000000 p=0 n=3",
    ),
    (
        "writecfg con emerg 33",
        ". store 40002108 4 00000021 = ok\n",
        "ok p=0 n=1",
    ),
    ("disarm con 1", ". put 05004000 0100 = ok\n", "ok p=0 n=1"),
    ("arm con 1", ". put 05004000 0000 = ok\n", "ok p=0 n=1"),
    (
        "post con 0 1 w:4",
        ". put 04000000 00004004000000000400000002000000 = ok\n. put 04004004 0000 = ok\n. put 04004002 0100 = ok\n",
        "ok p=0 n=3",
    ),
    (
        "notify con 0 @0:key 68 @1:key 69",
        "* key 68\n. store 40002050 4 00000000 = ok\n* key 69\n",
        "ok p=1 n=1",
    ),
    (
        "probe con @0:serve con 0 @9:key 6a",
        "* serve con 0\n* key 6a\n",
        "refused state p=0 n=0",
    ),
    (
        "reap con 0",
        ". get 04006002 2 = bytes 0100\n. get 04006004 8 = bytes 0000000002000000\n. get 04400000 2 = bytes 6869\n",
        "used 1 2 6869 p=0 n=3",
    ),
];

/// The end parts of the report of the session.
const END: &str = "frames 0\nconsole 686941424321\ndisk 2048\nend\n";

/// A traced script: its lines, its traces, and its report without the traces and with them.
#[derive(Drop)]
struct TracedScript {
    input: String,
    traces: String,
    report: String,
    traced_report: String,
}

/// The script of these lines, and this end of its report.
fn traced_script(
    alloc: Global,
    lines: &[Traced<'_>],
    end: &str,
) -> Result<TracedScript, AllocError> {
    let mut script = TracedScript {
        input: String::new(alloc),
        traces: String::new(alloc),
        report: String::new(alloc),
        traced_report: String::new(alloc),
    };
    let mut number = 0u32;
    for (line, trace, prints) in lines {
        number = number.saturating_add(1);
        script.input.push_str(line)?;
        script.input.push_str("\n")?;
        script.traces.push_str(trace)?;
        script.traced_report.push_str(trace)?;
        if !prints.is_empty() {
            write!(script.report, "{number} {prints}\n")?;
            write!(script.traced_report, "{number} {prints}\n")?;
        }
    }
    script.report.push_str(end)?;
    script.traced_report.push_str(end)?;
    Ok(script)
}

/// A call of a script: it writes this text, ends with this status, and shows these traces.
fn shows(
    rt: &impl Abort,
    alloc: Global,
    call: &Call<'_>,
    text: &str,
    status: u8,
    traces: &str,
) -> Result<(), AllocError> {
    let outcome = call.gives(rt, alloc, text, status)?;
    assert_eq!(rt; outcome.shown(), Some(traces));
    Ok(())
}

/// The traces of a session stand in its report where they are asked for, and are shown in either case. Where a watch can't
/// keep all that it is shown, it does not tell; the report is the same.
#[test]
fn a_session(rt: HostRuntime) -> Result<(), Fail> {
    let script = traced_script(rt.alloc(), SESSION, END)?;
    let (input, traces) = (script.input.as_str(), script.traces.as_str());
    let call = with_words(&["run", "mmio"], input);
    shows(&rt, rt.alloc(), &call, script.report.as_str(), 0, traces)?;
    let traced = script.traced_report.as_str();
    let call = with_words(&["run", "mmio", "trace"], input);
    shows(&rt, rt.alloc(), &call, traced, 0, traces)?;
    let mut lines = SESSION[..2].to_vec(rt.alloc())?;
    for _line in 0..300 {
        lines.push(SESSION[2])?;
    }
    let script = traced_script(rt.alloc(), &lines, "frames 0\nconsole -\ndisk 2048\nend\n")?;
    let call = with_words(&["run", "mmio", "trace"], script.input.as_str());
    let outcome = call.gives(&rt, rt.alloc(), script.traced_report.as_str(), 0)?;
    assert_eq!(rt; outcome.shown(), None);
    Ok(())
}

/// A run that ends early has shown the traces of the lines before its end: a source that fails, a sink that fails (a trace
/// is shown before what its line prints is sent), and a bad line.
#[test]
fn runs_that_end_early(rt: HostRuntime) -> Result<(), Fail> {
    let mut script = traced_script(rt.alloc(), &SESSION[..3], "")?;
    let (input, traces) = (script.input.as_str(), script.traces.as_str());
    let call = Call {
        source_fails: &[0, 1],
        ..with_words(&["run", "mmio", "trace"], input)
    };
    let traced = script.traced_report.as_str();
    shows(&rt, rt.alloc(), &call, traced, 4, traces)?;
    let call = Call {
        sink_fails: &[0, 0, 1],
        ..with_words(&["run", "mmio"], input)
    };
    let text = "1 id 3 p=0 n=4\n2 ok p=0 n=2\n";
    shows(&rt, rt.alloc(), &call, text, 5, traces)?;
    script.input.push_str("foo\nprobe con\n")?;
    script.report.push_str("fault 4\n")?;
    let call = with_words(&["run", "mmio"], script.input.as_str());
    let (report, traces) = (script.report.as_str(), script.traces.as_str());
    shows(&rt, rt.alloc(), &call, report, 3, traces)?;
    Ok(())
}

/// Whether a traced run to a sink that fails so has stopped with a front of its report written and one of its traces shown.
fn stops_in_front(
    alloc: Global,
    script: &TracedScript,
    sink_fails: &[u8],
) -> Result<bool, AllocError> {
    let call = Call {
        sink_fails,
        ..with_words(&["run", "mmio", "trace"], script.input.as_str())
    };
    let outcome = call.make(alloc)?;
    let shown = outcome.shown().unwrap_or("no text");
    let is_front = script.traced_report.as_str().starts_with(outcome.text())
        && script.traces.as_str().starts_with(shown);
    Ok(is_front && outcome.status == 5)
}

#[test]
fn traced_runs_to_failing_sinks(rt: HostRuntime) -> Result<(), Fail> {
    let script = traced_script(rt.alloc(), &SESSION[..5], "")?;
    let fails: &[u8] = &[0, 0, 0, 0, 0, 1];
    for call in 0..6 {
        assert!(rt; stops_in_front(rt.alloc(), &script, &fails[call..])?);
    }
    Ok(())
}
