//! Scripts as tables of their lines.

use crate::call::run;
use std::alloc::{AllocError, Global};
use std::process::Abort;

/// A line of a script, and what it prints behind its number; nothing where it has no line in the report.
pub(crate) type Line<'a> = (&'a str, &'a str);

/// VERSION_1 alone, as a script names accepted features.
pub(crate) const VERSION_1: &str = "0000000100000000";

/// VERSION_1 and INDIRECT_DESC.
pub(crate) const WITH_INDIRECT: &str = "0000000110000000";

/// VERSION_1 and EVENT_IDX.
pub(crate) const WITH_EVENT_IDX: &str = "0000000120000000";

/// The lines with which a script begins.
#[derive(Clone, Copy)]
pub(crate) enum Opening {
    /// None.
    Nothing,
    /// The six with which a driver of the console accepts features.
    Accepts(&'static str),
    /// The nine with which it brings the console up: it accepts features, and sets both queues with these sizes.
    BringsUp(&'static str, u16, u16),
}

/// The opening of most scripts.
pub(crate) const OPENED: Opening = Opening::BringsUp(VERSION_1, 8, 8);

/// A script: its opening, the lines behind it, and the bytes of the console at its end, in hexadecimal.
#[derive(Clone, Copy)]
pub(crate) struct Row {
    pub(crate) opening: Opening,
    pub(crate) lines: &'static [Line<'static>],
    pub(crate) console: &'static str,
}

/// A script under way: its lines, what they print, and how many there are.
#[derive(Drop)]
pub(crate) struct Script {
    pub(crate) input: String,
    pub(crate) report: String,
    count: u32,
}

impl Script {
    /// A script that begins so.
    pub(crate) fn new(alloc: Global, opening: Opening) -> Result<Script, AllocError> {
        let mut script = Script {
            input: String::new(alloc),
            report: String::new(alloc),
            count: 0,
        };
        script.open(alloc, opening)?;
        Ok(script)
    }

    /// Adds the lines of an opening.
    fn open(&mut self, alloc: Global, opening: Opening) -> Result<(), AllocError> {
        match opening {
            Opening::Nothing => Ok(()),
            Opening::Accepts(features) => self.accept(alloc, features),
            Opening::BringsUp(features, receive, transmit) => {
                self.accept(alloc, features)?;
                self.set_queue(alloc, 0, receive)?;
                self.set_queue(alloc, 1, transmit)?;
                self.line("status con drvok", "status 0f p=0 n=2")
            }
        }
    }

    /// Adds a line, and what it prints.
    pub(crate) fn line(&mut self, line: &str, prints: &str) -> Result<(), AllocError> {
        self.count = self.count.saturating_add(1);
        self.input.push_str(line)?;
        self.input.push_str("\n")?;
        if prints.is_empty() {
            return Ok(());
        }
        let number = self.count;
        write!(self.report, "{number} {prints}\n")
    }

    /// Adds lines, and what they print.
    pub(crate) fn lines(&mut self, lines: &[Line<'_>]) -> Result<(), AllocError> {
        for (line, prints) in lines {
            self.line(line, prints)?;
        }
        Ok(())
    }

    /// Adds the six lines with which features are accepted.
    fn accept(&mut self, alloc: Global, features: &str) -> Result<(), AllocError> {
        let accept = format!(in alloc; "accept con {features}")?;
        self.lines(&[
            ("probe con", "id 3 p=0 n=4"),
            ("reset con", "ok p=0 n=2"),
            ("status con ack", "status 01 p=0 n=2"),
            ("status con driver", "status 03 p=0 n=2"),
            (accept.as_str(), "ok p=0 n=4"),
            ("status con featok", "status 0b p=0 n=2"),
        ])
    }

    /// Adds the line that sets a queue.
    fn set_queue(&mut self, alloc: Global, queue: u16, size: u16) -> Result<(), AllocError> {
        let setq = format!(in alloc; "setq con {queue} {size}")?;
        self.line(setq.as_str(), "ok p=0 n=12")
    }

    /// Runs the script: it prints what it should, with these bytes of the console at its end.
    pub(crate) fn holds(
        mut self,
        rt: &impl Abort,
        alloc: Global,
        console: &str,
    ) -> Result<(), AllocError> {
        write!(self.report, "frames 0\nconsole {console}\ndisk 2048\nend\n")?;
        let call = run(self.input.as_str());
        let _outcome = call.gives(rt, alloc, self.report.as_str(), 0)?;
        Ok(())
    }
}

/// Runs the scripts of a table.
pub(crate) fn all_hold(rt: &impl Abort, alloc: Global, rows: &[Row]) -> Result<(), AllocError> {
    for row in rows {
        let mut script = Script::new(alloc, row.opening)?;
        script.lines(row.lines)?;
        script.holds(rt, alloc, row.console)?;
    }
    Ok(())
}
