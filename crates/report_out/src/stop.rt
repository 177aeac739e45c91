//! Why a run stops before its report is whole.

ghost use Rattle.std.specs.Prelude.{◌≡◌};
ghost use Rattle.report_out.specs.Status.{run_status, status_of_stop};

/// The source failed, the sink failed, or there was no memory.
#[derive(Clone, Copy, Debug, PartialEq, Eq)]
pub enum Stop {
    Read,
    Write,
    Memory,
}

impl Stop {
    /// The status of a run that stopped so.
    pub fn status(self) -> u8
        ensures { result ≡ status_of_stop self }
    {
        match self {
            Stop::Read => 4,
            Stop::Write => 5,
            Stop::Memory => 6,
        }
    }
}

/// The status of a run, whether it ended or stopped.
pub fn status_of(ran: Result<u8, Stop>) -> u8
    ensures { result ≡ run_status ran }
{
    match ran {
        Ok(status) => status,
        Err(stop) => stop.status(),
    }
}
