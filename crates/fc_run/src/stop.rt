// Why a run stopped before its end.
ghost use Rattle.std.specs.Prelude.{◌≡◌};
ghost use Rattle.fc_run.specs.Ending.{status_after};
ghost use Rattle.fc_run.specs.declared.stop.Stop.TheVariants.{OutOfMemory};

use crate::Status;
use fc_base::WantMemory;

/// Why a run stopped before all was written: memory ran out, or the sink failed.
#[derive(Clone, Copy, Debug, PartialEq, Eq)]
pub(crate) enum Stop {
    OutOfMemory,
    SinkFailed,
}

impl From<WantMemory> for Stop {
    ghost from_gives = { λ _ stop. stop ≡ OutOfMemory };

    fn from(_: WantMemory) -> Self {
        Stop::OutOfMemory
    }
}

/// The status of a run that wrote all, or stopped; `whole` is that of one that wrote all.
pub(crate) fn status_of(ended: Result<(), Stop>, whole: Status) -> Status
    ensures { result ≡ status_after ended whole }
{
    match ended {
        Ok(()) => whole,
        Err(Stop::OutOfMemory) => Status::Memory,
        Err(Stop::SinkFailed) => Status::Write,
    }
}
