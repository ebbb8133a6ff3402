//! Two runs agree.
ghost use Rattle.sysu.specs.TwoRuns.{TwoRunsAgree};

/// Two runs on equal words but for the number of workers, over shelves that tell equal files and sinks
/// that tell their bytes, append equal bytes and answer equal statuses, where no count of faults rises
/// and neither ends for want of memory.
pub fn two_runs_agree()
    ensures { TwoRunsAgree }
{}
