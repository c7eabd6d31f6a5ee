// Runs of a session's calls: the laws of every run, and worked runs.
#![tactic(auto)]

ghost use Rattle.runs.specs.Runs.{EveryRun};
ghost use Rattle.runs.specs.Sizes.{EverySize};
ghost use Rattle.runs.specs.Example.{Example, LawAtWork, Refusals};

/// The law of every run, and how long the lists of a session are.
pub fn every_run() -> u8
    ensures law { EveryRun }
    ensures sizes { EverySize }
{
    0
}

/// Worked runs: one from beginning to end, each refusal once, and the law of every run with its premises met.
pub fn worked_runs() -> u8
    ensures example { Example }
    ensures refusals { Refusals }
    ensures law { LawAtWork }
{
    0
}
