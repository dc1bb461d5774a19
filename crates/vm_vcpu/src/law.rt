//! What holds of every runner.
ghost use Rattle.vm_vcpu.specs.Ahead.{RunsAhead};
ghost use Rattle.vm_vcpu.specs.New.{NewRunnersFit};
ghost use Rattle.vm_vcpu.specs.Others.{OthersKeepRunners};

/// A new runner fits the run at its start.
pub fn new_runners_fit()
    ensures { NewRunnersFit }
{}

/// A runner that fits the run still fits it after an entry of another pass.
pub fn others_keep_runners()
    ensures { OthersKeepRunners }
{}

/// What a runner ran ahead, after its turn and its work outside, is what the rounds of one thread say.
pub fn runners_run_ahead()
    ensures { RunsAhead }
{}
