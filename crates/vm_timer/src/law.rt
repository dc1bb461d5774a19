ghost use Rattle.std.specs.Prelude.{ℕ, List};
ghost use Rattle.std.specs.List.{AllPairs};
ghost use Rattle.std.specs.Prelude.{◌≢◌};
ghost use Rattle.vm_timer.specs.Timers.{AreFired};

/// A vCPU's timer fires at most once in a tick.
pub fn each_fires_once()
    ensures { (timers : List ℕ) (n : ℕ) (cpus : List ℕ) → AreFired timers n cpus → AllPairs (λ a b. a ≢ b) cpus }
{}
