//! What a run notes of a vCPU at its turn. No call here takes memory.
ghost use Rattle.std.specs.Prelude.{◌≡◌, ◌<◌, [], ◌∷◌, ◌++◌, length};

use crate::run_state::{RunState, Sample};

impl RunState {
    /// Notes how many instructions a vCPU had run at its turn, for the order that comes next.
    #[tactic(auto, using(crate::proofs::Answering::samples_at))]
    pub fn note(&mut self, sample: Sample)
        requires order { self.old.state.place < length self.old.state.script }
        requires few { length self.old.state.samples < 16 }
        ensures { self.new ≡ record self.old { state = record self.old.state { samples = self.old.state.samples ++ sample ∷ [] } } }
    {
        let answer = self.orders.at_mut(self.place as usize);
        answer.samples.push(sample);
    }
}
