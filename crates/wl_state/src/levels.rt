//! Levels and turns, as they are opened and noted.
ghost use Rattle.std.specs.Prelude.{◌≡◌, ◌<◌, ◌+◌};
ghost use Rattle.wl_state.specs.Logs.{counted, deepened};

use crate::evaluator::Evaluator;

impl Evaluator {
    /// Notes that an evaluation has come to this turn.
    pub fn note_turn(&mut self, count: u32)
        ensures { self.new ≡ record self.old { log = counted count self.old.log } }
    {
        let Some(log) = &mut self.log else {
            return;
        };
        log.turns = log.turns.max(count);
    }

    /// Opens a level of depth, and notes it.
    pub fn open(&mut self)
        requires { self.old.depth < self.old.recursion }
        ensures { self.new ≡ record self.old { depth = self.old.depth + 1; log = deepened (self.old.depth + 1) self.old.log } }
    {
        let depth = self.depth + 1;
        self.depth = depth;
        let Some(log) = &mut self.log else {
            return;
        };
        log.deepest = log.deepest.max(depth);
    }
}
