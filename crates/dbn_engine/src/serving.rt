//! What serves the commands of a run.

ghost use Rattle.std.specs.Prelude.{◌≡◌, false, IfErr, OnOk, OnErr, IsTrue};
ghost use Rattle.std.specs.Io.KnownBytes.{Appends};
ghost use Rattle.dbn_model.specs.Content.{SameTold};
ghost use Rattle.dbn_keeper.specs.Keeping.{Keeps};
ghost use Rattle.dbn_engine.specs.Steps.{step};
ghost use Rattle.dbn_engine.specs.Serving.{EngineState, line_of, EitherSince, AllStandNow, IsAtRest, HasDiskCause, HasWriteCause, Stops};

use crate::fault::ServeFault;
use dbn_io::{Line, Sink};
use std::alloc::Global;

/// What serves the commands of a run, one after the other.
///
/// After an error it isn't live, and no call but `is_live` may be made; the folder is opened again by a new run.
pub trait Serve {
    /// All that it means at this moment.
    ghost state: { Self → EngineState };

    /// Whether no command ended with an error.
    fn is_live(&self) -> bool
        ensures { result ≡ (state self.now).live };

    /// Serves one line: what it records comes first, and then its reply is written as one piece.
    ///
    /// `Ok` writes the reply and leaves the next state of the run. After an error a front of the reply was written. During the
    /// call each image stands for the situation before the command or after it; from `Ok` on, and wherever the reply was
    /// written whole or writing failed, for the one after it. `Write` comes only where the sink's count of faults rose, `Disk`
    /// only where one of the keeper's did.
    fn serve_one<S: Sink>(
        &mut self,
        alloc: Global,
        line: &Line,
        out: &mut S,
    ) -> Result<(), ServeFault>
        requires live { IsTrue (state self.old).live }
        requires some { line.now ≡ Line.End → ⊥ }
        ensures text { OnOk result (Appends (S.taken out.old) (S.taken out.new) (step (state self.old).terms (state self.old).run (line_of line.now)).reply) }
        ensures next { OnOk result ((state self.new).run ≡ (step (state self.old).terms (state self.old).run (line_of line.now)).next) }
        ensures live { OnOk result (IsTrue (state self.new).live) }
        ensures dead { OnErr result ((state self.new).live ≡ false) }
        ensures now { OnOk result (AllStandNow (state self.old).keeper (state self.new).keeper (step (state self.old).terms (state self.old).run (line_of line.now)).next.now) }
        ensures stops { IfErr result (λ why. Stops why (state self.old) (state self.new) (line_of line.now) (S.taken out.old) (S.taken out.new)) }
        ensures since { EitherSince (state self.old).keeper (state self.new).keeper (state self.old).run.now (step (state self.old).terms (state self.old).run (line_of line.now)).next.now }
        ensures terms { (state self.new).terms ≡ (state self.old).terms }
        ensures keeps { Keeps (state self.old).keeper (state self.new).keeper }
        ensures told { SameTold (S.taken out.old) (S.taken out.new) }
        ensures disk_cause { HasDiskCause (state self.old).keeper.faults (state self.new).keeper.faults result }
        ensures write_cause { HasWriteCause (S.faults out.old) (S.faults out.new) result };

    /// Each image of a live one stands for the situation of its run.
    ghost at_rest: { (e : Self) → IsTrue (state e).live → IsAtRest (state e) };
}
