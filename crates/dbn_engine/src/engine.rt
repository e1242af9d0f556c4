//! The engine over a core and a keeper.

ghost use Rattle.std.specs.Prelude.{◌≡◌, ◌≤◌, ◌^◌, true, is_some, IfErr, OnOk, IsTrue};
ghost use Rattle.std.specs.Coded.{codes};
ghost use Rattle.std.specs.Io.KnownBytes.{Appends};
ghost use Rattle.std.proofs.Props.{props};
ghost use Rattle.dbn_io.specs.declared.lines.Line.TheVariants.{End};
ghost use Rattle.dbn_model.specs.Content.{SameTold};
ghost use Rattle.dbn_keeper.specs.Keeping.{Keeps};
ghost use Rattle.dbn_store.specs.States.{situation, run_state};
ghost use Rattle.dbn_engine.specs.Steps.{step};
ghost use Rattle.dbn_engine.specs.Serving.{Joined, EitherSince, AllStandNow, HasDiskCause, HasWriteCause, Stops, engine_state, line_of};
ghost use Rattle.dbn_engine.specs.Obeying.{terms_of};
ghost use Rattle.dbn_engine.specs.Resting.{coded_opened};
ghost use Rattle.dbn_formula.specs.contracts.formula.Formula as formula;

use crate::fault::ServeFault;
use crate::keeping::tend;
use crate::obeying::obey_line;
use crate::run_terms::RunTerms;
use crate::saying::say;
use crate::serving::Serve;
use dbn_core::Core;
use dbn_io::{Line, Sink};
use dbn_keeper::Keeper;
use std::alloc::Global;

/// Serves one line over a core and a keeper that stand for one state.
fn serve<C: Core, K: Keeper, S: Sink>(
    alloc: Global,
    core: &mut C,
    keeper: &mut K,
    terms: &RunTerms,
    line: &Line,
    out: &mut S,
) -> Result<(), ServeFault>
    requires joined { Joined (C.live core.old) (situation (C.rules core.old) (C.state core.old)) (K.state keeper.old) }
    requires bound { terms.now.net_bytes ≤ 2 ^ 31 }
    requires folder { terms.now.folder ≡ is_some (K.state keeper.old).cap }
    requires some { line.now ≡ End → ⊥ }
    ensures text { OnOk result (Appends (S.taken out.old) (S.taken out.new) (step (terms_of terms.now) (run_state (situation (C.rules core.old) (C.state core.old)) (K.state keeper.old)) (line_of line.now)).reply) }
    ensures next { OnOk result (run_state (situation (C.rules core.new) (C.state core.new)) (K.state keeper.new) ≡ (step (terms_of terms.now) (run_state (situation (C.rules core.old) (C.state core.old)) (K.state keeper.old)) (line_of line.now)).next) }
    ensures joined { OnOk result (Joined (C.live core.new) (situation (C.rules core.new) (C.state core.new)) (K.state keeper.new)) }
    ensures now { OnOk result (AllStandNow (K.state keeper.old) (K.state keeper.new) (step (terms_of terms.now) (run_state (situation (C.rules core.old) (C.state core.old)) (K.state keeper.old)) (line_of line.now)).next.now) }
    ensures stops { IfErr result (λ why. Stops why (engine_state true (terms_of terms.now) (situation (C.rules core.old) (C.state core.old)) (K.state keeper.old)) (engine_state true (terms_of terms.now) (situation (C.rules core.new) (C.state core.new)) (K.state keeper.new)) (line_of line.now) (S.taken out.old) (S.taken out.new)) }
    ensures since { EitherSince (K.state keeper.old) (K.state keeper.new) (situation (C.rules core.old) (C.state core.old)) (step (terms_of terms.now) (run_state (situation (C.rules core.old) (C.state core.old)) (K.state keeper.old)) (line_of line.now)).next.now }
    ensures keeps { Keeps (K.state keeper.old) (K.state keeper.new) }
    ensures told { SameTold (S.taken out.old) (S.taken out.new) }
    ensures disk_cause { HasDiskCause (K.state keeper.old).faults (K.state keeper.new).faults result }
    ensures write_cause { HasWriteCause (S.faults out.old) (S.faults out.new) result }
{
    // The snapshot of a live core is good.
    let _live = core.is_live();
    let made = match obey_line(alloc, core, keeper, terms, line) {
        Ok(made) => made,
        Err(why) => return Err(why),
    };
    let recorded = made.recorded;
    match say(alloc, core.net(), made.reply, out) {
        Ok(()) => {
            if !recorded {
                return Ok(());
            }
            let _good = core.is_live();
            match tend(alloc, core, keeper, terms) {
                Ok(()) => Ok(()),
                Err(why) => Err(why),
            }
        }
        Err(why) => Err(why),
    }
}

/// Serves the commands of a run over a core and a keeper.
#[derive(Drop)]
pub struct Engine<C: Core + Drop, K: Keeper + Drop> {
    core: C,
    keeper: K,
    terms: RunTerms,
    live: bool,
    ghost bound: { terms.net_bytes ≤ 2 ^ 31 },
    ghost folder: { terms.folder ≡ is_some (K.state keeper).cap },
    ghost joined: { IsTrue live → Joined (C.live core) (situation (C.rules core) (C.state core)) (K.state keeper) } by { Prim.hlevel (props, codes, coded_opened (Prim.hlevel (codes, formula.the_row.coded))) },
}

impl<C: Core + Drop, K: Keeper + Drop> Engine<C, K> {
    /// A live engine over a core and a keeper that stand for one net and one snapshot.
    pub fn new(core: C, keeper: K, terms: RunTerms) -> Engine<C, K>
        requires bound { terms.net_bytes ≤ 2 ^ 31 }
        requires folder { terms.folder ≡ is_some (K.state keeper).cap }
        requires joined { Joined (C.live core) (situation (C.rules core) (C.state core)) (K.state keeper) }
        ensures core { result.core ≡ core }
        ensures keeper { result.keeper ≡ keeper }
        ensures terms { result.terms ≡ terms }
        ensures live { result.live ≡ true }
    {
        Engine {
            core,
            keeper,
            terms,
            live: true,
        }
    }

    /// The core.
    pub fn core(&self) -> &C
        ensures { result.now ≡ self.now.core }
    {
        &self.core
    }

    /// The core and the keeper. Those of a live engine stand for one net and one snapshot.
    pub fn into_parts(self) -> (C, K)
        ensures core { result.0 ≡ self.core }
        ensures keeper { result.1 ≡ self.keeper }
        ensures joined { IsTrue self.live → Joined (C.live result.0) (situation (C.rules result.0) (C.state result.0)) (K.state result.1) }
    {
        (self.core, self.keeper)
    }
}

impl<C: Core + Drop, K: Keeper + Drop> Serve for Engine<C, K> {
    ghost use Rattle.dbn_store.specs.States.{situation};
    ghost use Rattle.dbn_engine.specs.Serving.{engine_state, at_rest};
    ghost use Rattle.dbn_engine.specs.Obeying.{terms_of};

    ghost state = { λ e. engine_state e.live (terms_of e.terms) (situation (C.rules e.core) (C.state e.core)) (K.state e.keeper) };

    ghost at_rest = { λ e live. at_rest e.live (C.live e.core) (terms_of e.terms) (situation (C.rules e.core) (C.state e.core)) (K.state e.keeper) (e.joined live) (K.settled e.keeper (e.joined live).keeper_live) };

    fn is_live(&self) -> bool {
        self.live
    }

    fn serve_one<S: Sink>(
        &mut self,
        alloc: Global,
        line: &Line,
        out: &mut S,
    ) -> Result<(), ServeFault> {
        self.live = false;
        match serve(
            alloc,
            &mut self.core,
            &mut self.keeper,
            &self.terms,
            line,
            out,
        ) {
            Ok(()) => {
                self.live = true;
                Ok(())
            }
            Err(why) => Err(why),
        }
    }
}
