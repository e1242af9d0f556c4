//! Serving all commands over a core and a keeper.

ghost use Rattle.std.specs.Prelude.{◌≡◌, ◌≤◌, ◌^◌, List, ℕ, Some, true, is_some, IsTrue};
ghost use Rattle.std.specs.Io.KnownBytes.{IsAtEnd};
ghost use Rattle.dbn_model.specs.Content.{SameTold};
ghost use Rattle.dbn_keeper.specs.Files.{Folder};
ghost use Rattle.dbn_keeper.specs.Keeping.{Keeps};
ghost use Rattle.dbn_store.specs.States.{situation, run_state};
ghost use Rattle.dbn_engine.specs.AllLines.{Serves, Takes, HasCountOf, HasCountsOf, is_between};
ghost use Rattle.dbn_engine.specs.Obeying.{terms_of};
ghost use Rattle.dbn_engine.specs.Serving.{Joined, engine_state};
ghost use Rattle.dbn_top.specs.Starts.{found_in};
ghost use Rattle.dbn_top.specs.Starts.Found.{Runs};

use dbn_core::Core;
use dbn_engine::{Engine, RunEnd, RunTerms, serve_lines};
use dbn_io::{Sink, Source};
use dbn_keeper::Keeper;
use std::alloc::Global;

/// How a run ended, with its core and its keeper as they stand.
#[derive(Drop)]
pub(crate) struct Served<C: Core + Drop, K: Keeper + Drop> {
    pub(crate) end: RunEnd,
    pub(crate) core: C,
    pub(crate) keeper: K,
}

/// Serves all commands over a core and a keeper that stand for one snapshot, of which at most `most` bytes are taken.
#[tactic(auto, using(crate::proofs::Runs::any_live))]
pub(crate) fn serve<C: Core + Drop, K: Keeper + Drop, S: Source, O: Sink>(
    alloc: Global,
    core: C,
    keeper: K,
    terms: RunTerms,
    commands: &mut S,
    out: &mut O,
    most: u64,
) -> Served<C, K>
    requires bound { terms.net_bytes ≤ 2 ^ 31 }
    requires folder { terms.folder ≡ is_some (K.state keeper).cap }
    requires joined { Joined (C.live core) (situation (C.rules core) (C.state core)) (K.state keeper) }
    ensures serves { (all : List ℕ) → S.left commands.old ≡ Some all
        → Serves result.end most all (engine_state true (terms_of terms) (situation (C.rules core) (C.state core)) (K.state keeper))
        (engine_state true (terms_of terms) (situation (C.rules result.core) (C.state result.core)) (K.state result.keeper)) (S.left commands.old) (S.left commands.new) (O.taken out.old) (O.taken out.new) }
    ensures joined { is_between result.end ≡ true → Joined (C.live result.core) (situation (C.rules result.core) (C.state result.core)) (K.state result.keeper) }
    ensures begins { is_between result.end ≡ true → (f : Folder) (cap : ℕ) → (K.state result.keeper).held ≡ Some f → (K.state result.keeper).cap ≡ Some cap
        → found_in cap f ≡ Runs (run_state (situation (C.rules result.core) (C.state result.core)) (K.state result.keeper)) }
    ensures takes { Takes result.end most (S.left commands.old) (S.left commands.new) }
    ensures end { result.end ≡ RunEnd.Done → IsAtEnd (S.left commands.new) }
    ensures keeps { Keeps (K.state keeper) (K.state result.keeper) }
    ensures told { SameTold (S.left commands.old) (S.left commands.new) × SameTold (O.taken out.old) (O.taken out.new) }
    ensures source_count { HasCountOf RunEnd.ReadFault result.end (S.faults commands.old) (S.faults commands.new) }
    ensures sink_count { HasCountOf RunEnd.WriteFault result.end (O.faults out.old) (O.faults out.new) }
    ensures disk_counts { HasCountsOf result.end (K.state keeper).faults (K.state result.keeper).faults }
{
    let mut engine = Engine::new(core, keeper, terms);
    let end = serve_lines(alloc, &mut engine, commands, out, most);
    let (core, keeper) = engine.into_parts();
    Served { end, core, keeper }
}
