//! Checkpoints, asked for or due.

ghost use Rattle.std.specs.Prelude.{◌≡◌, ◌+◌, ◌≤◌, ◌^◌, ℕ, true, false, nat_le, length, IfOk, OnOk, MatchOption, IsErrOf, IsTrue};
ghost use Rattle.std.specs.Option.{option_map_or};
ghost use Rattle.dbn_keeper.specs.Files.{new_store};
ghost use Rattle.dbn_keeper.specs.Files.Folder.{Holds};
ghost use Rattle.dbn_keeper.specs.Keeping.{Keeps};
ghost use Rattle.dbn_store.specs.States.{situation, run_state};
ghost use Rattle.dbn_store.specs.Folders.{opened};
ghost use Rattle.dbn_store.specs.Folders.Opened.{Stands};
ghost use Rattle.dbn_engine.specs.Steps.{text_at, may_keep, kept, tended, checkpoint_answer};
ghost use Rattle.dbn_engine.specs.Serving.{Joined, Brings, StandsFor, StaysSteady, HasDiskCause};
ghost use Rattle.dbn_engine.specs.Obeying.{IsSound, Obeyed, Changes, fits_in, terms_of};

use crate::answered::Answered;
use crate::fault::ServeFault;
use crate::run_terms::RunTerms;
use dbn_command::Reply;
use dbn_core::Core;
use dbn_io::Bytes;
use dbn_keeper::{Base, Keeper};
use dbn_writer::{good_states_can_be_written, net_text};
use std::alloc::{AllocError, Global};

/// A base of the state of the core. An error is want of memory.
fn base_of<C: Core>(alloc: Global, core: &C) -> Result<Base, AllocError>
    requires live { IsTrue (C.live core.now) }
    requires sound { IsSound (situation (C.rules core.now) (C.state core.now)) }
    ensures text { IfOk result (λ base. base.text ≡ text_at (situation (C.rules core.now) (C.state core.now))) }
    ensures numbers { IfOk result (λ base. (base.fired ≤ 2 ^ 62) × (base.next ≤ 2 ^ 62)) }
    ensures stands { (generation : ℕ) → IfOk result (λ base. opened (Holds (new_store generation base)) ≡ Stands (situation (C.rules core.now) (C.state core.now))) }
{
    good_states_can_be_written();
    let at = core.snapshot(alloc)?;
    let text = net_text(alloc, core.net(), &at)?;
    Ok(Base {
        fired: at.fired,
        next: at.next,
        text: Bytes::from_vec(text.into_vec()),
    })
}

/// Whether a checkpoint with a text of `len` bytes may be made.
fn fits<K: Keeper>(keeper: &K, net_bytes: u64, len: usize) -> bool
    requires live { IsTrue (K.state keeper.now).live }
    requires last { (K.state keeper.now).last ≡ 2 ^ 62 }
    ensures { result ≡ fits_in net_bytes (K.state keeper.now) len }
{
    len as u64 <= net_bytes && keeper.fits(len)
}

/// Makes a checkpoint where it fits, and answers its generation.
fn keep<C: Core, K: Keeper>(
    alloc: Global,
    core: &C,
    keeper: &mut K,
    net_bytes: u64,
) -> Result<Option<u64>, ServeFault>
    requires joined { Joined (C.live core.now) (situation (C.rules core.now) (C.state core.now)) (K.state keeper.old) }
    requires sound { IsSound (situation (C.rules core.now) (C.state core.now)) }
    requires bound { net_bytes ≤ 2 ^ 31 }
    ensures made { IfOk result (λ found. MatchOption found (may_keep net_bytes (run_state (situation (C.rules core.now) (C.state core.now)) (K.state keeper.old)) ≡ false) (λ generation. (may_keep net_bytes (run_state (situation (C.rules core.now) (C.state core.now)) (K.state keeper.old)) ≡ true) × (generation ≡ (K.state keeper.old).generation + 1))) }
    ensures next { OnOk result (run_state (situation (C.rules core.now) (C.state core.now)) (K.state keeper.new) ≡ kept net_bytes (run_state (situation (C.rules core.now) (C.state core.now)) (K.state keeper.old))) }
    ensures joined { OnOk result (Joined (C.live core.now) (situation (C.rules core.now) (C.state core.now)) (K.state keeper.new)) }
    ensures brings { Brings (K.state keeper.old) (K.state keeper.new) (StandsFor (situation (C.rules core.now) (C.state core.now))) }
    ensures keeps { Keeps (K.state keeper.old) (K.state keeper.new) }
    ensures cause { HasDiskCause (K.state keeper.old).faults (K.state keeper.new).faults result }
    ensures write { IsErrOf result ServeFault.Write → ⊥ }
{
    let base = base_of(alloc, core)?;
    let len = base.text.as_slice().len();
    if !fits(keeper, net_bytes, len) {
        return Ok(None);
    }
    let generation = keeper.checkpoint(alloc, base)?;
    Ok(Some(generation))
}

/// `checkpoint`.
pub(crate) fn checkpoint<C: Core, K: Keeper>(
    alloc: Global,
    core: &C,
    keeper: &mut K,
    net_bytes: u64,
) -> Result<Answered, ServeFault>
    requires joined { Joined (C.live core.now) (situation (C.rules core.now) (C.state core.now)) (K.state keeper.old) }
    requires sound { IsSound (situation (C.rules core.now) (C.state core.now)) }
    requires bound { net_bytes ≤ 2 ^ 31 }
    ensures done { IfOk result (λ made. Obeyed (checkpoint_answer net_bytes (run_state (situation (C.rules core.now) (C.state core.now)) (K.state keeper.old))) (C.live core.now) (situation (C.rules core.now) (C.state core.now)) (K.state keeper.new) made) }
    ensures changes { Changes (checkpoint_answer net_bytes (run_state (situation (C.rules core.now) (C.state core.now)) (K.state keeper.old))) (situation (C.rules core.now) (C.state core.now)) (K.state keeper.old) (K.state keeper.new) }
    ensures steady { IfOk result (λ made. made.recorded ≡ true → StaysSteady (K.state keeper.old) (K.state keeper.new)) }
    ensures keeps { Keeps (K.state keeper.old) (K.state keeper.new) }
    ensures cause { HasDiskCause (K.state keeper.old).faults (K.state keeper.new).faults result }
    ensures write { IsErrOf result ServeFault.Write → ⊥ }
{
    match keep(alloc, core, keeper, net_bytes)? {
        Some(generation) => Ok(Answered::said(Reply::Checkpoint(generation))),
        None => Ok(Answered::said(Reply::StoreFull)),
    }
}

/// Whether the run asks for a checkpoint by itself.
fn is_due(every: Option<u64>, records: u64) -> bool
    ensures { result ≡ option_map_or (λ most. nat_le most records) every false }
{
    match every {
        Some(most) => most <= records,
        None => false,
    }
}

/// Behind a record: makes a checkpoint where the run asks for one and it fits. There is no reply.
pub(crate) fn tend<C: Core, K: Keeper>(
    alloc: Global,
    core: &C,
    keeper: &mut K,
    terms: &RunTerms,
) -> Result<(), ServeFault>
    requires joined { Joined (C.live core.now) (situation (C.rules core.now) (C.state core.now)) (K.state keeper.old) }
    requires sound { IsSound (situation (C.rules core.now) (C.state core.now)) }
    requires bound { terms.now.net_bytes ≤ 2 ^ 31 }
    ensures next { OnOk result (run_state (situation (C.rules core.now) (C.state core.now)) (K.state keeper.new) ≡ tended (terms_of terms.now) (run_state (situation (C.rules core.now) (C.state core.now)) (K.state keeper.old))) }
    ensures joined { OnOk result (Joined (C.live core.now) (situation (C.rules core.now) (C.state core.now)) (K.state keeper.new)) }
    ensures brings { Brings (K.state keeper.old) (K.state keeper.new) (StandsFor (situation (C.rules core.now) (C.state core.now))) }
    ensures keeps { Keeps (K.state keeper.old) (K.state keeper.new) }
    ensures cause { HasDiskCause (K.state keeper.old).faults (K.state keeper.new).faults result }
    ensures write { IsErrOf result ServeFault.Write → ⊥ }
{
    if !is_due(terms.every, keeper.records()) {
        return Ok(());
    }
    keep(alloc, core, keeper, terms.net_bytes)?;
    Ok(())
}
