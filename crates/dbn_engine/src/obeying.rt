//! Lines as commands, and commands obeyed.

ghost use Rattle.std.specs.Prelude.{◌≡◌, ◌≤◌, ◌^◌, true, is_some, IfOk, IsErrOf};
ghost use Rattle.dbn_io.specs.declared.lines.Line.TheVariants.{End};
ghost use Rattle.dbn_model.specs.Lines.Line.{Text};
ghost use Rattle.dbn_keeper.specs.Keeping.{Keeps};
ghost use Rattle.dbn_store.specs.States.{situation, run_state};
ghost use Rattle.dbn_engine.specs.Asked.{IsOf};
ghost use Rattle.dbn_engine.specs.Steps.{command_answer, line_answer};
ghost use Rattle.dbn_engine.specs.Serving.{Joined, StaysSteady, HasDiskCause, line_of};
ghost use Rattle.dbn_engine.specs.Obeying.{IsSound, Obeyed, Changes, terms_of};

use crate::answered::Answered;
use crate::fault::ServeFault;
use crate::keeping::checkpoint;
use crate::laws::lines_ask_for_what_the_net_has;
use crate::questions::{bindings, facts, marking};
use crate::recording::{fire, group};
use crate::run_terms::RunTerms;
use dbn_command::{Command, LineFault, Reply, read_line};
use dbn_core::Core;
use dbn_io::Line;
use dbn_keeper::Keeper;
use std::alloc::Global;

/// Obeys a command of the net.
fn obey<C: Core, K: Keeper>(
    alloc: Global,
    core: &mut C,
    keeper: &mut K,
    terms: &RunTerms,
    command: Command,
) -> Result<Answered, ServeFault>
    requires joined { Joined (C.live core.old) (situation (C.rules core.old) (C.state core.old)) (K.state keeper.old) }
    requires sound { IsSound (situation (C.rules core.old) (C.state core.old)) }
    requires bound { terms.now.net_bytes ≤ 2 ^ 31 }
    requires of_net { IsOf (C.rules core.old) command }
    ensures done { IfOk result (λ made. Obeyed (command_answer (terms_of terms.now) (run_state (situation (C.rules core.old) (C.state core.old)) (K.state keeper.old)) command) (C.live core.new) (situation (C.rules core.new) (C.state core.new)) (K.state keeper.new) made) }
    ensures changes { Changes (command_answer (terms_of terms.now) (run_state (situation (C.rules core.old) (C.state core.old)) (K.state keeper.old)) command) (situation (C.rules core.old) (C.state core.old)) (K.state keeper.old) (K.state keeper.new) }
    ensures net { C.rules core.new ≡ C.rules core.old }
    ensures steady { IfOk result (λ made. made.recorded ≡ true → StaysSteady (K.state keeper.old) (K.state keeper.new)) }
    ensures keeps { Keeps (K.state keeper.old) (K.state keeper.new) }
    ensures cause { HasDiskCause (K.state keeper.old).faults (K.state keeper.new).faults result }
    ensures write { IsErrOf result ServeFault.Write → ⊥ }
{
    match command {
        Command::Blank => Ok(Answered::silent()),
        Command::Bindings(t) => {
            let reply = bindings(alloc, core, t)?;
            Ok(Answered::said(reply))
        }
        Command::Fire(t, row) => fire(alloc, core, keeper, t, &row),
        Command::Group(members) => group(alloc, core, keeper, &members),
        Command::Marking(place) => {
            let reply = marking(alloc, core, place)?;
            Ok(Answered::said(reply))
        }
        Command::Facts(rel) => {
            let reply = facts(alloc, core, rel)?;
            Ok(Answered::said(reply))
        }
        Command::Checkpoint => checkpoint(alloc, core, keeper, terms.net_bytes),
    }
}

/// Obeys what the bytes ask for.
fn obey_bytes<C: Core, K: Keeper>(
    alloc: Global,
    core: &mut C,
    keeper: &mut K,
    terms: &RunTerms,
    bytes: &[u8],
) -> Result<Answered, ServeFault>
    requires joined { Joined (C.live core.old) (situation (C.rules core.old) (C.state core.old)) (K.state keeper.old) }
    requires sound { IsSound (situation (C.rules core.old) (C.state core.old)) }
    requires bound { terms.now.net_bytes ≤ 2 ^ 31 }
    requires folder { terms.now.folder ≡ is_some (K.state keeper.old).cap }
    ensures done { IfOk result (λ made. Obeyed (line_answer (terms_of terms.now) (run_state (situation (C.rules core.old) (C.state core.old)) (K.state keeper.old)) (Text bytes.now)) (C.live core.new) (situation (C.rules core.new) (C.state core.new)) (K.state keeper.new) made) }
    ensures changes { Changes (line_answer (terms_of terms.now) (run_state (situation (C.rules core.old) (C.state core.old)) (K.state keeper.old)) (Text bytes.now)) (situation (C.rules core.old) (C.state core.old)) (K.state keeper.old) (K.state keeper.new) }
    ensures net { C.rules core.new ≡ C.rules core.old }
    ensures steady { IfOk result (λ made. made.recorded ≡ true → StaysSteady (K.state keeper.old) (K.state keeper.new)) }
    ensures keeps { Keeps (K.state keeper.old) (K.state keeper.new) }
    ensures cause { HasDiskCause (K.state keeper.old).faults (K.state keeper.new).faults result }
    ensures write { IsErrOf result ServeFault.Write → ⊥ }
{
    lines_ask_for_what_the_net_has();
    match read_line(alloc, bytes, core.net(), terms.folder) {
        Ok(command) => obey(alloc, core, keeper, terms, command),
        Err(LineFault::Line) => Ok(Answered::said(Reply::Line)),
        Err(LineFault::Unknown(name)) => Ok(Answered::said(Reply::Unknown(name))),
        Err(LineFault::Shape) => Ok(Answered::said(Reply::Shape)),
        Err(LineFault::Memory) => Err(ServeFault::Memory),
    }
}

/// Obeys a line. What it records comes before its reply is written.
pub(crate) fn obey_line<C: Core, K: Keeper>(
    alloc: Global,
    core: &mut C,
    keeper: &mut K,
    terms: &RunTerms,
    line: &Line,
) -> Result<Answered, ServeFault>
    requires joined { Joined (C.live core.old) (situation (C.rules core.old) (C.state core.old)) (K.state keeper.old) }
    requires sound { IsSound (situation (C.rules core.old) (C.state core.old)) }
    requires bound { terms.now.net_bytes ≤ 2 ^ 31 }
    requires folder { terms.now.folder ≡ is_some (K.state keeper.old).cap }
    requires some { line.now ≡ End → ⊥ }
    ensures done { IfOk result (λ made. Obeyed (line_answer (terms_of terms.now) (run_state (situation (C.rules core.old) (C.state core.old)) (K.state keeper.old)) (line_of line.now)) (C.live core.new) (situation (C.rules core.new) (C.state core.new)) (K.state keeper.new) made) }
    ensures changes { Changes (line_answer (terms_of terms.now) (run_state (situation (C.rules core.old) (C.state core.old)) (K.state keeper.old)) (line_of line.now)) (situation (C.rules core.old) (C.state core.old)) (K.state keeper.old) (K.state keeper.new) }
    ensures net { C.rules core.new ≡ C.rules core.old }
    ensures steady { IfOk result (λ made. made.recorded ≡ true → StaysSteady (K.state keeper.old) (K.state keeper.new)) }
    ensures keeps { Keeps (K.state keeper.old) (K.state keeper.new) }
    ensures cause { HasDiskCause (K.state keeper.old).faults (K.state keeper.new).faults result }
    ensures write { IsErrOf result ServeFault.Write → ⊥ }
{
    match line {
        Line::Bytes(bytes) => obey_bytes(alloc, core, keeper, terms, bytes.as_slice()),
        Line::Long => Ok(Answered::said(Reply::Long)),
        Line::End => Ok(Answered::silent()),
    }
}
