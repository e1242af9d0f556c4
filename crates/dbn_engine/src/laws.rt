//! Laws of runs, as contracts of functions that do nothing.

ghost use Rattle.std.specs.Prelude.{◌≡◌, ℕ, Bool, List, Ok};
ghost use Rattle.dbn_model.specs.Runs.{IsSilentWhereBlank};
ghost use Rattle.dbn_net.specs.declared.decl.Decl.{Decl};
ghost use Rattle.dbn_command.specs.declared.command.Command.{Command};
ghost use Rattle.dbn_command.specs.Lines.{asked};
ghost use Rattle.dbn_engine.specs.Asked.{IsOf};
ghost use Rattle.dbn_engine.specs.Steps.{Terms, step};

/// A line without a reply changes nothing.
pub fn lines_without_a_reply_change_nothing()
    ensures { (terms : Terms) → IsSilentWhereBlank (step terms) }
{}

/// What a line asks for is of the net: its numbers are in range, and its rows have the types of their transitions.
pub fn lines_ask_for_what_the_net_has()
    ensures { (net : List Decl) (folder : Bool) (line : List ℕ) (command : Command) → asked net folder line ≡ Ok command → IsOf net command }
{}
