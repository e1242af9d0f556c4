//! A law of commands, as the contract of a function that does nothing.

ghost use Rattle.std.specs.Prelude.{◌≡◌, Bool, List, Ok};
ghost use Rattle.dbn_net.specs.declared.decl.Decl.{Decl};
ghost use Rattle.dbn_net.specs.WellFormed.{WellFormed};
ghost use Rattle.dbn_command.specs.declared.command.Command.{Command as OneCommand};
ghost use Rattle.dbn_command.specs.Lines.{asked};
ghost use Rattle.dbn_command.specs.Canonical.{line_of, IsCommand};

/// The canonical line of each command of a net is read again as this command.
pub fn canonical_lines_are_read_again()
    ensures { (net : List Decl) (folder : Bool) (command : OneCommand) → WellFormed net → IsCommand net folder command
        → asked net folder (line_of net command) ≡ Ok command }
{}
