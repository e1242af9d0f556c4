//! Laws of canonical texts, as contracts of functions that do nothing.

ghost use Rattle.std.specs.Prelude.{◌≡◌, ◌≤◌, ◌↔◌, List, length};
ghost use Rattle.dbn_sexp.specs.Printing.{HasAtoms};
ghost use Rattle.dbn_net.specs.declared.decl.Decl.{Decl};
ghost use Rattle.dbn_net.specs.declared.snapshot.Snapshot.{Snapshot};
ghost use Rattle.dbn_net.specs.Tables.{relations, places};
ghost use Rattle.dbn_net.specs.WellFormed.{WellFormed};
ghost use Rattle.dbn_net.specs.Good.{Good};
ghost use Rattle.dbn_net.specs.Texts.{canonical_list, canonical};

/// Two good states of a net, whose names and values are in form, have the same text exactly where they have the same facts
/// and the same tokens.
pub fn same_text_same_state()
    ensures { (net : List Decl) (s t : Snapshot) → WellFormed net → Good net s → Good net t
        → HasAtoms (canonical_list net s.instance s.marking) → HasAtoms (canonical_list net t.instance t.marking)
        → (canonical net s.instance s.marking ≡ canonical net t.instance t.marking) ↔ ((s.instance ≡ t.instance) × (s.marking ≡ t.marking)) }
{}

/// A good state has no more relations and places than its net, so its text can be written.
pub fn good_states_can_be_written()
    ensures relations { (net : List Decl) (s : Snapshot) → Good net s → length s.instance ≤ length (relations net) }
    ensures places { (net : List Decl) (s : Snapshot) → Good net s → length s.marking ≤ length (places net) }
{}
