//! Laws of stores, as contracts of functions that do nothing.

ghost use Rattle.std.specs.Prelude.{◌≡◌, ℕ, List, Some, Ok};
ghost use Rattle.dbn_value.specs.declared.member.Member.{Member};
ghost use Rattle.dbn_net.specs.declared.decl.Decl.{Decl};
ghost use Rattle.dbn_net.specs.declared.snapshot.Snapshot.{Snapshot};
ghost use Rattle.dbn_net.specs.Tables.{shapes};
ghost use Rattle.dbn_net.specs.Texts.{ReadsAgain};
ghost use Rattle.dbn_keeper.specs.Files.{Store, new_store, with_body};
ghost use Rattle.dbn_keeper.specs.Files.Folder.{Holds};
ghost use Rattle.dbn_keeper.specs.declared.base.Base.{Base};
ghost use Rattle.dbn_core.specs.declared.outcome.Fired.{Fired};
ghost use Rattle.dbn_core.specs.Group.{group};
ghost use Rattle.dbn_store.specs.States.{Situation, situation};
ghost use Rattle.dbn_store.specs.Folders.{members_in, opened};
ghost use Rattle.dbn_store.specs.Folders.Opened.{Stands};

/// A store with one body more, whose group fires, stands for the snapshot after that group.
pub fn one_more_body_is_one_more_group()
    ensures { (store : Store) (s : Situation) (body : List ℕ) (members : List Member) (all : List Fired) (after : Snapshot) → opened (Holds store) ≡ Stands s
        → members_in store.form (shapes s.net) body ≡ Some members → group s.net s.snapshot members ≡ Ok (all, after)
        → opened (Holds (with_body body store)) ≡ Stands (situation s.net after) }
{}

/// A new store whose base has a text of a net and a state, with the two numbers of that state, stands for them.
pub fn a_new_base_stands_for_its_state()
    ensures { (generation : ℕ) (base : Base) (net : List Decl) (s : Snapshot) → ReadsAgain base.text net s.instance s.marking s.next → base.next ≡ s.next → base.fired ≡ s.fired
        → opened (Holds (new_store generation base)) ≡ Stands (situation net s) }
{}
