//! Laws of the definitions, for whoever stands on them.

ghost use Rattle.std.specs.Prelude.{◌≡◌, ◌&&◌, ◌||◌, not, List};
ghost use Rattle.dbn_instance.specs.declared.fact.Fact.{Fact};
ghost use Rattle.dbn_instance.specs.Facts.{Relations, AreInRange, IsInstance, has_fact, is_among, after_action};

use dbn_value::Cell;

/// What an action makes of an instance, fact by fact: after it a fact is there that is added, or that was there and is not
/// deleted.
pub fn facts_after_an_action<C: Cell>()
    ensures { (deletes adds : List (Fact C)) (db : Relations C) (f : Fact C) → IsInstance C.cmp db → AreInRange db deletes → AreInRange db adds → has_fact C.cmp (after_action C.cmp deletes adds db) f ≡ (is_among C.cmp adds f || (not (is_among C.cmp deletes f) && has_fact C.cmp db f)) }
{}
