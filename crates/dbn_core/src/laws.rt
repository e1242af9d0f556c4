//! Laws of firings and of groups, as contracts of functions that do nothing.

ghost use Rattle.std.specs.Prelude.{◌≡◌, ◌+◌, ℕ, List, [], ◌∷◌, map, Some, Ok, Err, slice_get};
ghost use Rattle.dbn_value.specs.declared.value.Value.{Value};
ghost use Rattle.dbn_value.specs.declared.member.Member.{Member};
ghost use Rattle.dbn_value.specs.Order.{value_type, row_cmp};
ghost use Rattle.dbn_formula.specs.Solutions.{HasShape};
ghost use Rattle.dbn_marking.specs.Counts.{count_at};
ghost use Rattle.dbn_net.specs.declared.decl.Decl.{Decl};
ghost use Rattle.dbn_net.specs.declared.rules.Transition.{Transition};
ghost use Rattle.dbn_net.specs.declared.snapshot.Snapshot.{Snapshot};
ghost use Rattle.dbn_net.specs.Tables.{transitions, shapes};
ghost use Rattle.dbn_net.specs.Wants.{bound_tokens};
ghost use Rattle.dbn_net.specs.Enabled.{bound_env, shape_at};
ghost use Rattle.dbn_net.specs.Good.{Good};
ghost use Rattle.dbn_net.specs.WellFormed.{WellFormed};
ghost use Rattle.dbn_core.specs.declared.outcome.Fired.{Fired};
ghost use Rattle.dbn_core.specs.declared.outcome.Outcome.TheVariants.{RolledBack};
ghost use Rattle.dbn_core.specs.declared.outcome.Refusal.{Refusal};
ghost use Rattle.dbn_core.specs.Moves.{Unnamed};
ghost use Rattle.dbn_core.specs.Fire.{fire_env, fire, fire_at};
ghost use Rattle.dbn_core.specs.Group.{IsMember, AreMembers, Refuses, group};

/// A firing of a good snapshot leaves a good one, and so does a group.
pub fn good_snapshots_stay_good()
    ensures firings { (net : List Decl) (s after : Snapshot) (n : ℕ) (row : List Value) (f : Fired) → WellFormed net → Good net s → HasShape row (shape_at net n)
        → fire_at net s n row ≡ Ok (f, after) → Good net after }
    ensures groups { (net : List Decl) (s after : Snapshot) (members : List Member) (all : List Fired) → WellFormed net → Good net s → AreMembers net members
        → group net s members ≡ Ok (all, after) → Good net after }
{}

/// A group of one member is a firing.
pub fn a_group_of_one_is_a_firing()
    ensures fired { (net : List Decl) (s after : Snapshot) (m : Member) (f : Fired) → fire_at net s m.t m.row ≡ Ok (f, after) → group net s (m ∷ []) ≡ Ok (f ∷ [], after) }
    ensures refused { (net : List Decl) (s : Snapshot) (m : Member) (why : Refusal) → fire_at net s m.t m.row ≡ Err why → group net s (m ∷ []) ≡ Err (0, why) }
{}

/// A group is refused by the first member that is refused after those before it.
pub fn a_refused_group_names_its_first_refused_member()
    ensures { (net : List Decl) (s : Snapshot) (members : List Member) (i : ℕ) (why : Refusal) → group net s members ≡ Err (i, why) → Refuses net s members i why }
{}

/// A firing that is rolled back keeps the facts.
pub fn rolled_back_firings_keep_the_facts()
    ensures { (net : List Decl) (s after : Snapshot) (n : ℕ) (row : List Value) (f : Fired) → fire_at net s n row ≡ Ok (f, after) → f.outcome ≡ RolledBack → after.instance ≡ s.instance }
{}

/// Each firing that is not refused draws its ids from the next one on and is counted, whether it is committed or rolled back.
pub fn firings_are_counted()
    ensures { (net : List Decl) (s after : Snapshot) (n : ℕ) (row : List Value) (f : Fired) → fire_at net s n row ≡ Ok (f, after)
        → (f.first ≡ s.next) × (after.next ≡ s.next + f.many) × (after.fired ≡ s.fired + 1) }
{}

/// A row that no pattern of the transition stands for keeps its count in each place.
pub fn what_no_pattern_names_stays()
    ensures { (net : List Decl) (s after : Snapshot) (n : ℕ) (t : Transition) (row : List Value) (f : Fired) (place : ℕ) (other : List Value) → WellFormed net → Good net s
        → slice_get (transitions net) n ≡ Some t → fire net t s row ≡ Ok (f, after) → Unnamed (bound_tokens (bound_env t row) t.ins) place other
        → Unnamed (bound_tokens (fire_env t row s.next) t.outs) place other → Unnamed (bound_tokens (fire_env t row s.next) t.backs) place other
        → count_at row_cmp after.marking place other ≡ count_at row_cmp s.marking place other }
{}

/// What has the shapes of a net is a member of a group of it.
pub fn members_have_the_shapes_of_the_net()
    ensures { (net : List Decl) (m : Member) → slice_get (shapes net) m.t ≡ Some (map value_type m.row) → IsMember net m }
{}
