ghost use Rattle.std.specs.Prelude.{◌≡◌, ◌≤◌, ◌*◌, Bool, true, List, [], ◌∷◌, map, ℕ};
ghost use Rattle.std.specs.List.Sorted.{IsStrictlySortedBy};
ghost use Rattle.dbn_value.specs.declared.value.Value.{Value};
ghost use Rattle.dbn_value.specs.Order.{row_cmp};
ghost use Rattle.dbn_value.specs.Ascending.{CellsIn};
ghost use Rattle.dbn_value.specs.Members.{In};
ghost use Rattle.dbn_formula.specs.declared.formula.Formula.{Formula};
ghost use Rattle.dbn_formula.specs.Variables.{TypedVars};
ghost use Rattle.dbn_formula.specs.Holds.{Env, Domain, Instance, Agree, holds_over};
ghost use Rattle.dbn_formula.specs.Answers.{constants, domain, holds, bind, answers};
ghost use Rattle.dbn_formula.specs.Free.{free};
ghost use Rattle.dbn_formula.specs.Normal.{normal};
ghost use Rattle.dbn_formula.specs.Size.{size};

/// What holds depends only on the values of the free variables.
pub fn free_variables_decide()
    ensures { (dom : Domain) (db : Instance) (f : Formula) (s t : Env) → Agree (free f) s t → holds_over dom db f s ≡ holds_over dom db f t }
{}

/// The normal form says the same, over every domain; it has the same free variables and the same constants, so the same answers.
pub fn normal_keeps()
    ensures meaning { (dom : Domain) (db : Instance) (f : Formula) (env : Env) → holds_over dom db (normal f) env ≡ holds_over dom db f env }
    ensures variables { (f : Formula) → free (normal f) ≡ free f }
    ensures values { (f : Formula) → constants (normal f) ≡ constants f }
    ensures rows { (f : Formula) (vars : TypedVars) (db : Instance) → answers (normal f) vars db ≡ answers f vars db }
{}

/// The normal form of a normal form is itself.
pub fn normal_again()
    ensures { (f : Formula) → normal (normal f) ≡ normal f }
{}

/// The normal form is at most three times as great as the formula.
pub fn normal_is_small()
    ensures { (f : Formula) → size (normal f) ≤ 3 * size f }
{}

/// Answers are a set in strictly ascending order: the rows of values from the domain that satisfy the formula.
pub fn answers_are_a_set()
    ensures ascending { (f : Formula) (vars : TypedVars) (db : Instance) → IsStrictlySortedBy row_cmp (answers f vars db) }
    ensures within { (f : Formula) (vars : TypedVars) (db : Instance) (row : List Value) → In row (answers f vars db) → CellsIn row (map (λ x. domain f db x.1) vars) }
    ensures sound { (f : Formula) (vars : TypedVars) (db : Instance) (row : List Value) → In row (answers f vars db) → holds f db (bind vars row []) ≡ true }
    ensures complete { (f : Formula) (vars : TypedVars) (db : Instance) (row : List Value) → CellsIn row (map (λ x. domain f db x.1) vars) → holds f db (bind vars row []) ≡ true
        → In row (answers f vars db) }
{}
