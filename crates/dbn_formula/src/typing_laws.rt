ghost use Rattle.std.specs.Prelude.{◌≡◌, ◌≤◌, ◌*◌, Bool, true, List, [], ◌++◌, None, length, ℕ};
ghost use Rattle.dbn_value.specs.declared.term.Var.{Var};
ghost use Rattle.dbn_value.specs.Members.{In};
ghost use Rattle.dbn_formula.specs.declared.formula.Formula.{Formula};
ghost use Rattle.dbn_formula.specs.Variables.{TypedVars, binds};
ghost use Rattle.dbn_formula.specs.Holds.{Env, Domain, Instance, lookup, holds_over};
ghost use Rattle.dbn_formula.specs.Free.{occurrences};
ghost use Rattle.dbn_formula.specs.Normal.{normal};
ghost use Rattle.dbn_formula.specs.Apart.{renamed};
ghost use Rattle.dbn_formula.specs.Safe.{arranged};
ghost use Rattle.dbn_formula.specs.Size.{size};
ghost use Rattle.dbn_formula.specs.Solutions.{solvable};
ghost use Rattle.dbn_formula.specs.Typing.{Shapes, arity_fits, types_fit, type_fault};
ghost use Rattle.dbn_formula.specs.Written.{OfFirst, of_first};

/// A formula over the first relations is as well typed over more of them.
pub fn more_relations_change_no_types()
    ensures test { (f : Formula) (n : ℕ) → of_first n f ≡ true → OfFirst n f }
    ensures arity { (rels more : Shapes) (f : Formula) → OfFirst (length rels) f → arity_fits (rels ++ more) f ≡ arity_fits rels f }
    ensures types { (rels more : Shapes) (f : Formula) (scope : TypedVars) → OfFirst (length rels) f → types_fit (rels ++ more) f scope ≡ types_fit rels f scope }
    ensures fault { (rels more : Shapes) (f : Formula) (scope : TypedVars) → OfFirst (length rels) f → type_fault (rels ++ more) f scope ≡ type_fault rels f scope }
{}

/// A well typed formula asks for no variable outside its scope: what holds depends on the values of the scope alone.
pub fn typed_formulas_are_closed()
    ensures variables { (rels : Shapes) (f : Formula) (scope : TypedVars) (x : Var) → type_fault rels f scope ≡ None → In x (occurrences f) → binds scope x ≡ true }
    ensures meaning { (dom : Domain) (db : Instance) (rels : Shapes) (f : Formula) (scope : TypedVars) (s t : Env) → type_fault rels f scope ≡ None
        → ((x : Var) → binds scope x ≡ true → lookup s x ≡ lookup t x) → holds_over dom db f s ≡ holds_over dom db f t }
{}

/// The normal form, renaming apart and arranging keep the numbers of terms.
pub fn solving_keeps_arity()
    ensures normal { (rels : Shapes) (f : Formula) → arity_fits rels (normal f) ≡ arity_fits rels f }
    ensures renamed { (rels : Shapes) (f : Formula) → arity_fits rels (renamed f) ≡ arity_fits rels f }
    ensures arranged { (rels : Shapes) (f : Formula) (bound : List Var) → arity_fits rels (arranged f bound) ≡ arity_fits rels f }
    ensures solvable { (rels : Shapes) (f : Formula) → arity_fits rels (solvable f) ≡ arity_fits rels f }
{}

/// Renaming apart and arranging keep the size; the formula as it is solved is at most three times as great.
pub fn solving_keeps_size()
    ensures renamed { (f : Formula) → size (renamed f) ≡ size f }
    ensures arranged { (f : Formula) (bound : List Var) → size (arranged f bound) ≡ size f }
    ensures solvable { (f : Formula) → size (solvable f) ≤ 3 * size f }
{}
