ghost use Rattle.std.specs.Prelude.{◌≡◌, Bool, true, List, [], ◌∷◌, ◌++◌, map, ℕ};
ghost use Rattle.dbn_value.specs.declared.value.Value.{Value};
ghost use Rattle.dbn_value.specs.declared.term.Var.{Var};
ghost use Rattle.dbn_value.specs.Members.{In};
ghost use Rattle.dbn_formula.specs.declared.formula.Formula.{Formula};
ghost use Rattle.dbn_formula.specs.declared.formula.Formula.TheVariants.{And, Not};
ghost use Rattle.dbn_formula.specs.Variables.{TypedVars};
ghost use Rattle.dbn_formula.specs.Holds.{Env, Domain, Instance, lookup, holds_over};
ghost use Rattle.dbn_formula.specs.Answers.{constants, domain, holds, answers};
ghost use Rattle.dbn_formula.specs.Free.{free, occurrences};
ghost use Rattle.dbn_formula.specs.Apart.{renamed};
ghost use Rattle.dbn_formula.specs.Typing.{Shapes};
ghost use Rattle.dbn_formula.specs.Distinct.{distinct};
ghost use Rattle.dbn_formula.specs.Safe.{safe, safe_in_order, is_apart, arranged};
ghost use Rattle.dbn_formula.specs.Solve.{is_empty, is_bound, solutions_over};
ghost use Rattle.dbn_formula.specs.Ready.{AreValued, RowsIn, Ready};
ghost use Rattle.dbn_formula.specs.Solutions.{solvable, solutions, HasShapes, AcceptsQuery, AcceptsSentence, IsSolution};

/// A formula that is renamed apart says the same, over every domain, and has the same free variables and constants. No
/// quantifier of it names a variable twice, or one that is free or quantified elsewhere.
pub fn renaming_keeps()
    ensures meaning { (dom : Domain) (db : Instance) (f : Formula) (env : Env) → holds_over dom db (renamed f) env ≡ holds_over dom db f env }
    ensures variables { (f : Formula) → free (renamed f) ≡ free f }
    ensures values { (f : Formula) → constants (renamed f) ≡ constants f }
    ensures apart { (f : Formula) → is_apart (renamed f) [] ≡ true }
    ensures once { (f : Formula) → distinct (renamed f) ≡ true }
{}

/// A formula whose conjuncts are put in the order of the safety test says the same, over every domain, and has the same
/// free variables and constants. Where it is safe and renamed apart, it is safe with conjuncts taken from left to right.
pub fn arranging_keeps()
    ensures meaning { (dom : Domain) (db : Instance) (f : Formula) (bound : List Var) (env : Env) → holds_over dom db (arranged f bound) env ≡ holds_over dom db f env }
    ensures variables { (f : Formula) (bound : List Var) (x : Var) → In x (occurrences (arranged f bound)) → In x (occurrences f) }
    ensures all_variables { (f : Formula) (bound : List Var) (x : Var) → In x (occurrences f) → In x (occurrences (arranged f bound)) }
    ensures values { (f : Formula) (bound : List Var) (v : Value) → In v (constants (arranged f bound)) → In v (constants f) }
    ensures all_values { (f : Formula) (bound : List Var) (v : Value) → In v (constants f) → In v (constants (arranged f bound)) }
    ensures left_to_right { (f : Formula) (bound : List Var) → safe f bound ≡ true → is_apart f bound ≡ true → safe_in_order (arranged f bound) bound ≡ true }
{}

/// What is safe stays safe where more variables are bound.
pub fn safe_stays_safe()
    ensures { (f : Formula) (bound more : List Var) → ((x : Var) → In x bound → In x more) → safe f bound ≡ true → safe f more ≡ true }
{}

/// Whichever safe conjunct is taken first, the same is answered: a conjunction is safe where the others are, with its variables
/// bound besides.
pub fn any_safe_conjunct_first()
    ensures { (before : List Formula) (f : Formula) (after : List Formula) (bound : List Var) → safe f bound ≡ true
        → safe (And (before ++ f ∷ after)) bound ≡ safe (And (before ++ after)) (bound ++ occurrences f) }
{}

/// Where a formula holds that is safe from left to right, its free variables have values in the domain of their types.
pub fn safe_formulas_are_bounded()
    ensures { (dom : Domain) (rels : Shapes) (db : Instance) (f : Formula) (scope : TypedVars) (bound : List Var) (env : Env)
        → RowsIn dom rels db → Ready dom rels f scope bound env → (t : Env) → AreValued dom scope bound t
        → holds_over dom db f t ≡ true → AreValued dom scope (occurrences f) t }
{}

/// The solutions of a formula that is safe from left to right: it holds for each of them, each keeps the values that were
/// given, and wherever it holds there is a solution with the same values. Quantified variables that occur nowhere need a
/// value of their type in the domain.
pub fn solutions_are_sound_and_complete()
    ensures holding { (dom : Domain) (rels : Shapes) (db : Instance) (f : Formula) (scope : TypedVars) (bound : List Var) (env : Env)
        → RowsIn dom rels db → Ready dom rels f scope bound env → (g : Env) → In g (solutions_over dom db f env) → holds_over dom db f g ≡ true }
    ensures keeping { (dom : Domain) (rels : Shapes) (db : Instance) (f : Formula) (scope : TypedVars) (bound : List Var) (env : Env)
        → RowsIn dom rels db → Ready dom rels f scope bound env → (g : Env) → In g (solutions_over dom db f env)
        → (x : Var) → is_bound env x ≡ true → lookup g x ≡ lookup env x }
    ensures binding { (dom : Domain) (rels : Shapes) (db : Instance) (f : Formula) (scope : TypedVars) (bound : List Var) (env : Env)
        → RowsIn dom rels db → Ready dom rels f scope bound env → (g : Env) → In g (solutions_over dom db f env)
        → (x : Var) → In x (occurrences f) → is_bound g x ≡ true }
    ensures complete { (dom : Domain) (rels : Shapes) (db : Instance) (f : Formula) (scope : TypedVars) (bound : List Var) (env : Env)
        → RowsIn dom rels db → Ready dom rels f scope bound env → (t : Env) → ((x : Var) → is_bound env x ≡ true → lookup t x ≡ lookup env x)
        → holds_over dom db f t ≡ true
        → (g : Env) × In g (solutions_over dom db f env) × ((x : Var) → is_bound g x ≡ true → lookup t x ≡ lookup g x) }
{}

/// The law of safe formulas. The solutions of an accepted query, taken of its arranged normal form, are exactly its
/// answers. An accepted sentence holds exactly where its denial has no solution.
pub fn safe_formulas_are_solved()
    ensures sound { (rels : Shapes) (vars : TypedVars) (f : Formula) (db : Instance) → AcceptsQuery rels vars f → HasShapes rels db
        → (row : List Value) → IsSolution f vars db row → In row (answers f vars db) }
    ensures complete { (rels : Shapes) (vars : TypedVars) (f : Formula) (db : Instance) → AcceptsQuery rels vars f → HasShapes rels db
        → (row : List Value) → In row (answers f vars db) → IsSolution f vars db row }
    ensures sentences { (rels : Shapes) (f : Formula) (db : Instance) → AcceptsSentence rels f → HasShapes rels db
        → holds f db [] ≡ is_empty (solutions (Not f) db) }
{}

/// The answers of an accepted query by what holds: they are the rows that the query's variables have in the environments for
/// which the formula holds as it is solved.
pub fn answers_are_what_holds()
    ensures holding { (rels : Shapes) (vars : TypedVars) (f : Formula) (db : Instance) → AcceptsQuery rels vars f → HasShapes rels db
        → (row : List Value) → In row (answers f vars db)
        → (t : Env) × (holds_over (domain f db) db (solvable f) t ≡ true) × (row ≡ map (λ x. lookup t x.0) vars) }
    ensures rows { (rels : Shapes) (vars : TypedVars) (f : Formula) (db : Instance) → AcceptsQuery rels vars f → HasShapes rels db
        → (t : Env) → holds_over (domain f db) db (solvable f) t ≡ true → In (map (λ x. lookup t x.0) vars) (answers f vars db) }
{}
