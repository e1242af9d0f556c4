//! Laws of nets, as contracts of functions that do nothing.

ghost use Rattle.std.specs.Prelude.{◌≡◌, ◌↔◌, ◌≤◌, ◌^◌, ℕ, true, not, List, [], ◌∷◌, ◌++◌, map, None, Some, Ok, length, slice_get};
ghost use Rattle.std.specs.List.{list_any};
ghost use Rattle.dbn_value.specs.declared.value.Value.{Value};
ghost use Rattle.dbn_value.specs.Ascending.{CellsIn};
ghost use Rattle.dbn_value.specs.Members.{In};
ghost use Rattle.dbn_sexp.specs.declared.sexp.Sexp.{Sexp};
ghost use Rattle.dbn_sexp.specs.Printing.{nesting, on_lines, IsWithinDepth};
ghost use Rattle.dbn_sexp.specs.Reading.{reads as list_reads};
ghost use Rattle.dbn_formula.specs.declared.formula.Formula.{Formula};
ghost use Rattle.dbn_formula.specs.Holds.{Instance};
ghost use Rattle.dbn_formula.specs.Answers.{holds};
ghost use Rattle.dbn_formula.specs.Distinct.{distinct_vars};
ghost use Rattle.dbn_formula.specs.Normal.{normal};
ghost use Rattle.dbn_formula.specs.Typing.{Shapes, type_fault};
ghost use Rattle.dbn_formula.specs.Solutions.{HasShape, HasShapes, AcceptsQuery, AcceptsSentence};
ghost use Rattle.dbn_instance.specs.declared.fact.Action.{Action};
ghost use Rattle.dbn_net.specs.declared.decl.Decl.{Decl};
ghost use Rattle.dbn_net.specs.declared.decl.Decl.TheVariants.{Foreign, Always};
ghost use Rattle.dbn_net.specs.declared.decl.Entry.TheVariants.{Part};
ghost use Rattle.dbn_net.specs.declared.decl.Entry.TheVariants as entry;
ghost use Rattle.dbn_net.specs.declared.rules.Transition.{Transition};
ghost use Rattle.dbn_net.specs.declared.snapshot.Snapshot.{Snapshot};
ghost use Rattle.dbn_net.specs.declared.violation.Named.{Named};
ghost use Rattle.dbn_net.specs.declared.written.Written.{Written};
ghost use Rattle.dbn_net.specs.Forms.{Name, declaration_in};
ghost use Rattle.dbn_net.specs.Printing.{no_lines, sexp_of};
ghost use Rattle.dbn_net.specs.Tables.{Question, relations, queries, actions, places, transitions, columns, relation_shapes, types_of, shape_of};
ghost use Rattle.dbn_net.specs.Naming.{resolved, named};
ghost use Rattle.dbn_net.specs.Judging.{Begun, judged, is_counted};
ghost use Rattle.dbn_net.specs.Sentences.{key_sentence, foreign_sentence, sentences, violations, consistent};
ghost use Rattle.dbn_net.specs.Keys.{IsKey, IsForeignKey};
ghost use Rattle.dbn_net.specs.WellFormed.{Passes, WellFormed, Fits};
ghost use Rattle.dbn_net.specs.Values.{Marking, all_values, ids_below, next_after};
ghost use Rattle.dbn_net.specs.Enabled.{bound_part, enabled, values_for};
ghost use Rattle.dbn_net.specs.Good.{Good};
ghost use Rattle.dbn_net.specs.Texts.{Start, State, nothing, read_one, read_each, finished, next_of, reads, canonical_list, ReadsAgain};
ghost use Rattle.dbn_net.specs.Limits.{IsSmallNet, HasFewColumns, HasFewVariables};
ghost use Rattle.dbn_net.specs.Starts.{IsNewFact, AreNewTokens, IsSound, IsGoodStart};

/// No violation holds exactly where the net is consistent. Each violation is a normal form.
pub fn no_violation_is_consistent()
    ensures consistent { (net : List Decl) (db : Instance) → list_any (λ v. holds v.item db []) (violations net) ≡ not (consistent net db) }
    ensures normal { (net : List Decl) (v : Named) → In v (violations net) → normal v.item ≡ v.item }
{}

/// What a net gives its transitions, queries and `always` sentences, over all that it declares.
pub fn nets_fit()
    ensures transitions { (net : List Decl) (n : ℕ) (t : Transition) → WellFormed net → slice_get (transitions net) n ≡ Some t → Fits net t }
    ensures queries { (net : List Decl) (n : ℕ) (q : Question) → WellFormed net → slice_get (queries net) n ≡ Some q → AcceptsQuery (relation_shapes net) q.vars q.body }
    ensures sentences { (net : List Decl) (name : Name) (body : Formula) → WellFormed net → In (Always name body) net → AcceptsSentence (relation_shapes net) body }
{}

/// The values of a row that enables a transition are values of the state and of the net, of the types of the bound variables.
pub fn enabled_rows_are_of_the_state()
    ensures cells { (net : List Decl) (t : Transition) (db : Instance) (marking : Marking) (row : List Value) → Fits net t → HasShape row (shape_of t)
        → enabled net t db marking row ≡ true → CellsIn (bound_part t row) (map (values_for net db marking) (types_of t.bound)) }
    ensures values { (net : List Decl) (t : Transition) (db : Instance) (marking : Marking) (row : List Value) → Fits net t → HasShape row (shape_of t)
        → enabled net t db marking row ≡ true → (v : Value) → In v (bound_part t row) → In v (all_values net db marking) }
{}

/// A declaration is read on whatever lines it stands, what is read is printed as it was, and names are found again.
pub fn declarations_both_ways()
    ensures lines { (one : Sexp) → declaration_in (no_lines one) ≡ declaration_in one }
    ensures printed { (one : Sexp) (w : Written) → declaration_in one ≡ Some w → sexp_of w ≡ no_lines one }
    ensures names { (net : List Decl) (w : Written) (d : Decl) → resolved net w ≡ Some (Part d) → is_counted (Part d) ≡ true → named net d ≡ w }
{}

/// What was read and judged may follow the net.
pub fn what_was_read_may_follow()
    ensures { (before : List Decl) (begun : Begun) (one : Sexp) (w : Written) (d : Decl)
        → declaration_in one ≡ Some w → judged before begun w ≡ Ok (Part d) → nesting one.item ≤ 64 → Passes before d }
{}

/// The text of a net and a good snapshot is read as the net with its facts and tokens, and with a first id that isn't above.
pub fn texts_are_read_again()
    ensures { (bytes : List ℕ) (net : List Decl) (s : Snapshot) → list_reads 64 bytes ≡ Ok (on_lines 1 (canonical_list net s.instance s.marking))
        → WellFormed net → Good net s → ReadsAgain bytes net s.instance s.marking s.next }
{}

/// The ids of a state and of the net are below the first id after them.
pub fn the_next_id_is_new()
    ensures { (net : List Decl) (db : Instance) (marking : Marking) → ids_below (next_after net db marking) (all_values net db marking) ≡ true }
{}

/// The sentence of a key holds exactly where no two rows of the relation have the same cells in its columns.
pub fn keys_in_words_of_rows()
    ensures { (rels : Shapes) (rel : ℕ) (fields : List ℕ) (db : Instance) → HasShapes rels db
        → (holds (key_sentence (columns rels rel) rel fields) db [] ≡ true) ↔ IsKey db rel fields }
{}

/// The sentence of a foreign key of a net holds exactly where each row of the one relation has the same cells in the paired
/// columns as some row of the other.
pub fn foreign_keys_in_words_of_rows()
    ensures { (net : List Decl) (rel : ℕ) (fields : List ℕ) (to : ℕ) (to_fields : List ℕ) (db : Instance)
        → WellFormed net → In (Foreign rel fields to to_fields) net → HasShapes (relation_shapes net) db
        → (holds (foreign_sentence (columns (relation_shapes net) rel) (columns (relation_shapes net) to) rel fields to to_fields) db [] ≡ true) ↔ IsForeignKey db rel fields to to_fields }
{}

/// Each sentence of a net and each violation is closed and well typed over its relations.
pub fn sentences_are_typed()
    ensures sentences { (net : List Decl) (f : Formula) → WellFormed net → In f (sentences net) → type_fault (relation_shapes net) f [] ≡ None }
    ensures violations { (net : List Decl) (v : Named) → WellFormed net → In v (violations net) → type_fault (relation_shapes net) v.item [] ≡ None }
{}

/// A net has at most 65,535 of each kind; a list of columns, query variables or parameters has at most 16 parts; a transition
/// has at most 64 bound, 16 asked and 16 fresh variables, so that its rows have at most 80 cells; no parameter stands twice.
pub fn limits_of_nets()
    ensures kinds { (net : List Decl) → WellFormed net → IsSmallNet net }
    ensures columns { (net : List Decl) → WellFormed net → HasFewColumns net }
    ensures variables { (net : List Decl) (n : ℕ) (t : Transition) → WellFormed net → slice_get (transitions net) n ≡ Some t → HasFewVariables t }
    ensures rows { (net : List Decl) (n : ℕ) (t : Transition) (row : List Value) → WellFormed net → slice_get (transitions net) n ≡ Some t → HasShape row (shape_of t) → length row ≤ 80 }
    ensures parameters { (net : List Decl) (n : ℕ) (a : Action) → WellFormed net → slice_get (actions net) n ≡ Some a → distinct_vars a.params ≡ true }
{}

/// What a text is read as is a net with a good snapshot, whose next id is the first that no value of both has.
pub fn start_snapshots_are_good()
    ensures { (bytes : List ℕ) (start : Start) → reads bytes ≡ Ok start → IsGoodStart start }
{}

/// The same step by step: what each step keeps, and what the end of reading adds.
pub fn readings_are_sound()
    ensures begins { IsSound [] nothing }
    ensures steps { (list : List Sexp) (s next : State) (one : Sexp) → IsSound list s → nesting one.item ≤ 64 → read_one s one ≡ Ok next → IsSound (list ++ one ∷ []) next }
    ensures lists { (list : List Sexp) (s : State) → IsWithinDepth 64 list → read_each nothing list ≡ Ok s → IsSound list s }
    ensures ids { (depth : ℕ) (bytes : List ℕ) (list : List Sexp) → list_reads depth bytes ≡ Ok list → next_of list ≤ 2 ^ 62 }
    ensures ends { (list : List Sexp) (s : State) (start : Start) → IsSound list s → next_of list ≤ 2 ^ 62 → finished list s ≡ Ok start → IsGoodStart start }
{}

/// Facts and tokens that were judged are new, of the shape of their relation or control place, and the counts are in range.
pub fn judged_entries_fit()
    ensures facts { (net : List Decl) (begun : Begun) (w : Written) (rel : ℕ) (row : List Value) → judged net begun w ≡ Ok (entry.Fact rel row) → IsNewFact net begun rel row }
    ensures tokens { (net : List Decl) (begun : Begun) (w : Written) (place many : ℕ) (row : List Value) → judged net begun w ≡ Ok (entry.Tokens place many row) → AreNewTokens net begun place many row }
    ensures sizes { (list : List Sexp) (s : State) → IsSound list s → (length s.begun.facts ≡ length (relations s.decls)) × (length s.begun.tokens ≡ length (places s.decls)) }
{}
