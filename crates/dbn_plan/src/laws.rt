ghost use Rattle.std.specs.Prelude.{◌≡◌, ◌↔◌, [], true};
ghost use Rattle.dbn_formula.specs.Answers.{answers, holds};
ghost use Rattle.dbn_formula.specs.Holds.{Instance};
ghost use Rattle.dbn_formula.specs.Solutions.{AcceptsQuery, AcceptsSentence};
ghost use Rattle.dbn_formula.specs.Typing.{Shapes};
ghost use Rattle.dbn_formula.specs.declared.formula.Formula.{Formula};
ghost use Rattle.dbn_formula.specs.declared.formula.Formula.TheVariants.{Not};

/// A sentence is compiled as the query of its denial, without variables: the node has no row exactly where the sentence holds.
pub fn sentences_are_queries()
    ensures accepted { (rels : Shapes) (f : Formula) → AcceptsSentence rels f → AcceptsQuery rels [] (Not f) }
    ensures denied { (f : Formula) (db : Instance) → (answers (Not f) [] db ≡ []) ↔ (holds f db [] ≡ true) }
{}
