//! Declarations as they are written.

ghost use Rattle.std.specs.Prelude.{◌≡◌, ◌∷◌, if◌then◌else◌, Option};
ghost use Rattle.dbn_sexp.specs.Parts.{constant_in};
ghost use Rattle.dbn_net.specs.Maybe.{each, some};
ghost use Rattle.dbn_net.specs.Forms.{with_word, is_connective, relation_of, key_of, fields_in, side_of, referring_of, foreign_of, always_of, query_of, effect_of, effect_in, action_of, control_of, view_of, transition_of, fact_of, token_of, declared, declaration_in};
ghost use Rattle.dbn_reader.specs.Parses.{Parses};

use super::clauses::clauses;
use super::formulas::{body_in, is_connective};
use super::misfit::Misfit;
use super::words::{FromSexp, each, int_in, is_word, scope_in, some};
use dbn_net::{Names, Written, WrittenAtom, WrittenAtoms};
use dbn_sexp::{Sexp, list_in, word_in};
use dbn_value::{ColType, Name, Row, TypedNames, Value};
use std::alloc::Global;

/// The relation, unless its name is that of a connective or a quantifier.
fn named_relation(name: Name, fields: TypedNames) -> Result<Written, Misfit>
    ensures { Parses result (if is_connective name then None else Some (Written.Relation name fields)) }
{
    if is_connective(name.as_bytes()) {
        Err(Misfit::Shape)
    } else {
        Ok(Written::Relation { name, fields })
    }
}

/// `R` and `(f type)..`
fn relation_parts(alloc: Global, name: &Sexp, parts: &[Sexp]) -> Result<Written, Misfit>
    ensures { Parses result (relation_of (name.now ∷ parts.now)) }
{
    let name = Name::from_sexp(alloc, name)?;
    let fields = each::<(Name, ColType)>(alloc, parts)?;
    named_relation(name, fields)
}

/// `R (f type)..`
fn relation_of(alloc: Global, parts: &[Sexp]) -> Result<Written, Misfit>
    ensures { Parses result (relation_of parts.now) }
{
    match parts {
        [] => Err(Misfit::Shape),
        [name, parts @ ..] => relation_parts(alloc, name, parts),
    }
}

/// `R f..+`
fn key_of(alloc: Global, parts: &[Sexp]) -> Result<Written, Misfit>
    ensures { Parses result (key_of parts.now) }
{
    match parts {
        [] => Err(Misfit::Shape),
        [rel, parts @ ..] => {
            let rel = Name::from_sexp(alloc, rel)?;
            let fields = some(each::<Name>(alloc, parts)?)?;
            Ok(Written::Key { rel, fields })
        }
    }
}

/// `(f..+)`
fn fields_in(alloc: Global, one: &Sexp) -> Result<Names, Misfit>
    ensures { Parses result (fields_in one.now) }
{
    match list_in(one) {
        None => Err(Misfit::Shape),
        Some(parts) => some(each::<Name>(alloc, parts)?),
    }
}

/// `R (f..+)`
fn side_of(alloc: Global, rel: &Sexp, fields: &Sexp) -> Result<(Name, Names), Misfit>
    ensures { Parses result (side_of rel.now fields.now) }
{
    let rel = Name::from_sexp(alloc, rel)?;
    let fields = fields_in(alloc, fields)?;
    Ok((rel, fields))
}

/// `S (g..+)`, behind the other side.
fn referring_of(alloc: Global, from: (Name, Names), parts: &[Sexp]) -> Result<Written, Misfit>
    ensures { Parses result (referring_of from parts.now) }
{
    match parts {
        [to, to_fields] => {
            let (rel, fields) = from;
            let (to, to_fields) = side_of(alloc, to, to_fields)?;
            Ok(Written::Foreign {
                rel,
                fields,
                to,
                to_fields,
            })
        }
        _ => Err(Misfit::Shape),
    }
}

/// `R (f..+) S (g..+)`
fn foreign_of(alloc: Global, parts: &[Sexp]) -> Result<Written, Misfit>
    ensures { Parses result (foreign_of parts.now) }
{
    match parts {
        [rel, fields, parts @ ..] => {
            let from = side_of(alloc, rel, fields)?;
            referring_of(alloc, from, parts)
        }
        _ => Err(Misfit::Shape),
    }
}

/// `c formula`
fn always_of(alloc: Global, parts: &[Sexp]) -> Result<Written, Misfit>
    ensures { Parses result (always_of parts.now) }
{
    match parts {
        [name, body] => {
            let name = Name::from_sexp(alloc, name)?;
            let body = body_in(alloc, body)?;
            Ok(Written::Always { name, body })
        }
        _ => Err(Misfit::Shape),
    }
}

/// `q ((x type)..) formula`
fn query_of(alloc: Global, parts: &[Sexp]) -> Result<Written, Misfit>
    ensures { Parses result (query_of parts.now) }
{
    match parts {
        [name, vars, body] => {
            let name = Name::from_sexp(alloc, name)?;
            let vars = scope_in(alloc, vars)?;
            let body = body_in(alloc, body)?;
            Ok(Written::Query { name, vars, body })
        }
        _ => Err(Misfit::Shape),
    }
}

fn effect_of(
    alloc: Global,
    kind: &[u8],
    word: &[u8],
    parts: &[Sexp],
) -> Result<WrittenAtoms, Misfit>
    ensures { Parses result (effect_of kind.now word.now parts.now) }
{
    if is_word(word, kind) {
        each::<WrittenAtom>(alloc, parts)
    } else {
        Err(Misfit::Shape)
    }
}

/// A list with a first word.
fn headed_effect(alloc: Global, kind: &[u8], parts: &[Sexp]) -> Result<WrittenAtoms, Misfit>
    ensures { Parses result (with_word (effect_of kind.now) parts.now) }
{
    match parts {
        [] => Err(Misfit::Shape),
        [head, parts @ ..] => match word_in(head) {
            None => Err(Misfit::Shape),
            Some(word) => effect_of(alloc, kind, word.as_bytes(), parts),
        },
    }
}

/// `(delete (R t..)..)` or `(add (R t..)..)`
fn effect_in(alloc: Global, kind: &[u8], one: &Sexp) -> Result<WrittenAtoms, Misfit>
    ensures { Parses result (effect_in kind.now one.now) }
{
    match list_in(one) {
        None => Err(Misfit::Shape),
        Some(parts) => headed_effect(alloc, kind, parts),
    }
}

/// `a ((p type)..) (delete (R t..)..) (add (R t..)..)`
fn action_of(alloc: Global, parts: &[Sexp]) -> Result<Written, Misfit>
    ensures { Parses result (action_of parts.now) }
{
    match parts {
        [name, params, deletes, adds] => {
            let name = Name::from_sexp(alloc, name)?;
            let params = scope_in(alloc, params)?;
            let deletes = effect_in(alloc, b"delete".as_slice(), deletes)?;
            let adds = effect_in(alloc, b"add".as_slice(), adds)?;
            Ok(Written::Action {
                name,
                params,
                deletes,
                adds,
            })
        }
        _ => Err(Misfit::Shape),
    }
}

/// `P type..`
fn control_of(alloc: Global, parts: &[Sexp]) -> Result<Written, Misfit>
    ensures { Parses result (control_of parts.now) }
{
    match parts {
        [] => Err(Misfit::Shape),
        [name, parts @ ..] => {
            let name = Name::from_sexp(alloc, name)?;
            let shape = each::<ColType>(alloc, parts)?;
            Ok(Written::Control { name, shape })
        }
    }
}

/// `V q`
fn view_of(alloc: Global, parts: &[Sexp]) -> Result<Written, Misfit>
    ensures { Parses result (view_of parts.now) }
{
    match parts {
        [name, query] => {
            let name = Name::from_sexp(alloc, name)?;
            let query = Name::from_sexp(alloc, query)?;
            Ok(Written::View { name, query })
        }
        _ => Err(Misfit::Shape),
    }
}

/// `T clause..`
fn transition_of(alloc: Global, parts: &[Sexp]) -> Result<Written, Misfit>
    ensures { Parses result (transition_of parts.now) }
{
    match parts {
        [] => Err(Misfit::Shape),
        [name, parts @ ..] => {
            let name = Name::from_sexp(alloc, name)?;
            let transition = clauses(alloc, name, parts)?;
            Ok(Written::Transition(transition))
        }
    }
}

/// The row of the constants that the parts are.
fn row_of(alloc: Global, parts: &[Sexp]) -> Result<Row<Value>, Misfit>
    ensures { Parses result (each constant_in parts.now) }
{
    let mut row = Vec::new(alloc);
    for one in parts {
        row.push(Value::from_sexp(alloc, one)?)?;
    }
    Ok(Row::from_vec(row))
}

/// `R v..`
fn fact_of(alloc: Global, parts: &[Sexp]) -> Result<Written, Misfit>
    ensures { Parses result (fact_of parts.now) }
{
    match parts {
        [] => Err(Misfit::Shape),
        [rel, parts @ ..] => {
            let rel = Name::from_sexp(alloc, rel)?;
            let row = row_of(alloc, parts)?;
            Ok(Written::Fact { rel, row })
        }
    }
}

/// `P n v..`
fn token_of(alloc: Global, parts: &[Sexp]) -> Result<Written, Misfit>
    ensures { Parses result (token_of parts.now) }
{
    match parts {
        [place, many, parts @ ..] => {
            let place = Name::from_sexp(alloc, place)?;
            let many = int_in(many)?;
            let row = row_of(alloc, parts)?;
            Ok(Written::Token { place, many, row })
        }
        _ => Err(Misfit::Shape),
    }
}

fn declared(alloc: Global, word: &[u8], parts: &[Sexp]) -> Result<Written, Misfit>
    ensures { Parses result (declared word.now parts.now) }
{
    if is_word(word, b"relation".as_slice()) {
        relation_of(alloc, parts)
    } else if is_word(word, b"key".as_slice()) {
        key_of(alloc, parts)
    } else if is_word(word, b"foreign".as_slice()) {
        foreign_of(alloc, parts)
    } else if is_word(word, b"always".as_slice()) {
        always_of(alloc, parts)
    } else if is_word(word, b"query".as_slice()) {
        query_of(alloc, parts)
    } else if is_word(word, b"action".as_slice()) {
        action_of(alloc, parts)
    } else if is_word(word, b"place".as_slice()) {
        control_of(alloc, parts)
    } else if is_word(word, b"view".as_slice()) {
        view_of(alloc, parts)
    } else if is_word(word, b"transition".as_slice()) {
        transition_of(alloc, parts)
    } else if is_word(word, b"fact".as_slice()) {
        fact_of(alloc, parts)
    } else if is_word(word, b"token".as_slice()) {
        token_of(alloc, parts)
    } else {
        Err(Misfit::Shape)
    }
}

/// A list with a first word.
fn headed(alloc: Global, parts: &[Sexp]) -> Result<Written, Misfit>
    ensures { Parses result (with_word declared parts.now) }
{
    match parts {
        [] => Err(Misfit::Shape),
        [head, parts @ ..] => match word_in(head) {
            None => Err(Misfit::Shape),
            Some(word) => declared(alloc, word.as_bytes(), parts),
        },
    }
}

/// The declaration that the S-expression is; `Shape` comes exactly where it is none.
#[tactic(auto, unfolding(dbn_net::specs::Forms::declaration_in))]
pub(crate) fn declaration_in(alloc: Global, one: &Sexp) -> Result<Written, Misfit>
    ensures { Parses result (declaration_in one.now) }
{
    match list_in(one) {
        None => Err(Misfit::Shape),
        Some(parts) => headed(alloc, parts),
    }
}
