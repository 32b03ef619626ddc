// Atoms, and words with the atoms that they take.
ghost use Rattle.std.specs.Prelude.{◌≡◌, ◌∷◌, List, [], IfOk};
ghost use Rattle.cf_base.specs.declared.at.At as at;
ghost use Rattle.cf_grammar.specs.declared.classes.Class as classes;
ghost use Rattle.cf_grammar.specs.declared.productions.Production.TheVariants as by;
ghost use Rattle.cf_parse.specs.Evaluation.{reduced};
ghost use Rattle.cf_parse.specs.Kinds.{AllFit, params};
ghost use Rattle.cf_parse.specs.Meaning as meant;
ghost use Rattle.cf_parse.specs.Values.{optional_brackets, optional_term, sems};
ghost use Rattle.cf_tree.specs.View.{tree_of};

use crate::parts::missing;
use crate::taking::{
    put_form, take_brackets, take_named, take_optional_term, take_term, take_terms, take_token,
    take_word,
};
use crate::values::{Value, discard, push};
use crate::words::{with_four, with_none, with_one, with_three, with_two};
use cf_base::At;
use cf_syntax::{OutOfMemory, Source};
use cf_tree::{Named, Node, Tree};
use std::alloc::Global;

// A name alone, or a data type with its parameters.
fn named_form(name: Named, params: Option<Vec<Tree>>) -> Node
    ensures { (p : at.At) (k : classes.Class) → meant.term (tree_of p result) ≡ meant.variable p (meant.token name.at k name.name ∷ optional_brackets params ∷ []) }
{
    match params {
        Some(params) => Node::Data { name, params },
        None => Node::Var(name.name),
    }
}

// A term between parentheses, or a pair.
fn parenthesized(
    alloc: Global,
    at: At,
    first: Box<Tree>,
    second: Option<Box<Tree>>,
) -> Result<Box<Tree>, OutOfMemory>
    ensures { IfOk result (λ t. (k : meant.Sem) (vs : List meant.Sem) → meant.term t.value ≡ meant.enclosed at (k ∷ meant.term first.value ∷ optional_term second ∷ vs)) }
{
    match second {
        Some(second) => {
            let ty = Box::new(alloc, missing(at))?;
            let node = Node::Pair(ty, first, second);
            Ok(Box::new(alloc, Tree { at, node })?)
        }
        None => Ok(first),
    }
}

// `Int`
pub(crate) fn constant(
    source: &Source<'_>,
    values: &mut Vec<Value>,
    place: At,
) -> Result<(), OutOfMemory>
    requires { AllFit (params by.Constant) (sems source.now values.old) }
    ensures { IfOk result (λ _. sems source.now values.new ≡ reduced by.Constant place (sems source.now values.old)) }
{
    let word = take_word(source, values);
    put_form(values, source.alloc, place, with_none(word))?;
    Ok(())
}

// `suc n`
pub(crate) fn one_atom(
    source: &Source<'_>,
    values: &mut Vec<Value>,
    place: At,
) -> Result<(), OutOfMemory>
    requires { AllFit (params by.OneAtom) (sems source.now values.old) }
    ensures { IfOk result (λ _. sems source.now values.new ≡ reduced by.OneAtom place (sems source.now values.old)) }
{
    let word = take_word(source, values);
    let t = take_term(values, source.alloc)?;
    put_form(values, source.alloc, place, with_one(word, t))?;
    Ok(())
}

// `cons t u`
pub(crate) fn two_atoms(
    source: &Source<'_>,
    values: &mut Vec<Value>,
    place: At,
) -> Result<(), OutOfMemory>
    requires { AllFit (params by.TwoAtoms) (sems source.now values.old) }
    ensures { IfOk result (λ _. sems source.now values.new ≡ reduced by.TwoAtoms place (sems source.now values.old)) }
{
    let word = take_word(source, values);
    let t = take_term(values, source.alloc)?;
    let u = take_term(values, source.alloc)?;
    put_form(values, source.alloc, place, with_two(word, t, u))?;
    Ok(())
}

// `pair S t u`
pub(crate) fn three_atoms(
    source: &Source<'_>,
    values: &mut Vec<Value>,
    place: At,
) -> Result<(), OutOfMemory>
    requires { AllFit (params by.ThreeAtoms) (sems source.now values.old) }
    ensures { IfOk result (λ _. sems source.now values.new ≡ reduced by.ThreeAtoms place (sems source.now values.old)) }
{
    let word = take_word(source, values);
    let s = take_term(values, source.alloc)?;
    let t = take_term(values, source.alloc)?;
    let u = take_term(values, source.alloc)?;
    put_form(values, source.alloc, place, with_three(word, s, t, u))?;
    Ok(())
}

// `natrec P z s n`
pub(crate) fn four_atoms(
    source: &Source<'_>,
    values: &mut Vec<Value>,
    place: At,
) -> Result<(), OutOfMemory>
    requires { AllFit (params by.FourAtoms) (sems source.now values.old) }
    ensures { IfOk result (λ _. sems source.now values.new ≡ reduced by.FourAtoms place (sems source.now values.old)) }
{
    let word = take_word(source, values);
    let s = take_term(values, source.alloc)?;
    let t = take_term(values, source.alloc)?;
    let u = take_term(values, source.alloc)?;
    let v = take_term(values, source.alloc)?;
    put_form(values, source.alloc, place, with_four(word, s, t, u, v))?;
    Ok(())
}

// `x`, `D[a, ..]`
pub(crate) fn variable(
    source: &Source<'_>,
    values: &mut Vec<Value>,
    place: At,
) -> Result<(), OutOfMemory>
    requires { AllFit (params by.Variable) (sems source.now values.old) }
    ensures { IfOk result (λ _. sems source.now values.new ≡ reduced by.Variable place (sems source.now values.old)) }
{
    let name = take_named(source, values)?;
    let params = take_brackets(values);
    put_form(values, source.alloc, place, named_form(name, params))?;
    Ok(())
}

// an integer
pub(crate) fn literal(
    source: &Source<'_>,
    values: &mut Vec<Value>,
    place: At,
) -> Result<(), OutOfMemory>
    requires { AllFit (params by.Literal) (sems source.now values.old) }
    ensures { IfOk result (λ _. sems source.now values.new ≡ reduced by.Literal place (sems source.now values.old)) }
{
    let at = take_token(values);
    put_form(values, source.alloc, place, Node::Lit(source.whole(at)))?;
    Ok(())
}

// `#k`
pub(crate) fn numeral(
    source: &Source<'_>,
    values: &mut Vec<Value>,
    place: At,
) -> Result<(), OutOfMemory>
    requires { AllFit (params by.Numeral) (sems source.now values.old) }
    ensures { IfOk result (λ _. sems source.now values.new ≡ reduced by.Numeral place (sems source.now values.old)) }
{
    let at = take_token(values);
    put_form(values, source.alloc, place, Node::NatLit(source.natlit(at)))?;
    Ok(())
}

// `con c[a, ..](t, ..)`
pub(crate) fn construction(
    source: &Source<'_>,
    values: &mut Vec<Value>,
    place: At,
) -> Result<(), OutOfMemory>
    requires { AllFit (params by.Construction) (sems source.now values.old) }
    ensures { IfOk result (λ _. sems source.now values.new ≡ reduced by.Construction place (sems source.now values.old)) }
{
    discard(values);
    let name = take_named(source, values)?;
    let params = take_brackets(values);
    discard(values);
    let fields = take_terms(values, source.alloc)?;
    discard(values);
    let node = Node::Con {
        name,
        params,
        fields,
    };
    put_form(values, source.alloc, place, node)?;
    Ok(())
}

// `(t)`, `(t, u)`
pub(crate) fn enclosed(
    source: &Source<'_>,
    values: &mut Vec<Value>,
    place: At,
) -> Result<(), OutOfMemory>
    requires { AllFit (params by.Enclosed) (sems source.now values.old) }
    ensures { IfOk result (λ _. sems source.now values.new ≡ reduced by.Enclosed place (sems source.now values.old)) }
{
    discard(values);
    let first = take_term(values, source.alloc)?;
    let second = take_optional_term(values);
    discard(values);
    let t = parenthesized(source.alloc, place, first, second)?;
    push(values, Value::Term(t))?;
    Ok(())
}

// `<o>`
pub(crate) fn quote(
    source: &Source<'_>,
    values: &mut Vec<Value>,
    place: At,
) -> Result<(), OutOfMemory>
    requires { AllFit (params by.Quote) (sems source.now values.old) }
    ensures { IfOk result (λ _. sems source.now values.new ≡ reduced by.Quote place (sems source.now values.old)) }
{
    discard(values);
    let t = take_term(values, source.alloc)?;
    discard(values);
    put_form(values, source.alloc, place, Node::Quote(t))?;
    Ok(())
}

// `~u`
pub(crate) fn splice(
    source: &Source<'_>,
    values: &mut Vec<Value>,
    place: At,
) -> Result<(), OutOfMemory>
    requires { AllFit (params by.Splice) (sems source.now values.old) }
    ensures { IfOk result (λ _. sems source.now values.new ≡ reduced by.Splice place (sems source.now values.old)) }
{
    discard(values);
    let t = take_term(values, source.alloc)?;
    put_form(values, source.alloc, place, Node::Splice(t))?;
    Ok(())
}

// `^A`
pub(crate) fn lift(
    source: &Source<'_>,
    values: &mut Vec<Value>,
    place: At,
) -> Result<(), OutOfMemory>
    requires { AllFit (params by.Lift) (sems source.now values.old) }
    ensures { IfOk result (λ _. sems source.now values.new ≡ reduced by.Lift place (sems source.now values.old)) }
{
    discard(values);
    let t = take_term(values, source.alloc)?;
    put_form(values, source.alloc, place, Node::Lift(t))?;
    Ok(())
}

// `_`
pub(crate) fn hole(
    source: &Source<'_>,
    values: &mut Vec<Value>,
    place: At,
) -> Result<(), OutOfMemory>
    requires { AllFit (params by.Hole) (sems source.now values.old) }
    ensures { IfOk result (λ _. sems source.now values.new ≡ reduced by.Hole place (sems source.now values.old)) }
{
    discard(values);
    put_form(values, source.alloc, place, Node::Hole)?;
    Ok(())
}

// `[a, ..]`
pub(crate) fn brackets(
    source: &Source<'_>,
    values: &mut Vec<Value>,
    place: At,
) -> Result<(), OutOfMemory>
    requires { AllFit (params by.Brackets) (sems source.now values.old) }
    ensures { IfOk result (λ _. sems source.now values.new ≡ reduced by.Brackets place (sems source.now values.old)) }
{
    discard(values);
    let terms = take_terms(values, source.alloc)?;
    discard(values);
    push(values, Value::Bracketed(terms))?;
    Ok(())
}
