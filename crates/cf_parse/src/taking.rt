// What productions take from the stack of values, and the forms that they put on it.
ghost use Rattle.std.specs.Prelude.{◌≡◌, ◌∷◌, ℕ, IfOk, map};
ghost use Rattle.cf_base.specs.declared.at.At as at;
ghost use Rattle.cf_grammar.specs.declared.classes.Class as classes;
ghost use Rattle.cf_grammar.specs.declared.classes.Class.TheVariants as class;
ghost use Rattle.cf_parse.specs.Kinds as kind;
ghost use Rattle.cf_parse.specs.Kinds.{IsToken};
ghost use Rattle.cf_parse.specs.Meaning as meant;
ghost use Rattle.cf_parse.specs.Values.{Taken, listed, optional_brackets, optional_term, sems, term_of, token_of};
ghost use Rattle.cf_syntax.specs.declared.source.Source as sources;
ghost use Rattle.cf_tree.specs.Tree as trees;
ghost use Rattle.cf_tree.specs.View.{tree_of};

use crate::values::{Value, pop, push};
use cf_base::At;
use cf_lex::Keyword;
use cf_syntax::{OutOfMemory, Source};
use cf_tree::{Named, Node, Tree};
use std::alloc::Global;

// Takes a token.
pub(crate) fn take_token(values: &mut Vec<Value>) -> usize
    ensures { (s : sources.Source) (j : kind.Kind) → IsToken j → Taken j (sems s values.old) (token_of s result) (sems s values.new) }
{
    pop(values).token()
}

// Takes a term.
pub(crate) fn take_term(values: &mut Vec<Value>, alloc: Global) -> Result<Box<Tree>, OutOfMemory>
    ensures { IfOk result (λ t. (s : sources.Source) → Taken kind.Term (sems s values.old) (term_of t.value) (sems s values.new)) }
{
    let term = pop(values).term(alloc)?;
    Ok(term)
}

// Takes a term that may be left out.
pub(crate) fn take_optional_term(values: &mut Vec<Value>) -> Option<Box<Tree>>
    ensures { (s : sources.Source) → Taken (kind.Maybe kind.Term) (sems s values.old) (optional_term result) (sems s values.new) }
{
    pop(values).optional_term()
}

// Takes the terms between brackets, which may be left out.
pub(crate) fn take_brackets(values: &mut Vec<Value>) -> Option<Vec<Tree>>
    ensures { (s : sources.Source) → Taken (kind.Maybe kind.Bracketed) (sems s values.old) (optional_brackets result) (sems s values.new) }
{
    pop(values).bracketed()
}

// Takes terms, in the order in which they are written.
pub(crate) fn take_terms(values: &mut Vec<Value>, alloc: Global) -> Result<Vec<Tree>, OutOfMemory>
    ensures { IfOk result (λ ts. (s : sources.Source) → Taken (kind.Many kind.Term) (sems s values.old) (listed (map term_of ts.items)) (sems s values.new)) }
{
    let mut terms = pop(values).terms(alloc)?;
    terms.reverse();
    Ok(terms)
}

// Puts a form at a place on top.
pub(crate) fn put_form(
    values: &mut Vec<Value>,
    alloc: Global,
    at: At,
    node: Node,
) -> Result<(), OutOfMemory>
    ensures { IfOk result (λ _. (s : sources.Source) → sems s values.new ≡ meant.term (tree_of at node) ∷ sems s values.old) }
{
    let form = Box::new(alloc, Tree { at, node })?;
    push(values, Value::Term(form))?;
    Ok(())
}

// Takes a name, with its place.
pub(crate) fn take_named(source: &Source<'_>, values: &mut Vec<Value>) -> Result<Named, OutOfMemory>
    ensures { IfOk result (λ n. (k : classes.Class) × Taken kind.Name (sems source.now values.old) (meant.token n.at k n.name) (sems source.now values.new)) }
{
    let at = take_token(values);
    let name = source.text(at)?;
    Ok(Named {
        at: source.place(at),
        name,
    })
}

// Takes a word that begins a form.
pub(crate) fn take_word(source: &Source<'_>, values: &mut Vec<Value>) -> Keyword
    ensures { (p : at.At) × ((x : trees.Name) × ((n : ℕ) → Taken (kind.Word n) (sems source.now values.old) (meant.token p (class.Word result) x) (sems source.now values.new))) }
{
    let at = take_token(values);
    source.word(at)
}
