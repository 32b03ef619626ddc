// Binders, and binders with their types.
ghost use Rattle.std.specs.Prelude.{◌≡◌, ◌∷◌, IfOk, drop};
ghost use Rattle.cf_grammar.specs.declared.productions.Production.TheVariants as by;
ghost use Rattle.cf_parse.specs.Evaluation.{firsts, reduced};
ghost use Rattle.cf_parse.specs.Kinds.{AllFit, params};
ghost use Rattle.cf_parse.specs.Meaning as meant;
ghost use Rattle.cf_parse.specs.Values.{sems};

use crate::parts::Domain;
use crate::taking::{take_term, take_token};
use crate::values::{Value, discard, pop, push};
use cf_base::At;
use cf_syntax::{OutOfMemory, Source};

// `(x : t)`, `{x : t}`
pub(crate) fn typed_binder(
    source: &Source<'_>,
    values: &mut Vec<Value>,
    place: At,
    implicit: bool,
) -> Result<(), OutOfMemory>
    requires { AllFit (params by.TypedBinder) (sems source.now values.old) }
    ensures { IfOk result (λ _. sems source.now values.new ≡ meant.typed implicit place (firsts 5 (sems source.now values.old)) ∷ drop 5 (sems source.now values.old)) }
{
    discard(values);
    let binder = pop(values).binder();
    discard(values);
    let ty = take_term(values, source.alloc)?;
    discard(values);
    let domain = Domain {
        implicit,
        binder,
        ty: Some(ty),
    };
    push(values, Value::Domain(domain))
}

// `x`, without a type
pub(crate) fn untyped_binder(
    source: &Source<'_>,
    values: &mut Vec<Value>,
    place: At,
) -> Result<(), OutOfMemory>
    requires { AllFit (params by.UntypedBinder) (sems source.now values.old) }
    ensures { IfOk result (λ _. sems source.now values.new ≡ reduced by.UntypedBinder place (sems source.now values.old)) }
{
    let binder = pop(values).binder();
    let domain = Domain {
        implicit: false,
        binder,
        ty: None,
    };
    push(values, Value::Domain(domain))?;
    Ok(())
}

// the binder `x`
pub(crate) fn named(
    source: &Source<'_>,
    values: &mut Vec<Value>,
    place: At,
) -> Result<(), OutOfMemory>
    requires { AllFit (params by.Named) (sems source.now values.old) }
    ensures { IfOk result (λ _. sems source.now values.new ≡ reduced by.Named place (sems source.now values.old)) }
{
    let at = take_token(values);
    let name = source.text(at)?;
    push(values, Value::Binder(Some(name)))?;
    Ok(())
}

// the binder `_`
pub(crate) fn unnamed(
    source: &Source<'_>,
    values: &mut Vec<Value>,
    place: At,
) -> Result<(), OutOfMemory>
    requires { AllFit (params by.Unnamed) (sems source.now values.old) }
    ensures { IfOk result (λ _. sems source.now values.new ≡ reduced by.Unnamed place (sems source.now values.old)) }
{
    discard(values);
    push(values, Value::Binder(None))?;
    Ok(())
}
