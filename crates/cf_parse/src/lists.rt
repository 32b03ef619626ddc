// The actions that put a phrase before a list of others of its kind.
ghost use Rattle.std.specs.Prelude.{◌≡◌, ◌∷◌, [], IfOk, drop};
ghost use Rattle.cf_parse.specs.Evaluation.{firsts};
ghost use Rattle.cf_parse.specs.Kinds as kind;
ghost use Rattle.cf_parse.specs.Kinds.{AllFit};
ghost use Rattle.cf_parse.specs.Meaning as meant;
ghost use Rattle.cf_parse.specs.Values.{IsItem, sems};

use crate::values::{Value, discard, drop_value, pop, push};
use cf_base::At;
use cf_syntax::{OutOfMemory, Source};

// A phrase, and more of its kind.
pub(crate) fn more(
    source: &Source<'_>,
    values: &mut Vec<Value>,
    place: At,
) -> Result<(), OutOfMemory>
    requires { (j : kind.Kind) × (IsItem j × AllFit (j ∷ kind.Many j ∷ []) (sems source.now values.old)) }
    ensures { IfOk result (λ _. sems source.now values.new ≡ meant.more place (firsts 2 (sems source.now values.old)) ∷ drop 2 (sems source.now values.old)) }
{
    let alloc = source.alloc;
    match pop(values) {
        Value::Token(first) => {
            let others = pop(values).names(alloc)?;
            push(values, Value::Tokens(first, others))
        }
        Value::Term(first) => {
            let others = pop(values).terms(alloc)?;
            push(values, Value::Terms(first, others))
        }
        Value::Binder(first) => {
            let others = pop(values).binders(alloc)?;
            push(values, Value::Binders(first, others))
        }
        Value::Argument(first) => {
            let others = pop(values).arguments(alloc)?;
            push(values, Value::Arguments(first, others))
        }
        Value::Arm(first) => {
            let others = pop(values).arms(alloc)?;
            push(values, Value::Arms(first, others))
        }
        Value::Ctor(first) => {
            let others = pop(values).ctors(alloc)?;
            push(values, Value::Ctors(first, others))
        }
        Value::Decl(first) => {
            let others = pop(values).decls(alloc)?;
            push(values, Value::Decls(first, others))
        }
        other => {
            drop_value(other);
            Ok(())
        }
    }
}

// A mark, a phrase behind it, and more of its kind.
pub(crate) fn more_behind(
    source: &Source<'_>,
    values: &mut Vec<Value>,
    place: At,
) -> Result<(), OutOfMemory>
    requires { (j : kind.Kind) × (IsItem j × AllFit (kind.Token ∷ j ∷ kind.Many j ∷ []) (sems source.now values.old)) }
    ensures { IfOk result (λ _. sems source.now values.new ≡ meant.more_behind place (firsts 3 (sems source.now values.old)) ∷ drop 3 (sems source.now values.old)) }
{
    discard(values);
    more(source, values, place)
}
