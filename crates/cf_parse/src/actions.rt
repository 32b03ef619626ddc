// From what the symbols of a right side stand for to what its phrase does.
ghost use Rattle.std.specs.Prelude.{◌≡◌, ◌∷◌, List, IfOk};
ghost use Rattle.cf_parse.specs.Evaluation.{reduced};
ghost use Rattle.cf_parse.specs.Kinds.{AllFit, params};
ghost use Rattle.cf_syntax.specs.Places.{place};
ghost use Rattle.cf_syntax.specs.Source.{from};
ghost use Rattle.cf_syntax.specs.Tokens as spec;
ghost use Rattle.cf_parse.specs.Values.{sems};

use crate::applying::{
    application, behind, chain, empty, explicit_argument, implicit_argument, same,
};
use crate::atoms::{
    brackets, constant, construction, enclosed, four_atoms, hole, lift, literal, numeral, one_atom,
    quote, splice, three_atoms, two_atoms, variable,
};
use crate::binding::{named, typed_binder, unnamed, untyped_binder};
use crate::declarations::{
    constructor, data, explicit_program, meta, object, parameter, plain_program, prelude_program,
};
use crate::lists::{more, more_behind};
use crate::parts::{Abstraction, Binding};
use crate::terms::{abstraction, arrow, branch, cases, definition, onto, pair_type};
use crate::values::Value;
use cf_base::At;
use cf_grammar::Production;
use cf_syntax::{OutOfMemory, Source};

// Puts what a phrase stands for in place of what its symbols stand for. Its next token has this number.
pub(crate) fn reduce(
    source: &Source<'_>,
    values: &mut Vec<Value>,
    production: Production,
    at: usize,
) -> Result<(), OutOfMemory>
    requires { AllFit (params production) (sems source.now values.old) }
    ensures { IfOk result (λ _. (k : spec.Token) (ks : List spec.Token) → from source.now at ≡ k ∷ ks → sems source.now values.new ≡ reduced production (place source.now.prelude k.at) (sems source.now values.old)) }
{
    reduce_at(source, values, production, source.place(at))
}

// The same, at a place: the action of each right side.
fn reduce_at(
    source: &Source<'_>,
    values: &mut Vec<Value>,
    production: Production,
    place: At,
) -> Result<(), OutOfMemory>
    requires { AllFit (params production) (sems source.now values.old) }
    ensures { IfOk result (λ _. sems source.now values.new ≡ reduced production place (sems source.now values.old)) }
{
    match production {
        Production::Empty => empty(source, values, place),
        Production::Explicit => explicit_program(source, values, place),
        Production::Prelude => prelude_program(source, values, place),
        Production::Plain => plain_program(source, values, place),
        Production::FirstDecl => more(source, values, place),
        Production::Data => data(source, values, place),
        Production::Meta => meta(source, values, place),
        Production::Object => object(source, values, place),
        Production::FirstParam => more(source, values, place),
        Production::Param => parameter(source, values, place),
        Production::FirstCtor => more(source, values, place),
        Production::NextCtor => more_behind(source, values, place),
        Production::Ctor => constructor(source, values, place),
        Production::FirstTerm => more(source, values, place),
        Production::NextTerm => more_behind(source, values, place),
        Production::Same => same(source, values, place),
        Production::Behind => behind(source, values, place),
        Production::Lambda => abstraction(source, values, place, Abstraction::Lambda),
        Production::Function => abstraction(source, values, place, Abstraction::Function),
        Production::Let => definition(source, values, place, Binding::Meta),
        Production::LetV => definition(source, values, place, Binding::Value),
        Production::LetRec => definition(source, values, place, Binding::Recursive),
        Production::Pi => abstraction(source, values, place, Abstraction::FunctionType),
        Production::Sig => pair_type(source, values, place),
        Production::Case => cases(source, values, place),
        Production::Arrow => arrow(source, values, place),
        Production::TypedBinder => typed_binder(source, values, place, false),
        Production::ImplicitBinder => typed_binder(source, values, place, true),
        Production::UntypedBinder => untyped_binder(source, values, place),
        Production::FirstBranch => more(source, values, place),
        Production::NextBranch => more_behind(source, values, place),
        Production::Branch => branch(source, values, place),
        Production::OntoMeta => onto(source, values, place, false),
        Production::OntoObject => onto(source, values, place, true),
        Production::Chain => chain(source, values, place),
        Production::Application => application(source, values, place),
        Production::FirstArgument => more(source, values, place),
        Production::ExplicitArgument => explicit_argument(source, values, place),
        Production::ImplicitArgument => implicit_argument(source, values, place),
        Production::Constant => constant(source, values, place),
        Production::OneAtom => one_atom(source, values, place),
        Production::TwoAtoms => two_atoms(source, values, place),
        Production::ThreeAtoms => three_atoms(source, values, place),
        Production::FourAtoms => four_atoms(source, values, place),
        Production::Variable => variable(source, values, place),
        Production::Literal => literal(source, values, place),
        Production::Numeral => numeral(source, values, place),
        Production::Construction => construction(source, values, place),
        Production::Enclosed => enclosed(source, values, place),
        Production::Quote => quote(source, values, place),
        Production::Splice => splice(source, values, place),
        Production::Lift => lift(source, values, place),
        Production::Hole => hole(source, values, place),
        Production::Brackets => brackets(source, values, place),
        Production::Named => named(source, values, place),
        Production::Unnamed => unnamed(source, values, place),
        Production::FirstBinder => more(source, values, place),
    }
}
