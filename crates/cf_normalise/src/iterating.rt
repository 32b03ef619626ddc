// A call that takes many steps, few of them open in one another.
ghost use Rattle.std.specs.Prelude.{◌≡◌, false, IfOk};
ghost use Rattle.cf_term.specs.Evaluation.{Done};
ghost use Rattle.cf_term.specs.Forms.{Lam};
ghost use Rattle.cf_term.specs.NormalForms.{normal_form};
ghost use Rattle.cf_term.specs.View.{tm_of};
ghost use Rattle.cf_eval.specs.Answers.{Answers};
ghost use Rattle.cf_normalise.specs.Iterated.{call, function, numeral, sixteen_times};

use cf_base::NoMemory;
use cf_eval::{Budget, EvalEnd, Written, normalise};
use cf_term::{Term, TermNode};
use cf_value::Env;
use std::alloc::Global;
use std::rc::Rc;

// the form on the heap
fn term(alloc: Global, node: TermNode) -> Result<Rc<Term>, NoMemory>
    ensures { IfOk result (λ t. t.value ≡ tm_of node) }
{
    let inserted = false;
    match Rc::new(alloc, Term { inserted, node }) {
        Ok(t) => Ok(t),
        Err(_) => Err(NoMemory),
    }
}

// `\(x : domain). body`
fn lambda(alloc: Global, domain: TermNode, body: Rc<Term>) -> Result<Rc<Term>, NoMemory>
    ensures { IfOk result (λ t. t.value ≡ Lam false (tm_of domain) body.value) }
{
    let implicit = false;
    let domain = term(alloc, domain)?;
    term(
        alloc,
        TermNode::Lam {
            implicit,
            domain,
            body,
        },
    )
}

// `#n`
fn numeral(alloc: Global, n: u32) -> Result<Rc<Term>, NoMemory>
    ensures { IfOk result (λ t. t.value ≡ numeral n) }
{
    let mut t = term(alloc, TermNode::Zero)?;
    for i in 0..n {
        t = term(alloc, TermNode::Suc(t))?;
    }
    Ok(t)
}

// `\(x : Unit). natrec (\(k : Nat). Unit) x (\(k : Nat). \(r : Unit). f r) #16`
fn sixteen_times(alloc: Global, f: Rc<Term>) -> Result<Rc<Term>, NoMemory>
    ensures { IfOk result (λ t. t.value ≡ sixteen_times f.value) }
{
    let motive = lambda(alloc, TermNode::NatTy, term(alloc, TermNode::UnitTy)?)?;
    let x = term(alloc, TermNode::Var(0))?;
    let r = term(alloc, TermNode::Var(0))?;
    let implicit = false;
    let once = term(
        alloc,
        TermNode::App {
            implicit,
            function: f,
            argument: r,
        },
    )?;
    let step = lambda(
        alloc,
        TermNode::NatTy,
        lambda(alloc, TermNode::UnitTy, once)?,
    )?;
    let number = numeral(alloc, 16)?;
    let body = term(alloc, TermNode::NatRec(motive, x, step, number))?;
    lambda(alloc, TermNode::UnitTy, body)
}

// the function of so many levels
fn function(alloc: Global, levels: u32) -> Result<Rc<Term>, NoMemory>
    ensures { IfOk result (λ t. t.value ≡ function levels) }
{
    let mut f = lambda(alloc, TermNode::UnitTy, term(alloc, TermNode::Var(0))?)?;
    for i in 0..levels {
        f = sixteen_times(alloc, f)?;
    }
    Ok(f)
}

// its call
fn call(alloc: Global, levels: u32) -> Result<Rc<Term>, NoMemory>
    ensures { IfOk result (λ t. t.value ≡ call levels) }
{
    let implicit = false;
    let function = function(alloc, levels)?;
    let argument = term(alloc, TermNode::Unit)?;
    term(
        alloc,
        TermNode::App {
            implicit,
            function,
            argument,
        },
    )
}

/// The normal form of the call of the function of so many levels, and the steps that are left. `Spent` where a step was to be taken
/// and none was left, `Deep` where one was left and the nest was used up.
pub fn normalised(alloc: Global, levels: u32, budget: Budget) -> Result<Written, EvalEnd>
    ensures { Answers result (λ w. Done w.term w.left) (normal_form budget.steps budget.nest (call levels)) }
{
    let t = call(alloc, levels)?;
    normalise(alloc, &Env::empty(), &t, 0, budget)
}
