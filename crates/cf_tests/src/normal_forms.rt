// Terms whose values, normal forms, steps and nests are known.
use crate::building::{DATA, body_below, last_body, number, term_of, three};
use crate::terms::FORMS;
use cf_eval::{Budget, EvalEnd, Written, evaluate, normalise, read_back};
use cf_term::{Term, TermNode, is_closed, same, size};
use cf_value::{Env, Value, ValueNode};
use std::alloc::Global;
use std::rc::Rc;
use std::test::Fail;

// A meta definition that takes no step.
const NONE: &str = "meta nothing : Unit := unit;";

// `power n x` is the code of a product of n factors x.
const POWER: &str =
    "meta power : Pi (n : Nat) -> Pi (x : ^(V Int)) -> ^(V Int) := \\(n : Nat). \\(x : ^(V Int)). natrec (\\(k : Nat). ^(V Int)) <1> (\\(k : Nat). \\(r : ^(V Int)). <mul ~x ~r>) n;";

// `after c` is code with a variable around c.
const AFTER: &str =
    "meta after : Pi (c : ^(V Int)) -> ^(V Int) := \\(c : ^(V Int)). <let y : V Int := 100; add y ~c>;";

// A meta definition by its name, the steps to the normal form of a term below it, the term, and its normal form, a row a line. A step is a
// reduction, and a node that is written:
// of `power` 2 applications; of `natrec` 1 step at zero, and at each successor 5: its own, 2 applications, 2 splices; the splice outside; 13
// nodes; of `after` one application, two splices and nine nodes; of a redex the step, and the nodes of what it becomes; of a recursor one at
// each constructor, with an application for each argument of its case.
const ROWS: &str =
    "power 42 § fn (x : Int). ~(power #5 <x>) § fn (x : Int). mul x (mul x (mul x (mul x (mul x 1))))
after 12 § fn (x : Int). ~(after <x>) § fn (x : Int). let y : V Int := 100; add y x
none 3 § (\\(x : Nat). suc x) #0 § #1
none 3 § mlet x : Nat := #0; suc x § #1
none 2 § fst (pair (Sig (x : Nat), Nat) #0 #1) § #0
none 3 § snd (pair (Sig (x : Nat), Nat) #0 #1) § #1
none 4 § unitrec (\\(u : Unit). Nat) #2 unit § #2
none 2 § boolrec (\\(b : Bool). Nat) #0 #1 true § #0
none 3 § boolrec (\\(b : Bool). Nat) #0 #1 false § #1
none 2 § natrec (\\(k : Nat). Nat) #0 (\\(k : Nat). \\(r : Nat). suc r) #0 § #0
none 6 § natrec (\\(k : Nat). Nat) #0 (\\(k : Nat). \\(r : Nat). suc r) #1 § #1
none 9 § natrec (\\(k : Nat). Nat) #0 (\\(k : Nat). \\(r : Nat). k) #2 § #1
none 2 § listrec (\\(l : List Nat). Nat) #0 (\\(x : Nat). \\(l : List Nat). \\(r : Nat). suc r) (nil Nat) § #0
none 7 § listrec (\\(l : List Nat). Nat) #0 (\\(x : Nat). \\(l : List Nat). \\(r : Nat). suc r) (cons #7 (nil Nat)) § #1
none 16 § listrec (\\(l : List Nat). List Nat) (nil Nat) (\\(x : Nat). \\(l : List Nat). \\(r : List Nat). cons x l) (cons #0 (cons #1 (nil Nat))) § cons #0 (cons #1 (nil Nat))
none 2 § ~<1> § 1
none 3 § <~<1>> § <1>
none 5 § fn (x : Int). add x 1 § fn (x : Int). add x 1";

// How normalising ends: by the steps that are left, where the normal form is as wanted.
type End = Result<Option<u64>, EvalEnd>;

// The normal form of a term whose one variable stands for the value of a closed definition that takes no step.
fn normal(alloc: Global, definition: &Term, t: &Term, budget: Budget) -> Result<Written, EvalEnd> {
    if is_closed(definition, 0) && is_closed(t, 1) {
        let none = Budget { steps: 0, nest: 0 };
        let e = evaluate(alloc, &Env::empty(), definition, 0, none)?;
        let Ok(value) = Rc::new(alloc, e.value) else {
            return Err(EvalEnd::NoMemory);
        };
        let env = Env::empty().push(alloc, value)?;
        normalise(alloc, &env, t, 0, budget)
    } else {
        Err(EvalEnd::NoMemory)
    }
}

fn end(alloc: Global, definition: &Term, t: &Term, budget: Budget, want: &Term) -> End {
    let written = normal(alloc, definition, t, budget)?;
    if same(&written.term, want) {
        Ok(Some(written.left))
    } else {
        Ok(None)
    }
}

// The same of texts: a declaration, a term below it, and a term for its normal form.
fn end_of(alloc: Global, above: &str, text: &str, want: &str, budget: Budget) -> Result<End, Fail> {
    let definition = last_body(alloc, above)?;
    let t = body_below(alloc, above, text)?;
    let want = body_below(alloc, above, want)?;
    Ok(end(alloc, &definition, &t, budget, &want))
}

// The definition with this name.
fn definition(name: &str) -> &'static str {
    match name {
        "power" => POWER,
        "after" => AFTER,
        _ => NONE,
    }
}

// the number of steps is exact: by one less there is no normal form
fn is_normal_form(alloc: Global, row: &str) -> Result<bool, Fail> {
    let (front, text, want) = three(row)?;
    let (name, steps) = front.split_once(' ').ok_or("no steps")?;
    let steps = u64::from(number(steps)?);
    let nest = 250;
    let above = definition(name);
    let exact = end_of(alloc, above, text, want, Budget { steps, nest })?;
    let steps = steps.saturating_sub(1);
    let short = end_of(alloc, above, text, want, Budget { steps, nest })?;
    Ok(exact == Ok(Some(0)) && short == Err(EvalEnd::Spent))
}

#[test]
fn terms_have_normal_forms(rt: HostRuntime) -> Result<(), Fail> {
    for row in ROWS.lines() {
        assert!(rt; is_normal_form(rt.alloc(), row)?, "{row}");
    }
    Ok(())
}

// How a term below lambdas for its variables is normalised to itself with a step for each of its nodes and no nest.
fn end_of_form(alloc: Global, text: &str) -> Result<End, Fail> {
    let above = format!(in alloc; "{DATA} {NONE}")?;
    let program = format!(in alloc;
        "\\(z : Int). \\(d : z). \\(c : d). \\(b : c). \\(a : b). {text}"
    )?;
    let definition = last_body(alloc, above.as_str())?;
    let t = body_below(alloc, above.as_str(), program.as_str())?;
    let budget = Budget {
        steps: size(&t),
        nest: 0,
    };
    Ok(end(alloc, &definition, &t, budget, &t))
}

// all forms but `mlet`
fn is_read_back(alloc: Global, row: &str) -> Result<bool, Fail> {
    let (_, _, text) = three(row)?;
    Ok(text.contains("mlet") || end_of_form(alloc, text)? == Ok(Some(0)))
}

#[test]
fn forms_are_read_back(rt: HostRuntime) -> Result<(), Fail> {
    for row in FORMS.lines() {
        assert!(rt; is_read_back(rt.alloc(), row)?, "{row}");
    }
    Ok(())
}

// the second application is open while the recursor's step is, so the nest has to be two
#[test]
fn the_nest_of_a_recursion(rt: HostRuntime) -> Result<(), Fail> {
    let text = "natrec (\\(k : Nat). Nat) #0 (\\(k : Nat). \\(r : Nat). suc r) #1";
    for (nest, want) in [(1, Err(EvalEnd::Deep)), (2, Ok(Some(94)))] {
        let budget = Budget { steps: 100, nest };
        let found = end_of(rt.alloc(), NONE, text, "#1", budget)?;
        assert_eq!(rt; found, want, "a nest of {nest}");
    }
    Ok(())
}

// Whether a term in a context of one variable has this variable as its value, with no step, and it is read back by one step.
fn is_the_variable(alloc: Global, t: &Term) -> Result<bool, EvalEnd> {
    let Ok(level) = Rc::new(alloc, Value::level(0)) else {
        return Err(EvalEnd::NoMemory);
    };
    let env = Env::empty().push(alloc, level)?;
    if is_closed(t, 1) {
        let none = Budget { steps: 0, nest: 0 };
        let e = evaluate(alloc, &env, t, 1, none)?;
        let one = Budget { steps: 1, nest: 0 };
        let w = read_back(alloc, &e.value, 1, one)?;
        let read = matches!(w.term.node, TermNode::Var(0));
        Ok(matches!(e.value.node, ValueNode::Level(0)) && read && w.left == 0)
    } else {
        Ok(false)
    }
}

#[test]
fn a_quote_of_a_splice_takes_no_step(rt: HostRuntime) -> Result<(), Fail> {
    let t = body_below(rt.alloc(), "x : Int := 0;", "<~x>")?;
    assert!(rt; matches!(is_the_variable(rt.alloc(), &t), Ok(true)));
    Ok(())
}

// Terms below four declarations, and the least number of variables of a context where they stand.
const CLOSED: [(&str, u32); 6] = [
    ("\\(x : d). c x", 4),
    ("\\(x : c). d x", 4),
    ("\\(x : c). b x", 3),
    ("case a : Int of { no . b | yes . a }", 2),
    ("fn (x : Int). x a", 1),
    ("\\(x : Int). fn (y : x). y x", 0),
];

fn least_context(alloc: Global, text: &str) -> Result<Option<u32>, Fail> {
    let t = term_of(alloc, "dcba", text)?;
    for variables in 0..5 {
        if is_closed(&t, variables) {
            return Ok(Some(variables));
        }
    }
    Ok(None)
}

#[test]
fn closed_terms(rt: HostRuntime) -> Result<(), Fail> {
    for (text, least) in &CLOSED {
        let found = least_context(rt.alloc(), text)?;
        assert_eq!(rt; found, Some(*least), "{text}");
    }
    Ok(())
}
