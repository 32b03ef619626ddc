// Terms: names become indices and numbers.
ghost use Rattle.std.specs.Prelude.{◌≡◌, [], ◌∷◌, length, None, Some, IfErr, IfOk, OnOk};
ghost use Rattle.cf_term.specs.Core.{nil, cons};
ghost use Rattle.cf_term.specs.View.{tm_of, heads, bodies, definitions as core_definitions};
ghost use Rattle.cf_tree.specs.declared.heads.Head.TheVariants as head;
ghost use Rattle.cf_tree.specs.Tree.{ConAt, DataAt, branch, none, part, tree};
ghost use Rattle.cf_tree.specs.View.{binder_of, binders_of, branches, definitions as definitions_of, one_each, variables};
ghost use Rattle.cf_elab.specs.Scope.{under as under_all};
ghost use Rattle.cf_elab.specs.Core as spec;
ghost use Rattle.cf_elab.specs.Kinds.{unary_head, binary_head, ternary_head, quaternary_head, binder_head, definer_head};
ghost use Rattle.cf_elab.specs.Refusals.{Refuses};
ghost use Rattle.cf_elab.specs.Resolving.{As};
ghost use Rattle.cf_elab.specs.Steps.{ReadsEach, ReadsForm, ReadsFront, ReadsParts, RefusesForm, RefusesFront, RefusesParts};

use crate::ends::NameEnd;
use crate::globals::Globals;
use crate::kinds::{Binary, Binder, Definer, Quaternary, Ternary, Unary};
use crate::scope::{
    Scope, ctor, data_type, hole, new_holes, number as number_of, numeral, variable,
};
use cf_term::{Term, TermNode};
use cf_tree::{Branch, Definition, Named, Node, Tree};
use std::alloc::Global;
use std::rc::Rc;

/// The term that a tree is: names become indices and numbers, and a hole or missing part the next hole.
#[cycle(terms)]
pub fn resolve<'a>(
    alloc: Global,
    g: &Globals,
    scope: &mut Scope<'a>,
    t: &'a Tree,
) -> Result<Term, NameEnd>
    ensures read { IfOk result (λ r. spec.resolve g.now scope.old.locals t.now scope.old.holes ≡ As r scope.new.holes) }
    ensures locals { OnOk result (scope.new.locals ≡ scope.old.locals) }
    ensures refused { IfErr result (λ e. Refuses (spec.resolve g.now scope.old.locals t.now scope.old.holes) e) }
{
    let node = form(alloc, g, scope, t)?;
    Ok(Term {
        inserted: false,
        node,
    })
}

// The outermost form of a tree, over its finished parts.
#[cycle(terms)]
fn form<'a>(
    alloc: Global,
    g: &Globals,
    scope: &mut Scope<'a>,
    t: &'a Tree,
) -> Result<TermNode, NameEnd>
    ensures read { IfOk result (λ r. spec.resolve g.now scope.old.locals t.now scope.old.holes ≡ As (tm_of r) scope.new.holes) }
    ensures locals { OnOk result (scope.new.locals ≡ scope.old.locals) }
    ensures refused { IfErr result (λ e. Refuses (spec.resolve g.now scope.old.locals t.now scope.old.holes) e) }
{
    match &t.node {
        Node::Var(name) => Ok(TermNode::Var(variable(g, &scope.locals, t.at, name)?)),
        Node::Hole | Node::Missing => Ok(TermNode::Hole(hole(&mut scope.holes)?)),
        Node::NatLit(count) => numeral(alloc, *count),
        Node::Lit(value) => Ok(TermNode::Lit(*value)),
        Node::MetaTy => Ok(TermNode::MetaTy),
        Node::ValTy => Ok(TermNode::ValTy),
        Node::CompTy => Ok(TermNode::CompTy),
        Node::Ty => Ok(TermNode::Ty),
        Node::UnitTy => Ok(TermNode::UnitTy),
        Node::Unit => Ok(TermNode::Unit),
        Node::BoolTy => Ok(TermNode::BoolTy),
        Node::True => Ok(TermNode::True),
        Node::False => Ok(TermNode::False),
        Node::NatTy => Ok(TermNode::NatTy),
        Node::Zero => Ok(TermNode::Zero),
        Node::IntTy => Ok(TermNode::IntTy),
        Node::Fst(t) => unary(alloc, g, scope, Unary::Fst, t),
        Node::Snd(t) => unary(alloc, g, scope, Unary::Snd, t),
        Node::Suc(t) => unary(alloc, g, scope, Unary::Suc, t),
        Node::ListTy(t) => unary(alloc, g, scope, Unary::ListTy, t),
        Node::Nil(t) => unary(alloc, g, scope, Unary::Nil, t),
        Node::Lift(t) => unary(alloc, g, scope, Unary::Lift, t),
        Node::Quote(t) => unary(alloc, g, scope, Unary::Quote, t),
        Node::V(t) => unary(alloc, g, scope, Unary::V, t),
        Node::C(t) => unary(alloc, g, scope, Unary::C, t),
        Node::Fail(t) => unary(alloc, g, scope, Unary::Fail, t),
        Node::Splice(t) => unary(alloc, g, scope, Unary::Splice, t),
        Node::App {
            implicit,
            function,
            argument,
        } => binary(alloc, g, scope, Binary::App(*implicit), function, argument),
        Node::Cons(t, u) => binary(alloc, g, scope, Binary::Cons, t, u),
        Node::Arr(t, u) => binary(alloc, g, scope, Binary::Arr, t, u),
        Node::OApp(t, u) => binary(alloc, g, scope, Binary::OApp, t, u),
        Node::Prim(op, t, u) => binary(alloc, g, scope, Binary::Prim(*op), t, u),
        Node::Pair(t, u, v) => ternary(alloc, g, scope, Ternary::Pair, t, u, v),
        Node::UnitRec(t, u, v) => ternary(alloc, g, scope, Ternary::UnitRec, t, u, v),
        Node::BoolRec(t, u, v, w) => quaternary(alloc, g, scope, Quaternary::BoolRec, t, u, v, w),
        Node::NatRec(t, u, v, w) => quaternary(alloc, g, scope, Quaternary::NatRec, t, u, v, w),
        Node::ListRec(t, u, v, w) => quaternary(alloc, g, scope, Quaternary::ListRec, t, u, v, w),
        Node::Pi {
            implicit,
            binder,
            domain,
            codomain,
        } => binding(
            alloc,
            g,
            scope,
            Binder::Pi(*implicit),
            binder,
            domain,
            codomain,
        ),
        Node::Lam {
            implicit,
            binder,
            domain,
            body,
        } => binding(
            alloc,
            g,
            scope,
            Binder::Lam(*implicit),
            binder,
            domain,
            body,
        ),
        Node::Sig {
            binder,
            first,
            second,
        } => binding(alloc, g, scope, Binder::Sig, binder, first, second),
        Node::OLam {
            binder,
            domain,
            body,
        } => binding(alloc, g, scope, Binder::OLam, binder, domain, body),
        Node::Let {
            binder,
            ty,
            value,
            body,
        } => defining(alloc, g, scope, Definer::Let, binder, ty, value, body),
        Node::LetV {
            binder,
            ty,
            value,
            body,
        } => defining(alloc, g, scope, Definer::LetV, binder, ty, value, body),
        Node::Data { name, params } => data(alloc, g, scope, name, params),
        Node::Con {
            name,
            params,
            fields,
        } => match params {
            Some(params) => con(alloc, g, scope, name, params, fields),
            None => con_at_holes(alloc, g, scope, name, fields),
        },
        Node::LetRec { definitions, body } => letrec(alloc, g, scope, definitions, body),
        Node::Case {
            scrutinee,
            ty,
            branches,
        } => case(alloc, g, scope, scrutinee, ty, branches),
    }
}

// a form with one part
#[cycle(terms)]
fn unary<'a>(
    alloc: Global,
    g: &Globals,
    scope: &mut Scope<'a>,
    kind: Unary,
    t: &'a Tree,
) -> Result<TermNode, NameEnd>
    ensures read { IfOk result (λ r. ReadsForm g.now scope.old.locals (unary_head kind) (part [] t.now none) scope.old.holes (tm_of r) scope.new.holes) }
    ensures locals { OnOk result (scope.new.locals ≡ scope.old.locals) }
    ensures refused { IfErr result (λ e. RefusesForm g.now scope.old.locals (unary_head kind) (part [] t.now none) scope.old.holes e) }
{
    let t = one(alloc, g, scope, t)?;
    Ok(kind.over(t))
}

// a form with two parts
#[cycle(terms)]
fn binary<'a>(
    alloc: Global,
    g: &Globals,
    scope: &mut Scope<'a>,
    kind: Binary,
    t: &'a Tree,
    u: &'a Tree,
) -> Result<TermNode, NameEnd>
    ensures read { IfOk result (λ r. ReadsForm g.now scope.old.locals (binary_head kind) (part [] t.now (part [] u.now none)) scope.old.holes (tm_of r) scope.new.holes) }
    ensures locals { OnOk result (scope.new.locals ≡ scope.old.locals) }
    ensures refused { IfErr result (λ e. RefusesForm g.now scope.old.locals (binary_head kind) (part [] t.now (part [] u.now none)) scope.old.holes e) }
{
    let (t, u) = two(alloc, g, scope, t, u)?;
    Ok(kind.over(t, u))
}

// a form with three parts
#[cycle(terms)]
fn ternary<'a>(
    alloc: Global,
    g: &Globals,
    scope: &mut Scope<'a>,
    kind: Ternary,
    t: &'a Tree,
    u: &'a Tree,
    v: &'a Tree,
) -> Result<TermNode, NameEnd>
    ensures read { IfOk result (λ r. ReadsForm g.now scope.old.locals (ternary_head kind) (part [] t.now (part [] u.now (part [] v.now none))) scope.old.holes (tm_of r) scope.new.holes) }
    ensures locals { OnOk result (scope.new.locals ≡ scope.old.locals) }
    ensures refused { IfErr result (λ e. RefusesForm g.now scope.old.locals (ternary_head kind) (part [] t.now (part [] u.now (part [] v.now none))) scope.old.holes e) }
{
    let (t, u, v) = three(alloc, g, scope, t, u, v)?;
    Ok(kind.over(t, u, v))
}

// a form with four parts
#[cycle(terms)]
fn quaternary<'a>(
    alloc: Global,
    g: &Globals,
    scope: &mut Scope<'a>,
    kind: Quaternary,
    t: &'a Tree,
    u: &'a Tree,
    v: &'a Tree,
    w: &'a Tree,
) -> Result<TermNode, NameEnd>
    ensures read { IfOk result (λ r. ReadsForm g.now scope.old.locals (quaternary_head kind) (part [] t.now (part [] u.now (part [] v.now (part [] w.now none)))) scope.old.holes (tm_of r) scope.new.holes) }
    ensures locals { OnOk result (scope.new.locals ≡ scope.old.locals) }
    ensures refused { IfErr result (λ e. RefusesForm g.now scope.old.locals (quaternary_head kind) (part [] t.now (part [] u.now (part [] v.now (part [] w.now none)))) scope.old.holes e) }
{
    let (t, u, v, w) = four(alloc, g, scope, t, u, v, w)?;
    Ok(kind.over(t, u, v, w))
}

// a form with the type of a variable, and a part under it
#[cycle(terms)]
fn binding<'a>(
    alloc: Global,
    g: &Globals,
    scope: &mut Scope<'a>,
    kind: Binder,
    binder: &'a Option<String>,
    t: &'a Tree,
    u: &'a Tree,
) -> Result<TermNode, NameEnd>
    ensures read { IfOk result (λ r. ReadsForm g.now scope.old.locals (binder_head kind) (part [] t.now (part (binder_of binder.now ∷ []) u.now none)) scope.old.holes (tm_of r) scope.new.holes) }
    ensures locals { OnOk result (scope.new.locals ≡ scope.old.locals) }
    ensures refused { IfErr result (λ e. RefusesForm g.now scope.old.locals (binder_head kind) (part [] t.now (part (binder_of binder.now ∷ []) u.now none)) scope.old.holes e) }
{
    let (t, u) = bound(alloc, g, scope, binder, t, u)?;
    Ok(kind.over(t, u))
}

// a form with the type of a variable, what it stands for, and a part under it
#[cycle(terms)]
fn defining<'a>(
    alloc: Global,
    g: &Globals,
    scope: &mut Scope<'a>,
    kind: Definer,
    binder: &'a Option<String>,
    t: &'a Tree,
    u: &'a Tree,
    v: &'a Tree,
) -> Result<TermNode, NameEnd>
    ensures read { IfOk result (λ r. ReadsForm g.now scope.old.locals (definer_head kind) (part [] t.now (part [] u.now (part (binder_of binder.now ∷ []) v.now none))) scope.old.holes (tm_of r) scope.new.holes) }
    ensures locals { OnOk result (scope.new.locals ≡ scope.old.locals) }
    ensures refused { IfErr result (λ e. RefusesForm g.now scope.old.locals (definer_head kind) (part [] t.now (part [] u.now (part (binder_of binder.now ∷ []) v.now none))) scope.old.holes e) }
{
    let t = child(alloc, g, scope, t)?;
    let (u, v) = bound(alloc, g, scope, binder, u, v)?;
    Ok(kind.over(t, u, v))
}

// a part of a form
#[cycle(terms)]
fn child<'a>(
    alloc: Global,
    g: &Globals,
    scope: &mut Scope<'a>,
    t: &'a Tree,
) -> Result<Rc<Term>, NameEnd>
    ensures read { IfOk result (λ r. spec.resolve g.now scope.old.locals t.now scope.old.holes ≡ As r.value scope.new.holes) }
    ensures locals { OnOk result (scope.new.locals ≡ scope.old.locals) }
    ensures refused { IfErr result (λ e. Refuses (spec.resolve g.now scope.old.locals t.now scope.old.holes) e) }
{
    let term = resolve(alloc, g, scope, t)?;
    Ok(Rc::new(alloc, term)?)
}

// a last part
#[cycle(terms)]
fn one<'a>(
    alloc: Global,
    g: &Globals,
    scope: &mut Scope<'a>,
    t: &'a Tree,
) -> Result<Rc<Term>, NameEnd>
    ensures read { IfOk result (λ r. ReadsParts g.now scope.old.locals (part [] t.now none) scope.old.holes (cons r.value nil) scope.new.holes) }
    ensures locals { OnOk result (scope.new.locals ≡ scope.old.locals) }
    ensures refused { IfErr result (λ e. RefusesParts g.now scope.old.locals (part [] t.now none) scope.old.holes e) }
{
    let t = child(alloc, g, scope, t)?;
    Ok(t)
}

// two last parts
#[cycle(terms)]
fn two<'a>(
    alloc: Global,
    g: &Globals,
    scope: &mut Scope<'a>,
    t: &'a Tree,
    u: &'a Tree,
) -> Result<(Rc<Term>, Rc<Term>), NameEnd>
    ensures read { IfOk result (λ r. ReadsParts g.now scope.old.locals (part [] t.now (part [] u.now none)) scope.old.holes (cons r.0.value (cons r.1.value nil)) scope.new.holes) }
    ensures locals { OnOk result (scope.new.locals ≡ scope.old.locals) }
    ensures refused { IfErr result (λ e. RefusesParts g.now scope.old.locals (part [] t.now (part [] u.now none)) scope.old.holes e) }
{
    let t = child(alloc, g, scope, t)?;
    let u = one(alloc, g, scope, u)?;
    Ok((t, u))
}

// three last parts
#[cycle(terms)]
fn three<'a>(
    alloc: Global,
    g: &Globals,
    scope: &mut Scope<'a>,
    t: &'a Tree,
    u: &'a Tree,
    v: &'a Tree,
) -> Result<(Rc<Term>, Rc<Term>, Rc<Term>), NameEnd>
    ensures read { IfOk result (λ r. ReadsParts g.now scope.old.locals (part [] t.now (part [] u.now (part [] v.now none))) scope.old.holes (cons r.0.value (cons r.1.value (cons r.2.value nil))) scope.new.holes) }
    ensures locals { OnOk result (scope.new.locals ≡ scope.old.locals) }
    ensures refused { IfErr result (λ e. RefusesParts g.now scope.old.locals (part [] t.now (part [] u.now (part [] v.now none))) scope.old.holes e) }
{
    let t = child(alloc, g, scope, t)?;
    let (u, v) = two(alloc, g, scope, u, v)?;
    Ok((t, u, v))
}

// a last part under one more variable
#[cycle(terms)]
fn under<'a>(
    alloc: Global,
    g: &Globals,
    scope: &mut Scope<'a>,
    binder: &'a Option<String>,
    t: &'a Tree,
) -> Result<Rc<Term>, NameEnd>
    ensures read { IfOk result (λ r. ReadsParts g.now scope.old.locals (part (binder_of binder.now ∷ []) t.now none) scope.old.holes (cons r.value nil) scope.new.holes) }
    ensures locals { OnOk result (scope.new.locals ≡ scope.old.locals) }
    ensures refused { IfErr result (λ e. RefusesParts g.now scope.old.locals (part (binder_of binder.now ∷ []) t.now none) scope.old.holes e) }
{
    scope.locals.push(binder)?;
    let t = child(alloc, g, scope, t)?;
    scope.locals.leave(1);
    Ok(t)
}

// a part, and a last one under one more variable
#[cycle(terms)]
fn bound<'a>(
    alloc: Global,
    g: &Globals,
    scope: &mut Scope<'a>,
    binder: &'a Option<String>,
    t: &'a Tree,
    u: &'a Tree,
) -> Result<(Rc<Term>, Rc<Term>), NameEnd>
    ensures read { IfOk result (λ r. ReadsParts g.now scope.old.locals (part [] t.now (part (binder_of binder.now ∷ []) u.now none)) scope.old.holes (cons r.0.value (cons r.1.value nil)) scope.new.holes) }
    ensures locals { OnOk result (scope.new.locals ≡ scope.old.locals) }
    ensures refused { IfErr result (λ e. RefusesParts g.now scope.old.locals (part [] t.now (part (binder_of binder.now ∷ []) u.now none)) scope.old.holes e) }
{
    let t = child(alloc, g, scope, t)?;
    let u = under(alloc, g, scope, binder, u)?;
    Ok((t, u))
}

// four last parts
#[cycle(terms)]
fn four<'a>(
    alloc: Global,
    g: &Globals,
    scope: &mut Scope<'a>,
    t: &'a Tree,
    u: &'a Tree,
    v: &'a Tree,
    w: &'a Tree,
) -> Result<(Rc<Term>, Rc<Term>, Rc<Term>, Rc<Term>), NameEnd>
    ensures read { IfOk result (λ r. ReadsParts g.now scope.old.locals (part [] t.now (part [] u.now (part [] v.now (part [] w.now none)))) scope.old.holes (cons r.0.value (cons r.1.value (cons r.2.value (cons r.3.value nil)))) scope.new.holes) }
    ensures locals { OnOk result (scope.new.locals ≡ scope.old.locals) }
    ensures refused { IfErr result (λ e. RefusesParts g.now scope.old.locals (part [] t.now (part [] u.now (part [] v.now (part [] w.now none)))) scope.old.holes e) }
{
    let t = child(alloc, g, scope, t)?;
    let (u, v, w) = three(alloc, g, scope, u, v, w)?;
    Ok((t, u, v, w))
}

// each of some parts
#[cycle(terms)]
fn all<'a>(
    alloc: Global,
    g: &Globals,
    scope: &mut Scope<'a>,
    ts: &'a Vec<Tree>,
) -> Result<Vec<Rc<Term>>, NameEnd>
    ensures read { IfOk result (λ r. ReadsEach g.now scope.old.locals ts.now.items scope.old.holes r.items scope.new.holes) }
    ensures count { IfOk result (λ r. length r.items ≡ length ts.now.items) }
    ensures locals { OnOk result (scope.new.locals ≡ scope.old.locals) }
    ensures refused { IfErr result (λ e. RefusesFront g.now scope.old.locals (one_each ts.now.items) scope.old.holes e) }
{
    let mut read = Vec::new(alloc);
    for t in ts {
        let t = child(alloc, g, scope, t)?;
        read.push(t)?;
    }
    Ok(read)
}

// a data type at its parameters
#[cycle(terms)]
fn data<'a>(
    alloc: Global,
    g: &Globals,
    scope: &mut Scope<'a>,
    name: &Named,
    params: &'a Vec<Tree>,
) -> Result<TermNode, NameEnd>
    ensures read { IfOk result (λ r. spec.resolve g.now scope.old.locals (tree name.now.at (DataAt name.now) (one_each params.now.items none)) scope.old.holes ≡ As (tm_of r) scope.new.holes) }
    ensures locals { OnOk result (scope.new.locals ≡ scope.old.locals) }
    ensures refused { IfErr result (λ e. Refuses (spec.resolve g.now scope.old.locals (tree name.now.at (DataAt name.now) (one_each params.now.items none)) scope.old.holes) e) }
{
    let number = data_type(g, name)?;
    let params = all(alloc, g, scope, params)?;
    Ok(TermNode::Data(number, params))
}

// a constructor at written parameters
#[cycle(terms)]
fn con<'a>(
    alloc: Global,
    g: &Globals,
    scope: &mut Scope<'a>,
    name: &Named,
    params: &'a Vec<Tree>,
    fields: &'a Vec<Tree>,
) -> Result<TermNode, NameEnd>
    ensures read { IfOk result (λ r. spec.resolve g.now scope.old.locals (tree name.now.at (ConAt name.now (Some (length params.now.items))) (one_each params.now.items (one_each fields.now.items none))) scope.old.holes ≡ As (tm_of r) scope.new.holes) }
    ensures locals { OnOk result (scope.new.locals ≡ scope.old.locals) }
    ensures refused { IfErr result (λ e. Refuses (spec.resolve g.now scope.old.locals (tree name.now.at (ConAt name.now (Some (length params.now.items))) (one_each params.now.items (one_each fields.now.items none))) scope.old.holes) e) }
{
    let number = ctor(g, name)?;
    let params = all(alloc, g, scope, params)?;
    let fields = all(alloc, g, scope, fields)?;
    Ok(TermNode::Con {
        data_type: number.data_type,
        ctor: number.ctor,
        params,
        fields,
    })
}

// a constructor whose parameters are left out
#[cycle(terms)]
fn con_at_holes<'a>(
    alloc: Global,
    g: &Globals,
    scope: &mut Scope<'a>,
    name: &Named,
    fields: &'a Vec<Tree>,
) -> Result<TermNode, NameEnd>
    ensures read { IfOk result (λ r. spec.resolve g.now scope.old.locals (tree name.now.at (ConAt name.now None) (one_each fields.now.items none)) scope.old.holes ≡ As (tm_of r) scope.new.holes) }
    ensures locals { OnOk result (scope.new.locals ≡ scope.old.locals) }
    ensures refused { IfErr result (λ e. Refuses (spec.resolve g.now scope.old.locals (tree name.now.at (ConAt name.now None) (one_each fields.now.items none)) scope.old.holes) e) }
{
    let number = ctor(g, name)?;
    let params = new_holes(alloc, &mut scope.holes, number.params)?;
    let fields = all(alloc, g, scope, fields)?;
    Ok(TermNode::Con {
        data_type: number.data_type,
        ctor: number.ctor,
        params,
        fields,
    })
}

// a part under the variables of these definitions
#[cycle(terms)]
fn below<'a>(
    alloc: Global,
    g: &Globals,
    scope: &mut Scope<'a>,
    definitions: &'a Vec<Definition>,
    t: &'a Tree,
) -> Result<Rc<Term>, NameEnd>
    ensures read { IfOk result (λ r. spec.resolve g.now (under_all (variables definitions.now.items) scope.old.locals) t.now scope.old.holes ≡ As r.value scope.new.holes) }
    ensures locals { OnOk result (scope.new.locals ≡ scope.old.locals) }
    ensures refused { IfErr result (λ e. Refuses (spec.resolve g.now (under_all (variables definitions.now.items) scope.old.locals) t.now scope.old.holes) e) }
{
    scope.locals.enter_definitions(definitions)?;
    let t = child(alloc, g, scope, t)?;
    scope.locals.leave(definitions.len());
    Ok(t)
}

// a definition, among all of its `letrec`
#[cycle(terms)]
fn define<'a>(
    alloc: Global,
    g: &Globals,
    scope: &mut Scope<'a>,
    definitions: &'a Vec<Definition>,
    definition: &'a Definition,
) -> Result<cf_term::Definition, NameEnd>
    ensures read { IfOk result (λ r. ReadsFront g.now scope.old.locals (λ us. part [] definition.now.ty.value (part (variables definitions.now.items) definition.now.value.value us)) scope.old.holes (λ p. (p.0, cons r.ty.value (cons r.value.value p.1))) scope.new.holes) }
    ensures locals { OnOk result (scope.new.locals ≡ scope.old.locals) }
    ensures refused { IfErr result (λ e. RefusesFront g.now scope.old.locals (λ us. part [] definition.now.ty.value (part (variables definitions.now.items) definition.now.value.value us)) scope.old.holes e) }
{
    let ty = child(alloc, g, scope, &definition.ty)?;
    let value = below(alloc, g, scope, definitions, &definition.value)?;
    Ok(cf_term::Definition { ty, value })
}

// the definitions of a `letrec`
#[cycle(terms)]
fn define_all<'a>(
    alloc: Global,
    g: &Globals,
    scope: &mut Scope<'a>,
    definitions: &'a Vec<Definition>,
) -> Result<Vec<cf_term::Definition>, NameEnd>
    ensures read { IfOk result (λ r. ReadsFront g.now scope.old.locals (definitions_of (variables definitions.now.items) definitions.now.items) scope.old.holes (λ p. (p.0, core_definitions r.items p.1)) scope.new.holes) }
    ensures locals { OnOk result (scope.new.locals ≡ scope.old.locals) }
    ensures refused { IfErr result (λ e. RefusesFront g.now scope.old.locals (definitions_of (variables definitions.now.items) definitions.now.items) scope.old.holes e) }
{
    let mut read = Vec::new(alloc);
    for definition in definitions {
        let definition = define(alloc, g, scope, definitions, definition)?;
        read.push(definition)?;
    }
    Ok(read)
}

// a `letrec`
#[cycle(terms)]
fn letrec<'a>(
    alloc: Global,
    g: &Globals,
    scope: &mut Scope<'a>,
    definitions: &'a Vec<Definition>,
    t: &'a Tree,
) -> Result<TermNode, NameEnd>
    ensures read { IfOk result (λ r. ReadsForm g.now scope.old.locals head.LetRec (definitions_of (variables definitions.now.items) definitions.now.items (part (variables definitions.now.items) t.now none)) scope.old.holes (tm_of r) scope.new.holes) }
    ensures locals { OnOk result (scope.new.locals ≡ scope.old.locals) }
    ensures refused { IfErr result (λ e. RefusesForm g.now scope.old.locals head.LetRec (definitions_of (variables definitions.now.items) definitions.now.items (part (variables definitions.now.items) t.now none)) scope.old.holes e) }
{
    let read = define_all(alloc, g, scope, definitions)?;
    let body = below(alloc, g, scope, definitions, t)?;
    Ok(TermNode::LetRec {
        definitions: read,
        body,
    })
}

// a branch of a `case`
#[cycle(terms)]
fn alternative<'a>(
    alloc: Global,
    g: &Globals,
    scope: &mut Scope<'a>,
    b: &'a Branch,
) -> Result<cf_term::Branch, NameEnd>
    ensures read { IfOk result (λ r. ReadsFront g.now scope.old.locals (branch b.now.ctor (binders_of b.now.names.items) b.now.body.value) scope.old.holes (λ p. (record { type = r.data_type; ctor = r.ctor; names = r.names } ∷ p.0, cons r.body.value p.1)) scope.new.holes) }
    ensures locals { OnOk result (scope.new.locals ≡ scope.old.locals) }
    ensures refused { IfErr result (λ e. RefusesFront g.now scope.old.locals (branch b.now.ctor (binders_of b.now.names.items) b.now.body.value) scope.old.holes e) }
{
    let number = ctor(g, &b.ctor)?;
    let names = number_of(b.names.len())?;
    scope.locals.enter(&b.names)?;
    let body = child(alloc, g, scope, &b.body)?;
    scope.locals.leave(b.names.len());
    Ok(cf_term::Branch {
        data_type: number.data_type,
        ctor: number.ctor,
        names,
        body,
    })
}

// the branches of a `case`
#[cycle(terms)]
fn alternatives<'a>(
    alloc: Global,
    g: &Globals,
    scope: &mut Scope<'a>,
    bs: &'a Vec<Branch>,
) -> Result<Vec<cf_term::Branch>, NameEnd>
    ensures read { IfOk result (λ r. spec.resolve_all g.now scope.old.locals (branches bs.now.items) scope.old.holes ≡ As (heads r.items, bodies r.items) scope.new.holes) }
    ensures locals { OnOk result (scope.new.locals ≡ scope.old.locals) }
    ensures refused { IfErr result (λ e. RefusesParts g.now scope.old.locals (branches bs.now.items) scope.old.holes e) }
{
    let mut read = Vec::new(alloc);
    for b in bs {
        let b = alternative(alloc, g, scope, b)?;
        read.push(b)?;
    }
    Ok(read)
}

// a `case`
#[cycle(terms)]
fn case<'a>(
    alloc: Global,
    g: &Globals,
    scope: &mut Scope<'a>,
    t: &'a Tree,
    u: &'a Tree,
    bs: &'a Vec<Branch>,
) -> Result<TermNode, NameEnd>
    ensures read { IfOk result (λ r. ReadsForm g.now scope.old.locals head.Case (part [] t.now (part [] u.now (branches bs.now.items))) scope.old.holes (tm_of r) scope.new.holes) }
    ensures locals { OnOk result (scope.new.locals ≡ scope.old.locals) }
    ensures refused { IfErr result (λ e. RefusesForm g.now scope.old.locals head.Case (part [] t.now (part [] u.now (branches bs.now.items))) scope.old.holes e) }
{
    let scrutinee = child(alloc, g, scope, t)?;
    let ty = child(alloc, g, scope, u)?;
    let branches = alternatives(alloc, g, scope, bs)?;
    Ok(TermNode::Case {
        scrutinee,
        ty,
        branches,
    })
}
