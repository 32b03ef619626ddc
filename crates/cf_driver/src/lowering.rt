// The module of a sum.
ghost use Rattle.std.specs.Prelude.{◌≡◌, ◌↔◌, [], ◌∷◌, IfOk, IsTrue, codes, option_map};
ghost use Rattle.std.specs.String.{string_bytes};
ghost use Rattle.cf_driver.specs.Lowering.{AddsSum, FindsMain, Lowers, module_with};

use cf_tree::{Decl, Node, Op, Program, Tree};
use sqlite_items::Items;
use std::alloc::{AllocError, Global};
use wb_syntax::{Export, Exported, Func, FuncType, Instr, Module, Name, NumType};

/// The opcode of i64.add (WebAssembly Core 1.0, 5.4.5).
const I64_ADD: u8 = 0x7C;

// Whether the term is a sum. The instructions that leave it on the stack then stand behind those that are there.
fn push_code(out: &mut Items<Instr>, t: &Tree) -> Result<bool, AllocError>
    ensures { IfOk result (λ is. AddsSum t.now out.old out.new is) }
{
    match &t.node {
        Node::Lit(z) => {
            out.push(Instr::I64Const(*z))?;
            Ok(true)
        }
        Node::Prim(Op::Add, a, b) => {
            if !push_code(out, a)? || !push_code(out, b)? {
                return Ok(false);
            }
            out.push(Instr::Binary(I64_ADD))?;
            Ok(true)
        }
        _ => Ok(false),
    }
}

// Whether the name is `main`.
fn is_main(name: &String) -> bool
    ensures { IsTrue result ↔ (string_bytes name.now ≡ codes "main") }
{
    name.as_bytes() == b"main".as_slice()
}

// The body of `main`, where the program is `main : Int := body;` alone.
fn main_alone(p: &Program) -> Option<&Tree>
    ensures { FindsMain p.now (option_map (λ t. t.now) result) }
{
    if p.explicit || p.prelude || p.decls.len() != 1 {
        return None;
    }
    match &p.decls[0] {
        Decl::ObjectD { name, ty, body, .. } => {
            if is_main(name) && matches!(&ty.node, Node::IntTy) {
                Some(body)
            } else {
                None
            }
        }
        _ => None,
    }
}

// A list of one item.
fn only<T: Drop>(alloc: Global, item: T) -> Result<Items<T>, AllocError>
    ensures { IfOk result (λ items. items ≡ item ∷ []) }
{
    let mut items = Items::new(alloc);
    items.push(item)?;
    Ok(items)
}

// The module whose one function has this body, exported as `main`.
fn with_body(alloc: Global, body: Items<Instr>) -> Result<Module, AllocError>
    ensures { IfOk result (λ m. m ≡ module_with body) }
{
    let name = Name::new(String::from_str(alloc, "main")?);
    Ok(Module {
        types: only(
            alloc,
            FuncType {
                params: Items::new(alloc),
                result: Some(NumType::I64),
            },
        )?,
        funcs: only(
            alloc,
            Func {
                ty: 0,
                locals: Items::new(alloc),
                body,
            },
        )?,
        memories: Items::new(alloc),
        globals: Items::new(alloc),
        exports: only(
            alloc,
            Export {
                name,
                what: Exported::Func(0),
            },
        )?,
    })
}

/// The module of a program that is a sum, whose one function leaves the sum and is exported as `main`; `None` where the program is none.
pub fn lowered(alloc: Global, p: &Program) -> Result<Option<Module>, AllocError>
    ensures { IfOk result (λ m. Lowers p.now m) }
{
    let Some(sum) = main_alone(p) else {
        return Ok(None);
    };
    let mut body = Items::new(alloc);
    if !push_code(&mut body, sum)? {
        return Ok(None);
    }
    body.push(Instr::End)?;
    let module = with_body(alloc, body)?;
    Ok(Some(module))
}
