//! The exported function `main`.

ghost use Rattle.std.specs.Prelude.{◌≡◌, ◌&&◌};
ghost use Rattle.wb_syntax.specs.Runs.{func_of, exported_func, main_name, all_i64, gives_i64, main_arity};
ghost use Rattle.wb_machine.specs.Entry.{FindsMain};

use wb_syntax::{Export, Exported, Func, FuncType, Module, NumType};

/// The function `main` with its index and its type.
#[derive(Drop)]
pub(crate) struct Entry<'a> {
    pub index: usize,
    pub func: &'a Func,
    pub ty: &'a FuncType,
}

/// The index of a function that is exported.
fn func_of(what: Exported) -> Option<u32>
    ensures { result ≡ func_of what }
{
    match what {
        Exported::Func(index) => Some(index),
        Exported::Memory(_) => None,
        Exported::Global(_) => None,
    }
}

/// The index of the function that is exported as `main`.
fn exported_main(exports: &[Export]) -> Option<u32>
    ensures { result ≡ exported_func main_name exports.now }
{
    for export in exports {
        if "main" == export.name.as_str() {
            return func_of(export.what);
        }
    }
    None
}

/// Whether all these types are i64.
fn all_i64(types: &[NumType]) -> bool
    ensures { result ≡ all_i64 types.now }
{
    for ty in types {
        match ty {
            NumType::I32 => return false,
            NumType::I64 => {}
        }
    }
    true
}

/// Whether there is a result, and it is an i64.
fn gives_i64(given: Option<NumType>) -> bool
    ensures { result ≡ gives_i64 given }
{
    match given {
        None => false,
        Some(NumType::I32) => false,
        Some(NumType::I64) => true,
    }
}

/// Whether this is the type of a `main`: any number of i64 to i64.
fn is_main_type(ty: &FuncType) -> bool
    ensures { result ≡ (all_i64 ty.now.params && gives_i64 ty.now.result) }
{
    all_i64(ty.params.as_slice()) && gives_i64(ty.result)
}

/// The exported function `main`, where its type is any number of i64 to i64.
pub(crate) fn find_main(m: &Module) -> Option<Entry<'_>>
    ensures { FindsMain m.now result }
{
    let Some(index) = exported_main(m.exports.as_slice()) else {
        return None;
    };
    let index = index as usize;
    let Some(func) = m.funcs.get(index) else {
        return None;
    };
    let Some(ty) = m.types.get(func.ty as usize) else {
        return None;
    };
    if !is_main_type(ty) {
        return None;
    }
    Some(Entry { index, func, ty })
}

/// How many parameters `main` has.
pub(crate) fn count_parameters(m: &Module) -> Option<usize>
    ensures { result ≡ main_arity m.now }
{
    match find_main(m) {
        None => None,
        Some(main) => Some(main.ty.params.len()),
    }
}
