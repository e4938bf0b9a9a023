//! Names and methods once more.
ghost use Rattle.std.specs.Prelude.{◌≡◌, IfOk};

use gv_base::{NoMemory, Row};
use std::alloc::Global;
use type_model::{Method, Signature, TypeId, TypeName};

/// The same name again.
pub fn copied_name(alloc: Global, name: &TypeName) -> Result<TypeName, NoMemory>
    ensures { IfOk result (λ copy. copy ≡ name.now) }
{
    let package = name.package.copy(alloc)?;
    let text = name.name.copy(alloc)?;
    Ok(TypeName {
        package,
        name: text,
        local: name.local,
    })
}

fn copied_ids(alloc: Global, ids: &[TypeId]) -> Result<Row<TypeId>, NoMemory>
    ensures { IfOk result (λ copy. copy ≡ ids.now) }
{
    let mut out = Vec::with_capacity(alloc, ids.len())?;
    out.extend_from_slice(ids)?;
    Ok(Row::new(out))
}

/// The same signature again.
pub fn copied_signature(alloc: Global, of: &Signature) -> Result<Signature, NoMemory>
    ensures { IfOk result (λ copy. copy ≡ of.now) }
{
    let params = copied_ids(alloc, of.params.as_slice())?;
    let results = copied_ids(alloc, of.results.as_slice())?;
    Ok(Signature {
        params,
        results,
        variadic: of.variadic,
    })
}

fn copied_method(alloc: Global, method: &Method) -> Result<Method, NoMemory>
    ensures { IfOk result (λ copy. copy ≡ method.now) }
{
    let name = method.name.copy(alloc)?;
    let package = method.package.copy(alloc)?;
    let of = copied_signature(alloc, &method.of)?;
    Ok(Method {
        name,
        package,
        pointer: method.pointer,
        of,
    })
}

/// The same methods again.
pub fn copied_methods(alloc: Global, methods: &[Method]) -> Result<Vec<Method>, NoMemory>
    ensures { IfOk result (λ copy. copy.items ≡ methods.now) }
{
    let mut out = Vec::with_capacity(alloc, methods.len())?;
    for method in methods {
        let copy = copied_method(alloc, method)?;
        out.push(copy)?;
    }
    Ok(out)
}
