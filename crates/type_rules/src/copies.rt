//! Copies of signatures and methods.
ghost use Rattle.std.specs.Prelude.{◌≡◌, ◌<◌, Some, IfOk, length, slice_get};

use gv_base::{NoMemory, Row};
use std::alloc::Global;
use type_model::{Method, Signature, TypeId};

pub fn types_copied(alloc: Global, list: &[TypeId]) -> Result<Vec<TypeId>, NoMemory>
    ensures { IfOk result (λ copy. copy.items ≡ list.now) }
{
    let copy = list.to_vec(alloc)?;
    Ok(copy)
}

pub fn signature_copied(alloc: Global, of: &Signature) -> Result<Signature, NoMemory>
    ensures { IfOk result (λ copy. copy ≡ of.now) }
{
    let params = types_copied(alloc, of.params.as_slice())?;
    let results = types_copied(alloc, of.results.as_slice())?;
    Ok(Signature {
        params: Row::new(params),
        results: Row::new(results),
        variadic: of.variadic,
    })
}

pub fn method_copied(alloc: Global, of: &Method) -> Result<Method, NoMemory>
    ensures { IfOk result (λ copy. copy ≡ of.now) }
{
    let name = of.name.copy(alloc)?;
    let package = of.package.copy(alloc)?;
    let signature = signature_copied(alloc, &of.of)?;
    Ok(Method {
        name,
        package,
        pointer: of.pointer,
        of: signature,
    })
}

pub fn nth_method(methods: &[Method], i: usize) -> &Method
    requires { i < length methods.now }
    ensures { slice_get methods.now i ≡ Some result.now }
{
    &methods[i]
}
