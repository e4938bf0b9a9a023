//! Types of a table are one exactly where their numbers are.
ghost use Rattle.std.specs.Prelude.{◌≡◌, ◌&&◌, ◌<◌, Some, length, slice_get};
ghost use Rattle.type_model.specs.GoTypes.{type_at, types_at, signature_of, AreBelow, SignatureBelow};
ghost use Rattle.type_model.specs.Tables.{types_in, count, IsTable};
ghost use Rattle.same_types.specs.Same.{same_truth, same_type, same_types, same_signature};

use type_model::{Signature, TypeId, TypeTable};

/// The types are one.
pub fn same_type(t: &TypeTable, a: TypeId, b: TypeId) -> bool
    requires table { IsTable t.now }
    requires first { a.0 < count t.now }
    requires second { b.0 < count t.now }
    ensures { result ≡ same_type (type_at (types_in t.now) a) (type_at (types_in t.now) b) }
{
    t.same(a, b)
}

fn both(a: bool, b: bool) -> bool
    ensures { result ≡ (a && b) }
{
    a && b
}

fn nth(list: &[TypeId], i: usize) -> TypeId
    requires { i < length list.now }
    ensures { slice_get list.now i ≡ Some result }
{
    list[i]
}

/// Lists of one length.
fn same_all(t: &TypeTable, a: &[TypeId], b: &[TypeId]) -> bool
    requires table { IsTable t.now }
    requires first { AreBelow (count t.now) a.now }
    requires second { AreBelow (count t.now) b.now }
    requires long { length a.now ≡ length b.now }
    ensures { result ≡ same_types (types_at (types_in t.now) a.now) (types_at (types_in t.now) b.now) }
{
    let mut same = true;
    for i in 0..a.len() {
        let x = nth(a, i);
        let y = nth(b, i);
        same = both(same, same_type(t, x, y));
    }
    same
}

fn same_types(t: &TypeTable, a: &[TypeId], b: &[TypeId]) -> bool
    requires table { IsTable t.now }
    requires first { AreBelow (count t.now) a.now }
    requires second { AreBelow (count t.now) b.now }
    ensures { result ≡ same_types (types_at (types_in t.now) a.now) (types_at (types_in t.now) b.now) }
{
    if a.len() == b.len() {
        same_all(t, a, b)
    } else {
        false
    }
}

fn same_truth(a: bool, b: bool) -> bool
    ensures { result ≡ same_truth a b }
{
    if a { b } else { !b }
}

/// The signatures are one.
pub fn same_signature(t: &TypeTable, a: &Signature, b: &Signature) -> bool
    requires table { IsTable t.now }
    requires first { SignatureBelow (count t.now) a.now }
    requires second { SignatureBelow (count t.now) b.now }
    ensures { result ≡ same_signature (signature_of (types_in t.now) a.now) (signature_of (types_in t.now) b.now) }
{
    let params = same_types(t, a.params.as_slice(), b.params.as_slice());
    let results = same_types(t, a.results.as_slice(), b.results.as_slice());
    let truth = same_truth(a.variadic, b.variadic);
    both(params, both(results, truth))
}
