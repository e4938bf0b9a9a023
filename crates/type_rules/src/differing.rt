//! Methods that have one name and different signatures (Go 1.17, "Interface types").
ghost use Rattle.std.specs.Prelude.{◌≡◌, ◌&&◌, ◌||◌, map};
ghost use Rattle.std.specs.Str.{bytes_eq};
ghost use Rattle.type_model.specs.GoTypes.{SignatureBelow, MethodsBelow};
ghost use Rattle.type_model.specs.Tables.{count, IsTable};
ghost use Rattle.type_rules.specs.Elements.{method_in};
ghost use Rattle.type_rules.specs.Joining.{same_names, differs, differs_among, clash};

use crate::copies::nth_method;
use gv_base::Text;
use same_types::same_signature;
use type_model::Method;
use typed_marks::State;

fn both(a: bool, b: bool) -> bool
    ensures { result ≡ (a && b) }
{
    a && b
}

pub fn either(a: bool, b: bool) -> bool
    ensures { result ≡ (a || b) }
{
    a || b
}

fn same_text(a: &Text, b: &Text) -> bool
    ensures { result ≡ bytes_eq a.now b.now }
{
    a.as_str() == b.as_str()
}

fn same_names(s: &State, a: &Method, b: &Method) -> bool
    ensures { result ≡ same_names (method_in s.now a.now) (method_in s.now b.now) }
{
    let _ = s;
    both(
        same_text(&a.name, &b.name),
        same_text(&a.package, &b.package),
    )
}

/// The methods have one name, and their signatures aren't identical.
fn differs(s: &State, a: &Method, b: &Method) -> bool
    requires table { IsTable s.now.table }
    requires first { SignatureBelow (count s.now.table) a.now.of }
    requires second { SignatureBelow (count s.now.table) b.now.of }
    ensures { result ≡ differs (method_in s.now a.now) (method_in s.now b.now) }
{
    let named = same_names(s, a, b);
    let signed = same_signature(&s.table, &a.of, &b.of);
    both(named, !signed)
}

fn differs_among(s: &State, others: &[Method], m: &Method) -> bool
    requires table { IsTable s.now.table }
    requires others { MethodsBelow (count s.now.table) others.now }
    requires of { SignatureBelow (count s.now.table) m.now.of }
    ensures { result ≡ differs_among (map (method_in s.now) others.now) (method_in s.now m.now) }
{
    let mut found = false;
    for i in 0..others.len() {
        let other = nth_method(others, i);
        found = either(found, differs(s, m, other));
    }
    found
}

/// One of the methods differs from another of its name.
pub fn clash(s: &State, others: &[Method], methods: &[Method]) -> bool
    requires table { IsTable s.now.table }
    requires others { MethodsBelow (count s.now.table) others.now }
    requires methods { MethodsBelow (count s.now.table) methods.now }
    ensures { result ≡ clash (map (method_in s.now) others.now) (map (method_in s.now) methods.now) }
{
    let mut found = false;
    for i in 0..methods.len() {
        let m = nth_method(methods, i);
        found = either(found, differs_among(s, others, m));
    }
    found
}
