//! What the packages of imports export.
ghost use Rattle.std.specs.Prelude.{◌≡◌, Some, None, IfSome, length, slice_get, option_and_then};
ghost use Rattle.std.specs.Option.{option_copied};
ghost use Rattle.type_model.specs.GoTypes.{BasicType, types_of};
ghost use Rattle.typed_tree.specs.Basics.{Says};
ghost use Rattle.typed_tree.specs.Meanings.{Right};
ghost use Rattle.typed_tree.specs.Places.{use_mark};
ghost use Rattle.unit_read.specs.Imports.{package_mark, package_of, meaning_by, exported_of};
ghost use Rattle.unit_read.specs.Environments.{IsEnvironment, object_in};
ghost use Rattle.unit_read.specs.Subjects.{unit_of, IsRead};
ghost use Rattle.unit_read.specs.Exports.{member_of, used_lead, uses_in, IsUseIn, object_at, object_by, object_from, object_of};

use crate::environment::Environment;
use crate::first_names::find;
use crate::lead::Lead;
use crate::subject::Subject;
use go_tree::Object;
use gv_base::Kind;
use package_faces::{Exported, Interface};
use typed_tree::{Facts, Limit, Mark, Mode, basic};

/// A good mark of a basic type, without a value.
fn basic_mark(mode: Mode, kind: Kind) -> Mark
    ensures { Says result (Right (record { mode = mode; of = BasicType kind; value = None })) }
{
    Mark::Good(Facts {
        mode,
        of: basic(kind),
        value: None,
    })
}

/// The mark of a package.
fn package_mark() -> Mark
    ensures { Says result package_mark }
{
    basic_mark(Mode::Package, Kind::UntypedNil)
}

fn package_of(interface: Option<usize>) -> Mark
    ensures { Says result (package_of interface) }
{
    match interface {
        Some(_) => package_mark(),
        None => Mark::Silent,
    }
}

fn use_of(limit: Option<Limit>, interface: Option<usize>) -> Mark
    ensures { Says result (use_mark (Some (meaning_by limit interface))) }
{
    match limit {
        Some(_) => Mark::Silent,
        None => package_of(interface),
    }
}

/// The mark of a use of what an import leads to.
pub fn judge_lead(lead: Option<Lead>) -> Mark
    ensures { Says result (used_lead lead) }
{
    match lead {
        Some(lead) => use_of(lead.limit, lead.interface),
        None => Mark::Silent,
    }
}

fn interface_at(interfaces: &[Interface], i: usize) -> Option<&Interface>
    ensures { option_copied result ≡ slice_get interfaces.now i }
{
    interfaces.get(i)
}

fn nth(i: &Interface, j: usize) -> Option<&Exported>
    ensures { option_copied result ≡ slice_get i.now.objects j }
{
    i.objects.as_slice().get(j)
}

fn nth_of(i: &Interface, j: Option<usize>) -> Option<&Exported>
    ensures { option_copied result ≡ option_and_then (slice_get i.now.objects) j }
{
    match j {
        Some(j) => nth(i, j),
        None => None,
    }
}

fn member_of(env: &Environment, i: usize, name: &[u8]) -> Option<usize>
    ensures { IsEnvironment env.now → (interface : _) → slice_get env.now.interfaces.now i ≡ Some interface → result ≡ member_of name.now interface }
{
    match env.members.get(i) {
        Some(names) => find(names, name),
        None => None,
    }
}

/// The object of a name that the interface at a place has.
fn object_at<'a>(env: &Environment<'a>, name: &[u8], i: usize) -> Option<&'a Exported>
    requires { IsEnvironment env.now }
    ensures { option_copied result ≡ object_at env.now.interfaces.now name.now i }
{
    match interface_at(env.interfaces, i) {
        Some(interface) => nth_of(interface, member_of(env, i, name)),
        None => None,
    }
}

fn object_by<'a>(env: &Environment<'a>, name: &[u8], i: Option<usize>) -> Option<&'a Exported>
    requires { IsEnvironment env.now }
    ensures { option_copied result ≡ object_by env.now.interfaces.now name.now i }
{
    match i {
        Some(i) => object_at(env, name, i),
        None => None,
    }
}

fn object_from<'a>(env: &Environment<'a>, name: &[u8], lead: Option<Lead>) -> Option<&'a Exported>
    requires { IsEnvironment env.now }
    ensures { option_copied result ≡ object_from env.now.interfaces.now name.now lead }
{
    match lead {
        Some(lead) => object_by(env, name, lead.interface),
        None => None,
    }
}

fn object_for<'a>(s: &Subject<'a>, name: &[u8], object: Object) -> Option<&'a Exported>
    requires { IsRead s.now }
    ensures { option_copied result ≡ object_of s.now name.now (Some object) }
{
    match object {
        Object::Import(at) => object_from(s.env, name, s.lead_at(at)),
        Object::Universe(_) => None,
        Object::Local(_) => None,
        Object::Package(_) => None,
    }
}

fn object_of<'a>(s: &Subject<'a>, name: &[u8], object: Option<Object>) -> Option<&'a Exported>
    requires { IsRead s.now }
    ensures { option_copied result ≡ object_of s.now name.now object }
{
    match object {
        Some(object) => object_for(s, name, object),
        None => None,
    }
}

/// What the package that an object is has for a name, over the types of the environment.
pub fn exported_of<'a>(s: &Subject<'a>, name: &[u8], object: Option<Object>) -> Option<&'a Exported>
    requires { IsRead s.now }
    ensures is { uses_in (types_of s.now.env.now.types.now) (option_copied result) ≡ exported_of (unit_of s.now) name.now object }
    ensures within { IfSome (option_copied result) (IsUseIn (length s.now.env.now.types.now)) }
{
    object_of(s, name, object)
}
