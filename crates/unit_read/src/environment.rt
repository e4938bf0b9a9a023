//! The packages to which imports lead.
ghost use Rattle.std.specs.Prelude.{◌≡◌, ◌<◌, ℕ, List, IfOk, Some, slice_get, map, length};
ghost use Rattle.package_faces.specs.Interfaces.{faces_of, AreInterfacesIn};
ghost use Rattle.type_model.specs.GoTypes.{GoType, types_of};
ghost use Rattle.go_tree.specs.Lexeme.{place_of};
ghost use Rattle.unit_read.specs.Environments.{interface_paths, names_of, ListsMembers, IsMember, IsEnvironment};
ghost use Rattle.unit_read.specs.Imports.{paths_of};
ghost use Rattle.unit_read.specs.Index.{texts_of, found};

use crate::first_names::index;
use crate::seen::SeenTypes;
use gv_base::NoMemory;
use package_faces::{Exported, Interface};
use std::alloc::Global;
use std::collections::HashMap;
use type_model::Term;

/// The interfaces, by path, and the objects of each, by name. For clauses alone the types by whose numbers they say what they export: what is
/// seen of the packages stays the same while the table of a package grows.
#[derive(Drop)]
pub struct Environment<'a> {
    pub interfaces: &'a [Interface],
    pub types: SeenTypes,
    pub paths: HashMap<&'a [u8], usize>,
    pub members: Vec<HashMap<&'a [u8], usize>>,
}

/// The paths of the interfaces.
fn path_list(alloc: Global, interfaces: &[Interface]) -> Result<Vec<&[u8]>, NoMemory>
    ensures { IfOk result (λ list. texts_of list.items ≡ interface_paths interfaces.now) }
{
    let mut list = Vec::with_capacity(alloc, interfaces.len())?;
    for interface in interfaces {
        list.push(interface.path.as_str().as_bytes())?;
    }
    Ok(list)
}

/// The interfaces, by path.
pub fn path_index(
    alloc: Global,
    interfaces: &[Interface],
) -> Result<HashMap<&[u8], usize>, NoMemory>
    ensures { IfOk result (λ paths. (types : List GoType) (q : List ℕ) → found paths q ≡ place_of (paths_of (faces_of types interfaces.now)) q) }
{
    let list = path_list(alloc, interfaces)?;
    let paths = index(alloc, &list)?;
    Ok(paths)
}

/// The names of some objects.
fn name_list(alloc: Global, objects: &[Exported]) -> Result<Vec<&[u8]>, NoMemory>
    ensures { IfOk result (λ list. texts_of list.items ≡ names_of objects.now) }
{
    let mut list = Vec::with_capacity(alloc, objects.len())?;
    for object in objects {
        list.push(object.name.as_str().as_bytes())?;
    }
    Ok(list)
}

/// The objects of an interface, by name.
fn members_of(alloc: Global, interface: &Interface) -> Result<HashMap<&[u8], usize>, NoMemory>
    ensures { IfOk result (λ names. IsMember interface.now names) }
{
    let list = name_list(alloc, interface.objects.as_slice())?;
    let names = index(alloc, &list)?;
    Ok(names)
}

/// The objects of each interface, by name.
fn all_members(
    alloc: Global,
    interfaces: &[Interface],
) -> Result<Vec<HashMap<&[u8], usize>>, NoMemory>
    ensures { IfOk result (λ rows. ListsMembers interfaces.now (length interfaces.now) rows.items) }
{
    let mut rows = Vec::new(alloc);
    for at in 0..interfaces.len() {
        let names = members_of(alloc, &interfaces[at])?;
        rows.push(names)?;
    }
    Ok(rows)
}

impl<'a> Environment<'a> {
    ghost use Rattle.unit_read.specs.Environments.{IsEnvironment as IsOne};

    /// Reads the interfaces, whose numbers are those of these types.
    #[tactic(auto, unfolding(crate::specs::Environments::faces_in))]
    pub fn new(
        alloc: Global,
        interfaces: &'a [Interface],
        types: &[Term],
    ) -> Result<Environment<'a>, NoMemory>
        requires { AreInterfacesIn (length types.now) (types_of types.now) interfaces.now }
        ensures read { IfOk result (λ env. IsOne env) }
        ensures of { IfOk result (λ env. env.interfaces.now ≡ interfaces.now) }
        ensures types { IfOk result (λ env. env.types.now ≡ types.now) }
    {
        let paths = path_index(alloc, interfaces)?;
        let members = all_members(alloc, interfaces)?;
        Ok(Environment {
            interfaces,
            types: SeenTypes::new(types),
            paths,
            members,
        })
    }
}
