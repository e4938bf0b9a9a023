//! In which declaration a call stands.
ghost use Rattle.std.specs.Prelude.{◌≡◌, Some, None, option_and_then, if◌then◌else◌};
ghost use Rattle.unit_read.specs.Units.{nodes_at, place_at};
ghost use Rattle.findings.specs.Passes.{unit_in, IsPass};
ghost use Rattle.vet_printf.specs.Forwards.{is_declaration, is_literal, above_from, declaration_of};

use findings::Pass;
use go_tree::{NodeKind, NodeRef};
use package_objects::kind_of;

fn is_declaration(kind: NodeKind) -> bool
    ensures { result ≡ is_declaration kind }
{
    matches!(kind, NodeKind::FuncDecl | NodeKind::MethodDecl)
}

fn is_literal(kind: NodeKind) -> bool
    ensures { result ≡ is_literal kind }
{
    matches!(kind, NodeKind::FuncLit)
}

/// The declaration around a node, with no literal between them.
fn above_from(p: &Pass, file: u32, most: usize, n: u32) -> Option<u32>
    requires { IsPass p.now }
    ensures { result ≡ above_from (unit_in p.now) file most n }
{
    if most == 0 {
        return None;
    }
    let at = NodeRef { file, node: n };
    match p.subject.place_at(at) {
        Some(place) => {
            let kind = kind_of(p.subject.nodes_at(file), place.around);
            if is_declaration(kind) {
                return Some(place.around);
            }
            if is_literal(kind) {
                return None;
            }
            above_from(p, file, most - 1, place.around)
        }
        None => None,
    }
}

/// The declaration in whose body a node stands, outside nested literals.
pub(crate) fn declaration_of(p: &Pass, file: u32, n: u32) -> Option<u32>
    requires { IsPass p.now }
    ensures { result ≡ declaration_of (unit_in p.now) file n }
{
    above_from(p, file, p.subject.nodes_at(file).len(), n)
}
