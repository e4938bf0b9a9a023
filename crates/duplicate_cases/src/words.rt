//! Words of the rule.
ghost use Rattle.std.specs.Prelude.{◌≡◌};
ghost use Rattle.package_objects.specs.Declares.{is_list};
ghost use Rattle.duplicate_cases.specs.Duplicates.{is_type_list, is_switch, is_type_switch};

use go_tree::NodeKind;

pub(crate) fn is_list(kind: NodeKind) -> bool
    ensures { result ≡ is_list kind }
{
    matches!(kind, NodeKind::Names | NodeKind::Exprs)
}

pub(crate) fn is_type_list(kind: NodeKind) -> bool
    ensures { result ≡ is_type_list kind }
{
    matches!(kind, NodeKind::TypeList)
}

pub(crate) fn is_switch(kind: NodeKind) -> bool
    ensures { result ≡ is_switch kind }
{
    matches!(kind, NodeKind::Switch | NodeKind::TypeSwitch)
}

pub(crate) fn is_type_switch(kind: NodeKind) -> bool
    ensures { result ≡ is_type_switch kind }
{
    matches!(kind, NodeKind::TypeSwitch)
}
