//! How the parts of type expressions and declarations are read.
ghost use Rattle.std.specs.Prelude.{◌≡◌};
ghost use Rattle.decl_rules.specs.Rules.{at_slot, decl_reads};

use go_tree::NodeKind;
use rule_words::How;

fn at_slot(i: usize, how: How, slot: usize) -> Option<How>
    ensures { result ≡ at_slot i how slot }
{
    if slot == i { Some(how) } else { None }
}

/// How the part in a slot is read; None where it is no part of the rule.
pub fn decl_reads(kind: NodeKind, slot: usize) -> Option<How>
    ensures { result ≡ decl_reads kind slot }
{
    match kind {
        NodeKind::SliceType => Some(How::Type),
        NodeKind::ArrayType => Some(How::Type),
        NodeKind::MapType => Some(How::Type),
        NodeKind::ChanType => Some(How::Type),
        NodeKind::SendChan => Some(How::Type),
        NodeKind::RecvChan => Some(How::Type),
        NodeKind::Params => Some(How::Type),
        NodeKind::Variadic => Some(How::Type),
        NodeKind::StructType => Some(How::Type),
        NodeKind::InterfaceType => Some(How::TypeAndUnder),
        NodeKind::Embedded => Some(How::Type),
        NodeKind::EmbeddedPointer => Some(How::Type),
        NodeKind::Param => at_slot(1, How::Type, slot),
        NodeKind::SpreadParam => at_slot(1, How::Type, slot),
        NodeKind::Field => at_slot(1, How::Type, slot),
        NodeKind::ConstTyped => at_slot(1, How::TypeAndUnder, slot),
        _ => None,
    }
}
