//! What is settled in a small net, and in a long chain of things.
ghost use Rattle.std.specs.Prelude.{◌≡◌, ◌+◌, ◌<◌, ◌++◌, ◌∷◌, [], All, OnOk};
ghost use Rattle.settled.specs.Nets.{IsNet, size};

use gv_base::NoMemory;
use settled::Net;
use std::test::Fail;

/// One thing more, with room for it and for one wait more.
fn add(net: &mut Net, blocked: bool, parts: &[usize]) -> Result<(), NoMemory>
    requires net { IsNet net.old }
    requires below { All (λ p. p < size net.old) parts.now }
    ensures net { IsNet net.new }
    ensures size { OnOk result (size net.new ≡ size net.old + 1) }
    ensures blocked { OnOk result (net.new.marks.blocked.items ≡ net.old.marks.blocked.items ++ blocked ∷ []) }
{
    net.reserve(parts.len())?;
    net.push(blocked, parts);
    Ok(())
}

#[test]
fn a_thing_is_settled_once_its_parts_are(rt: HostRuntime) -> Result<(), Fail> {
    let mut net = Net::new(rt.alloc());
    add(&mut net, false, &[])?;
    add(&mut net, true, &[])?;
    add(&mut net, false, &[0, 1, 1])?;
    add(&mut net, false, &[2])?;
    add(&mut net, true, &[0])?;
    assert!(rt; net.is_settled(0));
    assert!(rt; !net.is_settled(1));
    assert!(rt; !net.is_settled(2));
    assert!(rt; !net.is_settled(3));
    net.reserve(1)?;
    net.unblock(1, 0);
    assert!(rt; net.is_settled(1));
    assert!(rt; net.is_settled(2));
    assert!(rt; net.is_settled(3));
    assert!(rt; !net.is_settled(4));
    Ok(())
}
