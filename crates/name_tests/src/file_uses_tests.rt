//! The small file's names and uses, worked out by hand.
use crate::sample::{SOURCE, sample};
use file_uses::read_locals;
use scopes::Named;
use std::test::Fail;

#[test]
fn a_type_and_a_use(rt: HostRuntime) -> Result<(), Fail> {
    let alloc = rt.alloc();
    let tree = sample(alloc)?;
    let locals = read_locals(alloc, SOURCE, &tree)?;
    let declared = Named {
        node: 4,
        start: 4,
        end: 8,
        soft: false,
    };
    assert_eq!(rt; locals.names.as_slice(), [declared].as_slice());
    assert_eq!(rt; locals.uses.len(), 8);
    assert!(rt; !locals.uses[0] && !locals.uses[4] && locals.uses[5]);
    assert_eq!(rt; locals.answers.as_slice(), [None; 8].as_slice());
    Ok(())
}
