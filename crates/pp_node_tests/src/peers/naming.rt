// A store that is seeded by the name of its swarm, without the size, which the store's header tells.
use super::{BEGIN, Coming, OURS, REQUEST};
use crate::commands::{NAME_OF_ABC, NAME_OF_SEVEN, seven_saying, store_of_abc};
use pp_outside::MemoryDisk;
use pp_tree::Method;
use std::test::Fail;

#[test]
fn serves_by_name(rt: HostRuntime) -> Result<(), Fail> {
    let mut disk = MemoryDisk::new(rt.alloc(), &store_of_abc())?;
    let mut coming = Coming::greeting(rt.alloc())?;
    coming.add(&[&OURS, &REQUEST])?;
    let ran = coming.seed_as(NAME_OF_ABC, Method::Range32, &mut disk)?;
    assert_eq!(rt; ran.status, 0);
    assert!(rt; ran.has_served(1, BEGIN + 1)?);
    assert_eq!(rt; ran.serves, Some(true));
    Ok(())
}

// The store says another size than its tree: nothing is sent or waited for.
#[test]
fn serves_nothing_of_another_size(rt: HostRuntime) -> Result<(), Fail> {
    let mut disk = MemoryDisk::new(rt.alloc(), &seven_saying(rt.alloc(), 6000)?)?;
    let coming = Coming::greeting(rt.alloc())?;
    let ran = coming.seed_as(NAME_OF_SEVEN, Method::Range32, &mut disk)?;
    assert_eq!(rt; ran.status, 13);
    assert_eq!(rt; ran.link.marks(), 0);
    assert_eq!(rt; ran.sink.bytes(), b"shape: node 0 6\n".as_slice());
    Ok(())
}
