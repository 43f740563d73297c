// Runs that end before their first turn.
use super::*;
use pp_outside::Call;

#[test]
fn says_that_the_link_refuses_to_listen(rt: HostRuntime) -> Result<(), Fail> {
    let alloc = rt.alloc();
    let store = store_of_abc();
    for image in [store.as_slice(), &[]] {
        let mut disk = MemoryDisk::new(alloc, image)?;
        let mut coming = Coming::greeting(alloc)?;
        coming.link.fail_next(Call::Bind);
        let ran = coming.seed(&mut disk)?;
        assert_eq!(rt; ran.status, 5);
        assert_eq!(rt; ran.sink.bytes(), b"link fault\n".as_slice());
        // nothing came, was sent or written
        assert_eq!(rt; ran.link.marks(), 0);
        assert_eq!(rt; disk.bytes(), image);
    }
    Ok(())
}

#[test]
fn says_that_the_disk_refuses_to_sync(rt: HostRuntime) -> Result<(), Fail> {
    let alloc = rt.alloc();
    let store = store_of_abc();
    for image in [store.as_slice(), &[]] {
        let mut disk = MemoryDisk::new(alloc, image)?;
        disk.fail_next(Call::Sync);
        let ran = Coming::greeting(alloc)?.seed(&mut disk)?;
        assert_eq!(rt; ran.status, 4);
        assert_eq!(rt; ran.sink.bytes(), b"disk fault\n".as_slice());
        assert_eq!(rt; ran.link.marks(), 0);
    }
    Ok(())
}

#[test]
fn names_the_byte_of_another_file(rt: HostRuntime) -> Result<(), Fail> {
    let alloc = rt.alloc();
    let mut image = store_of_abc();
    image[7] = b'1';
    let mut disk = MemoryDisk::new(alloc, &image)?;
    let ran = Coming::greeting(alloc)?.seed(&mut disk)?;
    assert_eq!(rt; ran.status, 2);
    assert_eq!(rt;
        ran.sink.bytes(),
        b"not a store: byte 7 is 49, wanted 50\n".as_slice()
    );
    assert_eq!(rt; ran.link.marks(), 0);
    assert_eq!(rt; disk.bytes(), image.as_slice());
    Ok(())
}
