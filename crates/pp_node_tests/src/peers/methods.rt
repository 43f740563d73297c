// The four ways to name chunks. Chunk 0 is zeros in each of them, as a bin of 4 or 8 bytes or as the two ends of a range.
use super::*;

// The store of `abc`, whose descriptor and options name this way, in which a chunk has so many bytes.
fn serves_by(
    rt: &impl Abort,
    alloc: Global,
    method: Method,
    number: u8,
    size: usize,
) -> Result<(), Fail> {
    let described = format!(in alloc;
        "ppspp1:ba7816bf8f01cfea414140de5dae2223b00361a396177a9cb410ff61f20015ad:1024:3:{number}"
    )?;
    let zeros = [0; 16];
    let name = front(&zeros, size);
    let options = joined(
        alloc,
        &[
            &[0, 1, 1, 1, 2, 0, 0x20],
            &ROOT,
            &[3, 1, 4, 2, 6, number, 8, 2, 0xfe, 0xf8, 9, 0, 0, 4, 0, 0xff],
        ],
    )?;
    let mut coming = Coming::none(alloc)?;
    coming.add(&[&GREETING, &options])?;
    coming.add(&[&OURS, &[8], name])?;
    let ran = coming.seed_as(
        &described,
        method,
        &mut MemoryDisk::new(alloc, &store_of_abc())?,
    )?;
    assert_eq!(rt; ran.status, 0, "method {number}");
    assert_eq!(rt; ran.link.sent(), 3, "method {number}");
    assert!(rt;
        ran.has_sent(0, &[&ANSWER, &options, &[3], name])?,
        "method {number}"
    );
    let time = (BEGIN + 1).to_be_bytes();
    assert!(rt;
        ran.has_sent(1, &[&THEIRS, &[4], name, &ROOT, &[1], name, &time, b"abc"])?,
        "method {number}"
    );
    assert_eq!(rt; ran.serves, Some(true), "method {number}");
    Ok(())
}

#[test]
fn serves_by_each_method(rt: HostRuntime) -> Result<(), Fail> {
    let alloc = rt.alloc();
    serves_by(&rt, alloc, Method::Bin32, 0, 4)?;
    serves_by(&rt, alloc, Method::Range32, 2, 8)?;
    serves_by(&rt, alloc, Method::Bin64, 3, 8)?;
    serves_by(&rt, alloc, Method::Range64, 4, 16)
}
