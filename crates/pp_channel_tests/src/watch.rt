//! Devices that were watched: what code that knows them by their traits did to them.
ghost use Rattle.std.specs.Prelude.{◌≡◌};
ghost use Rattle.pp_watch.specs.Done as done;
ghost use Rattle.pp_watch.specs.Sent as sent;

use pp_outside::{Address, Call, Disk, Link, MemoryDisk, MemoryLink};
use pp_watch::{Before, WatchedDisk, WatchedLink};
use std::marker::Brand;
use std::test::*;

// Attaches a disk, and writes three bytes, twice, and then syncs; whether each of these was done.
fn fill<D: Disk>(disk: &mut D) -> [bool; 4] {
    [
        disk.attach("store").is_ok(),
        disk.write_at(0, &[1, 2, 3]).is_ok(),
        disk.write_at(3, &[4, 5, 6]).is_ok(),
        disk.sync().is_ok(),
    ]
}

fn filled<B: Before>(disk: MemoryDisk) -> (MemoryDisk, [bool; 4])
    requires { B.disk ≡ done.as_before disk }
    ensures { done.IsSince B.disk result.0 }
{
    let mut watched = WatchedDisk::<B>::new(disk);
    let did = fill(&mut watched);
    (watched.into_inner(), did)
}

#[test]
fn a_disk_that_was_watched_has_what_was_done(rt: HostRuntime) -> Result<(), Fail> {
    let mut disk = MemoryDisk::new(rt.alloc(), &[])?;
    disk.fail_next(Call::Write);
    let (disk, did) = filled::<Brand>(disk);
    assert_eq!(rt; did, [true, false, true, true]);
    assert_eq!(rt; disk.bytes(), [0, 0, 0, 4, 5, 6].as_slice());
    assert_eq!(rt; disk.moment(), 1);
    Ok(())
}

// Waits once and sends twice; whether each of these was done.
fn speak<L: Link>(link: &mut L, disk: &MemoryDisk, buffer: &mut [u8]) -> Option<[bool; 3]> {
    if buffer.len() < 65536 {
        return None;
    }
    let to = Address::V4([10, 0, 0, 1], 7000);
    Some([
        link.next(1, buffer).is_ok(),
        link.send(disk, &to, &[1]).is_ok(),
        link.send(disk, &to, &[2]).is_ok(),
    ])
}

fn spoken<B: Before>(
    link: MemoryLink,
    disk: &MemoryDisk,
    buffer: &mut [u8],
) -> (MemoryLink, Option<[bool; 3]>)
    requires { B.link ≡ sent.as_before link }
    ensures { sent.IsSince B.link result.0 }
{
    let mut watched = WatchedLink::<B>::new(link);
    let did = speak(&mut watched, disk, buffer);
    (watched.into_inner(), did)
}

#[test]
fn a_link_that_was_watched_has_what_was_sent(rt: HostRuntime) -> Result<(), Fail> {
    let disk = MemoryDisk::new(rt.alloc(), &[])?;
    let mut link = MemoryLink::new(rt.alloc())?;
    let mut buffer = vec![in rt.alloc(); 0; 65536]?;
    link.fail_next(Call::Send);
    let (link, did) = spoken::<Brand>(link, &disk, &mut buffer);
    assert_eq!(rt; did, Some([true, false, true]));
    assert_eq!(rt; link.sent(), 1);
    Ok(())
}
