// A disk over files.
use crate::causes::is_told;
use pp_adapt::FileDisk;
use pp_outside::{Disk, DiskFault};
use std::alloc::Global;
use std::fs::{self, File};
use std::io;
use std::os::unix::fs::symlink;
use std::process::Abort;

// How long a disk is at first, after a write, and after one of nothing.
fn lengths(rt: &impl Abort, disk: &mut impl Disk) -> Result<(), DiskFault> {
    disk.attach("lengths")?;
    assert!(rt; disk.len()? == 0);
    disk.write_at(64, b"abc")?;
    disk.sync()?;
    assert!(rt; disk.len()? == 67);
    disk.write_at(70, b"")?;
    assert!(rt; disk.len()? == 70);
    Ok(())
}

// Whether nobody has this file locked.
fn is_free(files: &HostRuntime, name: &str) -> bool {
    match File::open(files, name) {
        Ok(file) => file.try_lock().is_ok(),
        Err(_) => false,
    }
}

// Its file is locked until it has another.
fn locks(rt: &impl Abort, files: &HostRuntime, disk: &mut impl Disk) -> Result<(), DiskFault> {
    disk.attach("locked")?;
    assert!(rt; !is_free(files, "locked"));
    disk.attach("instead")?;
    assert!(rt; is_free(files, "locked"));
    Ok(())
}

// Writes a run of one byte over plain bytes, and to a disk.
fn write_both(
    disk: &mut impl Disk,
    plain: &mut [u8],
    (place, len, byte): (u32, u32, u8),
) -> Result<(), DiskFault> {
    let start = place as usize;
    let Some(run) = plain.get_mut(start..start + len as usize) else {
        return Err(DiskFault);
    };
    run.fill(byte);
    disk.write_at(u64::from(place), run)
}

// How long a file is, or the greatest number where there is none.
fn file_len(files: &HostRuntime, name: &str) -> u64 {
    match fs::metadata(files, name) {
        Ok(found) => found.len(),
        Err(_) => u64::MAX,
    }
}

// Whether a file has these bytes.
fn has_bytes(files: &HostRuntime, name: &str, plain: &[u8]) -> bool {
    match fs::read(files, name) {
        Ok(found) => found.as_slice() == plain,
        Err(_) => false,
    }
}

// Two writes with gaps before them aren't in the file yet. They are read back, with zeros in the gaps and past the end.
fn waits(
    rt: &impl Abort,
    files: &HostRuntime,
    disk: &mut impl Disk,
    plain: &mut [u8; 83],
) -> Result<(), DiskFault> {
    write_both(disk, plain, (64, 3, b'a'))?;
    write_both(disk, plain, (70, 3, b'b'))?;
    assert!(rt; file_len(files, "waiting") == 0);
    let mut into = [7; 83];
    disk.read_at(0, &mut into)?;
    assert!(rt; into == *plain);
    Ok(())
}

// Now they are in the file. A third write is, once the length was asked for, and a fourth, once the file was let go.
fn ends(
    rt: &impl Abort,
    files: &HostRuntime,
    disk: &mut impl Disk,
    plain: &mut [u8],
) -> Result<(), DiskFault> {
    write_both(disk, plain, (72, 3, b'c'))?;
    assert!(rt; file_len(files, "waiting") == 73);
    assert!(rt; disk.len()? == 75);
    write_both(disk, plain, (80, 3, b'd'))?;
    disk.attach("another")?;
    assert!(rt; has_bytes(files, "waiting", plain));
    Ok(())
}

fn gathers(rt: &impl Abort, files: &HostRuntime, disk: &mut impl Disk) -> Result<(), DiskFault> {
    let mut plain = [0; 83];
    disk.attach("waiting")?;
    waits(rt, files, disk, &mut plain)?;
    ends(rt, files, disk, &mut plain)
}

// Where a write begins, how long it is, and its byte.
const WRITES: [(u32, u32, u8); 16] = [
    // A header, chunks with gaps between them, and a pair in a gap.
    (0, 64, 1),
    (64, 1024, 2),
    (1152, 1024, 3),
    (1088, 64, 4),
    (2240, 1024, 5),
    // Over some of these.
    (1000, 500, 6),
    (1050, 100, 7),
    // Far ahead; then behind, across the window's beginning, and ahead again.
    (300_000, 10, 8),
    (64, 10, 9),
    (299_990, 20, 10),
    (400_000, 10, 11),
    (400_020, 10, 12),
    // As much as can be gathered, and one byte more.
    (399_000, 262_144, 13),
    (399_100, 262_145, 14),
    (800_000, 3, 15),
    (800_002, 3, 16),
];

fn write_all(disk: &mut impl Disk, plain: &mut [u8]) -> Result<(), DiskFault> {
    for write in WRITES {
        write_both(disk, plain, write)?;
    }
    disk.sync()
}

// After a sync all these writes are in the file.
fn syncs(rt: &impl Abort, files: &HostRuntime, disk: &mut impl Disk) -> Result<(), DiskFault> {
    let Ok(mut plain) = vec![in files.alloc(); 0; 800_005] else {
        return Err(DiskFault);
    };
    disk.attach("synced")?;
    write_all(disk, &mut plain)?;
    assert!(rt; has_bytes(files, "synced", &plain));
    Ok(())
}

// All of these on one disk, since each use of a disk over files has its proof once more.
fn does_all(rt: &impl Abort, files: &HostRuntime, disk: &mut impl Disk) -> Result<(), DiskFault> {
    lengths(rt, disk)?;
    locks(rt, files, disk)?;
    gathers(rt, files, disk)?;
    syncs(rt, files, disk)
}

#[test]
fn does_as_a_disk(rt: HostRuntime) -> Result<(), DiskFault> {
    does_all(&rt, &rt, &mut FileDisk::new(&rt))
}

// Makes what has the names of no store. The last one's file is locked while it is open.
fn make_names(files: &HostRuntime) -> io::Result<File> {
    fs::create_dir(files, "names")?;
    symlink(files, "nowhere", "names/to nowhere")?;
    symlink(files, "empty", "names/to empty")?;
    File::create(files, "names/empty")?;
    let taken = File::create(files, "names/taken")?;
    taken.lock()?;
    Ok(taken)
}

// Names of no store, and what is printed of why.
const REFUSED: [(&str, &str); 7] = [
    ("", "No such file or directory (os error 2)"),
    ("names", "Is a directory (os error 21)"),
    ("none/store", "No such file or directory (os error 2)"),
    ("names/to nowhere", "File exists (os error 17)"),
    ("names/to empty", "an empty file behind a symbolic link"),
    ("/dev/null", "not a regular file"),
    ("names/taken", "locked by another run"),
];

fn refuses_all(rt: &impl Abort, alloc: Global, disk: &mut FileDisk<&HostRuntime>) {
    for (name, why) in REFUSED {
        assert!(rt; disk.attach(name).is_err(), "at {name}");
        is_told(rt, alloc, disk.cause(), why);
    }
}

#[test]
fn refuses_what_is_no_store(rt: HostRuntime) -> io::Result<()> {
    let _taken = make_names(&rt)?;
    refuses_all(&rt, rt.alloc(), &mut FileDisk::new(&rt));
    assert!(rt; fs::metadata(&rt, "names/nowhere").is_err());
    Ok(())
}
