// A disk in memory as the list of its calls, so that it answers for every moment.
ghost use Rattle.std.specs.Prelude.{◌≡◌, ◌+◌, ◌^◌, ◌≤◌, [], length, map, All, IfOk, OnOk, OnErr};
ghost use Rattle.pp_terms.specs.disk.Calls.{history_of, crash_image, crash_from, attached};
ghost use Rattle.pp_terms.specs.disk.Calls as calls;
ghost use Rattle.pp_terms.specs.disk.Disk.{after_write, settled, pends, moment_of};
ghost use Rattle.pp_outside.specs.CallCount.{calls_in};
ghost use Rattle.pp_outside.specs.Steps.{did_of, write_of, tear_of, writes_of, IsPlaced};

use crate::bytes::write_over;
use std::alloc::{AllocError, Global};
use std::marker::Model;

// Bytes that were to be written at a place.
#[derive(Drop)]
struct Piece {
    place: usize,
    bytes: Vec<u8>,
}

// A call that changed what is on the disk. A crash has the image that it left.
#[derive(Drop)]
enum Step {
    Wrote(Piece),
    Refused(Piece),
    Synced,
    Crashed(Vec<u8>),
}

// What a crash does to a pending write: a filled one has a5 in its whole range.
#[derive(Clone, Copy)]
enum Tear {
    Dropped,
    Done,
    Filled,
}

// The disk's first image and its calls since; and of these what reads give, what was there when the epoch began, at
// which call that was, how many epochs have ended, and after how many calls it was attached last.
#[derive(Drop)]
pub(crate) struct Log {
    alloc: Global,
    image: Vec<u8>,
    steps: Vec<Step>,
    bytes: Vec<u8>,
    durable: Vec<u8>,
    settled_at: usize,
    moment: u64,
    attached_at: usize,
}

impl Model for Log {
    ghost use Rattle.pp_terms.specs.disk.Calls.{Calls};

    ghost Value = { Calls };

    ghost use Rattle.pp_outside.specs.Log.{calls_of, IsLogOf};

    ghost view = { calls_of };

    ghost invariant = { IsLogOf };
}

impl Log {
    pub(crate) fn new(alloc: Global, image: &[u8]) -> Result<Log, AllocError>
        ensures { IfOk result (λ log. log ≡ record { image = image.now; done = []; attached_at = 0 }) }
    {
        Ok(Log {
            alloc,
            image: image.to_vec(alloc)?,
            steps: Vec::new(alloc),
            bytes: image.to_vec(alloc)?,
            durable: image.to_vec(alloc)?,
            settled_at: 0,
            moment: 0,
            attached_at: 0,
        })
    }

    // What reads give.
    pub(crate) fn bytes(&self) -> &[u8]
        ensures { result.now ≡ (history_of self.now).reads }
    {
        &self.bytes
    }

    pub(crate) fn moment(&self) -> u64
        ensures { result ≡ moment_of (history_of self.now) }
    {
        self.moment
    }

    // How many calls changed what is on the disk.
    pub(crate) fn calls(&self) -> usize
        ensures { result ≡ calls_in (history_of self.now) }
    {
        self.steps.len()
    }

    pub(crate) fn attach(&mut self)
        ensures { history_of self.new ≡ attached (history_of self.old) (history_of self.old) }
    {
        self.attached_at = self.steps.len();
    }

    pub(crate) fn write(&mut self, place: usize, bytes: &[u8]) -> Result<(), AllocError>
        requires { place + length bytes.now ≤ 2 ^ 40 }
        ensures ok { OnOk result (history_of self.new ≡ after_write (history_of self.old) place bytes.now) }
        ensures err { OnErr result (self.new ≡ self.old) }
    {
        let piece = Piece {
            place,
            bytes: bytes.to_vec(self.alloc)?,
        };
        self.steps.reserve(1)?;
        write_over(&mut self.bytes, place, bytes)?;
        self.steps.push_reserved(Step::Wrote(piece));
        Ok(())
    }

    // Its range is pending, and reads stay.
    pub(crate) fn refuse_write(&mut self, place: usize, bytes: &[u8]) -> Result<(), AllocError>
        requires { place + length bytes.now ≤ 2 ^ 40 }
        ensures ok { OnOk result (history_of self.new
            ≡ record (history_of self.old) { epoch = pends (history_of self.old).epoch place bytes.now }) }
        ensures err { OnErr result (self.new ≡ self.old) }
    {
        let piece = Piece {
            place,
            bytes: bytes.to_vec(self.alloc)?,
        };
        self.steps.push(Step::Refused(piece))?;
        Ok(())
    }

    pub(crate) fn sync(&mut self) -> Result<(), AllocError>
        ensures ok { OnOk result (history_of self.new ≡ settled (history_of self.old) (history_of self.old).reads) }
        ensures err { OnErr result (self.new ≡ self.old) }
    {
        let durable = self.bytes.to_vec(self.alloc)?;
        self.steps.push(Step::Synced)?;
        self.durable = durable;
        self.settled_at = self.steps.len();
        self.moment += 1;
        Ok(())
    }

    pub(crate) fn crash(&mut self, pick: u64) -> Result<(), AllocError>
        ensures ok { OnOk result (history_of self.new
            ≡ settled (history_of self.old) (crash_image pick (history_of self.old).epoch)) }
        ensures err { OnErr result (self.new ≡ self.old) }
    {
        let image = crashed(
            self.alloc,
            &self.durable,
            &self.steps[self.settled_at..],
            pick,
        )?;
        let durable = image.to_vec(self.alloc)?;
        let bytes = image.to_vec(self.alloc)?;
        self.steps.push(Step::Crashed(image))?;
        self.durable = durable;
        self.bytes = bytes;
        self.settled_at = self.steps.len();
        self.moment += 1;
        Ok(())
    }
}

// What a crash leaves of what was there when the epoch began, with the epoch's steps.
fn crashed(alloc: Global, durable: &[u8], steps: &[Step], pick: u64) -> Result<Vec<u8>, AllocError>
    requires { All IsPlaced (map did_of steps.now) }
    ensures { IfOk result (λ image. image.items ≡ crash_from pick 0 (writes_of (map did_of steps.now)) durable.now) }
{
    let mut image = durable.to_vec(alloc)?;
    let mut number = 0;
    for step in steps {
        if let Step::Wrote(piece) | Step::Refused(piece) = step {
            suffer(alloc, &mut image, tear_at(pick, number), piece)?;
            number += 1;
        }
    }
    Ok(image)
}

// What is done to the pending write of this number.
fn tear_at(pick: u64, number: u64) -> Tear
    ensures { tear_of result ≡ calls.tear pick number }
{
    if pick == 0 {
        return Tear::Dropped;
    }
    if pick == 1 {
        return Tear::Done;
    }
    match (pick % 3 + number % 3) % 3 {
        0 => Tear::Dropped,
        1 => Tear::Done,
        _ => Tear::Filled,
    }
}

fn suffer(alloc: Global, image: &mut Vec<u8>, tear: Tear, piece: &Piece) -> Result<(), AllocError>
    requires { piece.now.place + length piece.now.bytes.items ≤ 2 ^ 40 }
    ensures ok { OnOk result (image.new.items ≡ calls.suffer (tear_of tear) (write_of piece.now) image.old.items) }
    ensures err { OnErr result (image.new.items ≡ image.old.items) }
{
    match tear {
        Tear::Dropped => Ok(()),
        Tear::Done => write_over(image, piece.place, &piece.bytes),
        Tear::Filled => {
            let fill = vec![in alloc; 0xa5; piece.bytes.len()]?;
            write_over(image, piece.place, &fill)
        }
    }
}
