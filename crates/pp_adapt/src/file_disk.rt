// A disk over a file.
ghost use Rattle.std.specs.Prelude.{◌≡◌, ◌+◌, ◌^◌, ◌≤◌, ◌<◌, true, false, [], ◌∷◌, None, length, is_some, IsTrue, IsSome, IfOk, OnOk, OnErr, ◌↔◌};
ghost use Rattle.std.specs.Bool.{OnTrue, OnFalse};
ghost use Rattle.pp_terms.specs.disk.Disk.{DoesAttach, DoesLen, DoesRead, DoesWrite, DoesSync};
ghost use Rattle.pp_adapt.specs.Gathered.{IsFree, IsGatheredOver, with_taken};
ghost use Rattle.pp_adapt.specs.FileState.{FileState, IsLive, unattached, with_refusal, with_refused_reading, lost, IsWrittenOut, IsLeft, HasGathered, IsSeen, silent_disk, silent_is_image};
ghost use Rattle.pp_adapt.specs.Stored.{gathered_in, is_sealed_in};
ghost use Rattle.pp_adapt.specs.Folder.{folder_of};

use crate::cause::{Cause, Step, during};
use crate::gathering::{Gathering, Outlet};
use crate::limit::{past_limit, size_limit};
use pp_outside::{Disk, DiskFault};
use std::fs::{self, File, Metadata, OpenOptions, TryLockError};
use std::io::{self, ErrorKind};
use std::marker::Model;
use std::os::fd::AsRawFd;
use std::os::unix::fs::FileExt;
use std::path::Path;
use std::rt::Files;

/// A disk that keeps each store in a file of that name.
///
/// It gathers writes, in 256 KiB of memory that an attachment takes: they go out to the file at a sync, an attachment, a
/// call of `len`, and a reading that meets them, and where a write doesn't fit. What is gathered when the disk is
/// dropped doesn't go out.
#[derive(Drop)]
pub struct FileDisk<R: Files<File = File>> {
    files: R,
    store: Option<Store>,
    // whether a sync or a gathered write was refused since the last call of `attach`
    is_lost: bool,
    faults: u64,
    hard: u64,
    // Since the last call of `attach`: why a call but `read_at` was first refused, why `read_at` was, and how many
    // bytes were written. Contracts don't see these.
    cause: Option<Cause>,
    read_cause: Option<Cause>,
    written: u64,
}

// The attached store.
#[derive(Drop)]
struct Store {
    file: File,
    // why the system gave the file for reading alone, if it did
    seal: Option<io::Error>,
    // nothing had its name
    is_new: bool,
    // the greatest size that this process may give a file
    limit: u64,
    // its length at the last sync
    synced: Option<u64>,
    gathering: Gathering,
}

impl<R: Files<File = File>> Model for FileDisk<R> {
    ghost use Rattle.std.specs.Prelude.{is_some};
    ghost use Rattle.pp_adapt.specs.FileState.{FileState};

    ghost Value = { FileState };

    ghost use Rattle.pp_adapt.specs.Stored.{gathered_in, is_sealed_in};

    ghost view = { λ d. record { is_attached = is_some d.store; is_lost = d.is_lost; is_sealed = is_sealed_in d.store; gathered = gathered_in d.store; faults = d.faults; hard = d.hard } };
}

impl<R: Files<File = File>> FileDisk<R> {
    /// A disk with no store attached, which refuses each call until one is. It opens nothing.
    pub fn new(files: R) -> Self
        ensures { result ≡ unattached }
    {
        FileDisk {
            files,
            store: None,
            is_lost: false,
            faults: 0,
            hard: 0,
            cause: None,
            read_cause: None,
            written: 0,
        }
    }

    /// How many calls it refused, up to the greatest `u64`.
    pub fn faults(&self) -> u64
        ensures { result ≡ self.now.faults }
    {
        self.faults
    }

    /// The same of its calls but `read_at`.
    pub fn hard(&self) -> u64
        ensures { result ≡ self.now.hard }
    {
        self.hard
    }

    /// Why it refused a call since the last call of `attach`: the first call but `read_at`, or, where there was none, the
    /// first `read_at`.
    pub fn cause(&self) -> Option<Cause> {
        match self.cause {
            Some(cause) => Some(cause),
            None => self.read_cause,
        }
    }

    /// Whether the store's file was made by the attachment, as nothing had its name.
    pub fn has_made(&self) -> bool
        ensures { OnTrue result (IsTrue self.now.is_attached) }
    {
        match &self.store {
            Some(store) => store.is_new,
            None => false,
        }
    }

    /// How many bytes it took to be written since the last call of `attach`.
    pub fn written(&self) -> u64 {
        self.written
    }

    fn refuse(&mut self, cause: Cause) -> DiskFault
        ensures state { self.new ≡ with_refusal self.old }
        ensures fits { (self.old.faults < 2 ^ 64) × (self.old.hard < 2 ^ 64) }
    {
        self.faults = self.faults.saturating_add(1);
        self.hard = self.hard.saturating_add(1);
        if self.cause.is_none() {
            self.cause = Some(cause);
        }
        DiskFault
    }

    fn refuse_read(&mut self, cause: Cause) -> DiskFault
        ensures state { self.new ≡ with_refused_reading self.old }
        ensures fits { self.old.faults < 2 ^ 64 }
    {
        self.faults = self.faults.saturating_add(1);
        if self.read_cause.is_none() {
            self.read_cause = Some(cause);
        }
        DiskFault
    }
}

// The folder that a path lies in.
fn folder_of(path: &str) -> &str
    ensures { result.now ≡ folder_of path.now }
{
    match Path::new(path).parent() {
        None => "/",
        Some(parent) if parent.as_str().is_empty() => ".",
        Some(parent) => parent.as_str(),
    }
}

// What a sync answered. A file system that knows no syncs has nothing to sync of what it gave for reading alone.
fn synced(answer: io::Result<()>, seal: &Option<io::Error>) -> io::Result<()> {
    match answer {
        Err(e) if seal.is_some() && e.kind() == ErrorKind::InvalidInput => Ok(()),
        answer => answer,
    }
}

// A file of which not much is known yet.
#[derive(Drop)]
struct Opened {
    file: File,
    seal: Option<io::Error>,
    is_new: bool,
}

impl Opened {
    // A writer has the file alone.
    fn lock(&self) -> io::Result<()> {
        let locked = match self.seal {
            None => self.file.try_lock(),
            Some(_) => self.file.try_lock_shared(),
        };
        match locked {
            Ok(()) => Ok(()),
            Err(TryLockError::Error(e)) => Err(e),
            Err(TryLockError::WouldBlock) => Err(io::Error::new(
                ErrorKind::WouldBlock,
                "locked by another run",
            )),
        }
    }

    // Makes an empty file and its name in its folder durable. Of a symbolic link the folder isn't known.
    fn make_durable(&self, files: &impl Files<File = File>, name: &str) -> Result<(), Cause> {
        if during(Step::Open, fs::symlink_metadata(files, name))?.is_symlink() {
            let why = io::Error::new(
                ErrorKind::Unsupported,
                "an empty file behind a symbolic link",
            );
            return Err(Cause::new(Step::Open, why));
        }
        during(Step::Sync, synced(self.file.sync_all(), &self.seal))?;
        let folder = during(Step::Name, File::open(files, folder_of(name)))?;
        during(Step::Name, synced(folder.sync_all(), &self.seal))
    }
}

// A file's metadata, again where a signal came.
fn metadata_of(file: &File) -> io::Result<Metadata> {
    for _ in 0..u64::MAX {
        match file.metadata() {
            Err(e) if e.kind() == ErrorKind::Interrupted => {}
            found => return found,
        }
    }
    Err(ErrorKind::TimedOut.into())
}

fn not_a_file() -> io::Error {
    io::Error::new(ErrorKind::Unsupported, "not a regular file")
}

// Opens a file for reading alone, as the system refused more. Of anything but a file that could wait for ever.
fn open_sealed(files: &impl Files<File = File>, name: &str, why: io::Error) -> io::Result<Opened> {
    if !fs::metadata(files, name)?.is_file() {
        return Err(not_a_file());
    }
    Ok(Opened {
        file: File::open(files, name)?,
        seal: Some(why),
        is_new: false,
    })
}

// Opens the file of this name, or makes one where nothing has the name.
fn open_or_make(files: &impl Files<File = File>, name: &str) -> io::Result<Opened> {
    let opened = OpenOptions::new().read(true).write(true).open(files, name);
    let (file, is_new) = match opened {
        Ok(file) => (file, false),
        Err(e) => match e.kind() {
            ErrorKind::NotFound => (File::create_new(files, name)?, true),
            ErrorKind::PermissionDenied | ErrorKind::ReadOnlyFilesystem => {
                return open_sealed(files, name, e);
            }
            _ => return Err(e),
        },
    };
    Ok(Opened {
        file,
        seal: None,
        is_new,
    })
}

// Opens the file and locks it until it is closed.
fn open_locked(files: &impl Files<File = File>, name: &str) -> io::Result<Opened> {
    let mut opened = open_or_make(files, name)?;
    // What is meant for a standard stream that was closed must not land in the store.
    if opened.file.as_raw_fd() <= 2 {
        opened.file = opened.file.try_clone()?;
    }
    opened.lock()?;
    Ok(opened)
}

// Opens the store. An empty file is made durable each time, since the call that made it may have ended before that.
fn open_store(files: &(impl Files<File = File> + AllocGlobal), name: &str) -> Result<Store, Cause>
    ensures { IfOk result (λ store. store.gathering.pieces ≡ []) }
{
    let gathering = match Gathering::new(files.alloc()) {
        Ok(gathering) => gathering,
        Err(e) => return Err(Cause::new(Step::Open, e.into())),
    };
    let opened = during(Step::Open, open_locked(files, name))?;
    let found = during(Step::Open, metadata_of(&opened.file))?;
    if !found.is_file() {
        return Err(Cause::new(Step::Open, not_a_file()));
    }
    if found.len() == 0 {
        opened.make_durable(files, name)?;
    }
    let Opened { file, seal, is_new } = opened;
    Ok(Store {
        file,
        seal,
        is_new,
        limit: size_limit(),
        synced: None,
        gathering,
    })
}

fn attached(store: &Option<Store>) -> io::Result<&Store>
    ensures { OnOk result (IsSome store.now) }
{
    match store {
        Some(store) => Ok(store),
        None => Err(ErrorKind::NotFound.into()),
    }
}

fn length_of(store: &Option<Store>) -> io::Result<u64>
    ensures { OnOk result (IsSome store.now) }
{
    Ok(metadata_of(&attached(store)?.file)?.len())
}

// Fills all of `into`, with zeros past the end of the file.
fn read_filled(file: &File, place: u64, into: &mut [u8]) -> io::Result<()>
    requires { place + length into.old ≤ 2 ^ 40 }
{
    let mut at = 0;
    for _ in 0..u64::MAX {
        if at == into.len() {
            return Ok(());
        }
        match file.read_at(&mut into[at..], place + at as u64) {
            Ok(0) => {
                into[at..].fill(0);
                return Ok(());
            }
            Ok(n) => at += n,
            Err(e) if e.kind() == ErrorKind::Interrupted => {}
            Err(e) => return Err(e),
        }
    }
    Err(ErrorKind::TimedOut.into())
}

fn read_store(store: &Option<Store>, place: u64, into: &mut [u8]) -> io::Result<()>
    requires { place + length into.old ≤ 2 ^ 40 }
    ensures { OnOk result (IsSome store.now) }
{
    read_filled(&attached(store)?.file, place, into)
}

// Refuses a write that ends there where the system would: of a file that it gave for reading alone, and past the size that this
// process may give a file, where the system would end the program by a signal.
fn admit(store: &Option<Store>, end: u64) -> io::Result<()>
    ensures attached { OnOk result (IsSome store.now) }
    ensures sealed { OnOk result (is_sealed_in store.now ≡ false) }
{
    match store {
        None => Err(ErrorKind::NotFound.into()),
        Some(store) => store.admit(end),
    }
}

// Writes all the bytes. A gap before them is filled with zeros, before no bytes too.
fn write_store(store: &Option<Store>, place: u64, bytes: &[u8]) -> io::Result<()>
    ensures { OnOk result (IsSome store.now) }
{
    let file = &attached(store)?.file;
    if bytes.is_empty() && metadata_of(file)?.len() < place {
        return file.set_len(place);
    }
    file.write_all_at(bytes, place)
}

impl Store {
    fn admit(&self, end: u64) -> io::Result<()>
        ensures { OnOk result (self.now.seal ≡ None) }
    {
        if let Some(why) = self.seal {
            return Err(why);
        }
        if self.limit < end {
            return Err(past_limit());
        }
        Ok(())
    }

    // Syncs the data, and a length that isn't known to be that of the last sync.
    fn settle(&mut self) -> io::Result<()>
        ensures gathered { self.new.gathering ≡ self.old.gathering }
        ensures seal { self.new.seal ≡ self.old.seal }
    {
        let len = metadata_of(&self.file)?.len();
        let answer = if self.synced == Some(len) {
            self.file.sync_data()
        } else {
            self.file.sync_all()
        };
        synced(answer, &self.seal)?;
        self.synced = Some(len);
        Ok(())
    }
}

fn sync_store(store: &mut Option<Store>) -> io::Result<()>
    ensures ok { OnOk result (IsSome store.old) }
    ensures stays { is_some store.new ≡ is_some store.old }
    ensures seal { is_sealed_in store.new ≡ is_sealed_in store.old }
    ensures gathered { gathered_in store.new ≡ gathered_in store.old }
{
    match store {
        Some(store) => store.settle(),
        None => Err(ErrorKind::NotFound.into()),
    }
}

impl Outlet for File {
    ghost taken = { λ file. None };

    fn write_at(&mut self, place: u64, bytes: &[u8]) -> io::Result<()> {
        self.write_all_at(bytes, place)
    }
}

// Whether no write is gathered.
fn is_clear(store: &Option<Store>) -> bool
    ensures { IsTrue result ↔ (gathered_in store.now ≡ []) }
{
    match store {
        Some(store) => store.gathering.is_empty(),
        None => true,
    }
}

// Whether a byte of a range is gathered.
fn meets(store: &Option<Store>, place: u64, len: usize) -> bool
    requires { place + len ≤ 2 ^ 40 }
    ensures { OnFalse result (IsFree (gathered_in store.now) place len) }
{
    match store {
        Some(store) => store.gathering.meets(place, len),
        None => false,
    }
}

// Whether a range lies before all that can be gathered now.
fn has_passed(store: &Option<Store>, place: u64, len: usize) -> bool
    requires { place + len ≤ 2 ^ 40 }
    ensures { OnTrue result (IsFree (gathered_in store.now) place len) }
{
    match store {
        Some(store) => store.gathering.has_passed(place, len),
        None => true,
    }
}

// Gathers a write, if it isn't empty and there is room for it.
fn gather(store: &mut Option<Store>, place: u64, bytes: &[u8]) -> bool
    requires { place + length bytes.now ≤ 2 ^ 40 }
    ensures put { OnTrue result (IsGatheredOver (gathered_in store.old) place bytes.now (gathered_in store.new)) }
    ensures full { OnFalse result (gathered_in store.new ≡ gathered_in store.old) }
    ensures attached { OnTrue result (IsSome store.old) }
    ensures stays { is_some store.new ≡ is_some store.old }
    ensures seal { is_sealed_in store.new ≡ is_sealed_in store.old }
{
    match store {
        Some(store) => !bytes.is_empty() && store.gathering.put(place, bytes),
        None => false,
    }
}

// Writes out all that is gathered.
fn write_gathered(store: &mut Option<Store>) -> io::Result<()>
    ensures ok { OnOk result (gathered_in store.new ≡ []) }
    ensures err { OnErr result ((gathered_in store.new ≡ gathered_in store.old) × (0 < length (gathered_in store.old))) }
    ensures stays { is_some store.new ≡ is_some store.old }
    ensures seal { is_sealed_in store.new ≡ is_sealed_in store.old }
{
    match store {
        Some(store) => store.gathering.write_out(&mut store.file),
        None => Ok(()),
    }
}

// Why a call of a lost store is refused.
fn given_up(step: Step) -> Cause {
    let error = io::Error::new(ErrorKind::Unsupported, "given up after an earlier refusal");
    Cause::new(step, error)
}

impl<R: Files<File = File>> FileDisk<R> {
    // Writes out all that is gathered. Of a lost store nothing goes out any more.
    fn write_out(&mut self) -> Result<(), Cause>
        ensures ok { OnOk result (IsWrittenOut self.old self.new) }
        ensures err { OnErr result ((0 < length self.old.gathered) × (self.new ≡ lost self.old)) }
    {
        if is_clear(&self.store) {
            return Ok(());
        }
        if self.is_lost {
            return Err(given_up(Step::Write));
        }
        let written = write_gathered(&mut self.store);
        self.is_lost = written.is_err();
        during(Step::Write, written)
    }

    fn length(&mut self) -> Result<u64, Cause>
        ensures ok { OnOk result (IsWrittenOut self.old self.new) }
        ensures err { OnErr result (IsLeft self.old self.new) }
        ensures attached { OnOk result (IsTrue self.old.is_attached) }
    {
        self.write_out()?;
        during(Step::Length, length_of(&self.store))
    }

    fn read(&mut self, place: u64, into: &mut [u8]) -> Result<(), Cause>
        requires { place + length into.old ≤ 2 ^ 40 }
        ensures ok { OnOk result (IsSeen self.old place (length into.old) self.new) }
        ensures err { OnErr result (IsLeft self.old self.new) }
        ensures attached { OnOk result (IsTrue self.old.is_attached) }
    {
        if meets(&self.store, place, into.len()) {
            self.write_out()?;
        }
        during(Step::Read, read_store(&self.store, place, into))
    }

    // Where there is no room for a write, what is gathered goes out first. A write that lies far behind, or that is too
    // long to be gathered, goes into the file itself.
    fn write(&mut self, place: u64, bytes: &[u8]) -> Result<(), Cause>
        requires { place + length bytes.now ≤ 2 ^ 40 }
        ensures ok { OnOk result (self.new ≡ record self.old { gathered = self.new.gathered }) }
        ensures gathered { OnOk result (HasGathered self.old.gathered place bytes.now self.new.gathered) }
        ensures err { OnErr result (IsLeft self.old self.new) }
        ensures attached { OnOk result (IsTrue self.old.is_attached) }
        ensures sealed { OnOk result (self.old.is_sealed ≡ false) }
    {
        let end = place + bytes.len() as u64;
        during(Step::Write, admit(&self.store, end))?;
        if gather(&mut self.store, place, bytes) {
            return Ok(());
        }
        if !has_passed(&self.store, place, bytes.len()) {
            self.write_out()?;
            if gather(&mut self.store, place, bytes) {
                return Ok(());
            }
        }
        during(Step::Write, write_store(&self.store, place, bytes))
    }

    fn settle(&mut self) -> Result<(), Cause>
        ensures ok { OnOk result (IsWrittenOut self.old self.new) }
        ensures err { OnErr result (IsLeft self.old self.new) }
        ensures attached { OnOk result (IsTrue self.old.is_attached) }
    {
        self.write_out()?;
        during(Step::Sync, sync_store(&mut self.store))
    }
}

impl<R: Files<File = File> + AllocGlobal> Disk for FileDisk<R> {
    ghost state = { silent_disk };

    ghost whole = { λ disk known. silent_is_image };

    /// The name is a path. The file is locked until another name is attached or the disk is dropped. A name of
    /// anything but a file, an empty file behind a symbolic link, and a file that is locked are refused, and so is each
    /// where there is no memory for what is to be gathered; then no store is attached. What is gathered of the store
    /// before goes out first, as far as the system takes it. A file that the system gives for reading alone is a store
    /// too, of which each write is refused; others may read it at the same time.
    fn attach(&mut self, name: &str) -> Result<(), DiskFault>
        ensures does { DoesAttach (silent_disk self.old) name.now result (silent_disk self.new) }
        ensures ok { OnOk result (self.new ≡ record self.old { is_attached = true; is_lost = false; is_sealed = self.new.is_sealed; gathered = [] }) }
        ensures err { OnErr result (self.new ≡ with_refusal (record self.old { is_attached = false; is_lost = false; is_sealed = false; gathered = [] })) }
    {
        let _ = self.write_out();
        // The lock of the file before goes first, as it may be the same file.
        self.store = None;
        self.is_lost = false;
        self.cause = None;
        self.read_cause = None;
        self.written = 0;
        match open_store(&self.files, name) {
            Ok(store) => {
                self.store = Some(store);
                Ok(())
            }
            Err(cause) => Err(self.refuse(cause)),
        }
    }

    fn len(&mut self) -> Result<u64, DiskFault>
        ensures does { DoesLen (silent_disk self.old) result (silent_disk self.new) }
        ensures ok { OnOk result (IsWrittenOut self.old self.new) }
        ensures err { OnErr result ((left : FileState) × IsLeft self.old left × (self.new ≡ with_refusal left)) }
        ensures attached { OnOk result (IsTrue self.old.is_attached) }
    {
        match self.length() {
            Ok(n) => Ok(n),
            Err(cause) => Err(self.refuse(cause)),
        }
    }

    fn read_at(&mut self, place: u64, into: &mut [u8]) -> Result<(), DiskFault>
        requires { place + length into.old ≤ 2 ^ 40 }
        ensures does { DoesRead (silent_disk self.old) place into.new result (silent_disk self.new) }
        ensures ok { OnOk result (IsSeen self.old place (length into.old) self.new) }
        ensures err { OnErr result ((left : FileState) × IsLeft self.old left × (self.new ≡ with_refused_reading left)) }
        ensures attached { OnOk result (IsTrue self.old.is_attached) }
    {
        match self.read(place, into) {
            Ok(()) => Ok(()),
            Err(cause) => Err(self.refuse_read(cause)),
        }
    }

    /// After a refused sync or a refused gathered write it writes no more, until the next `attach`.
    fn write_at(&mut self, place: u64, bytes: &[u8]) -> Result<(), DiskFault>
        requires { place + length bytes.now ≤ 2 ^ 40 }
        ensures does { DoesWrite (silent_disk self.old) place bytes.now result (silent_disk self.new) }
        ensures ok { OnOk result (self.new ≡ record self.old { gathered = self.new.gathered }) }
        ensures gathered { OnOk result (HasGathered self.old.gathered place bytes.now self.new.gathered) }
        ensures err { OnErr result ((left : FileState) × IsLeft self.old left × (self.new ≡ with_refusal left)) }
        ensures live { OnOk result (IsLive self.old) }
        ensures sealed { OnOk result (self.old.is_sealed ≡ false) }
    {
        if self.is_lost {
            return Err(self.refuse(given_up(Step::Write)));
        }
        match self.write(place, bytes) {
            Ok(()) => {
                self.written = self.written.saturating_add(bytes.len() as u64);
                Ok(())
            }
            Err(cause) => Err(self.refuse(cause)),
        }
    }

    /// A refused sync is final: the system may have dropped what wasn't on the disk, so each later one is refused
    /// too, until the next `attach`. So is a gathered write that the system refuses.
    fn sync(&mut self) -> Result<(), DiskFault>
        ensures does { DoesSync (silent_disk self.old) result (silent_disk self.new) }
        ensures ok { OnOk result (IsWrittenOut self.old self.new) }
        ensures err { OnErr result ((left : FileState) × IsLeft self.old left × (self.new ≡ with_refusal (lost left))) }
        ensures live { OnOk result (IsLive self.old) }
    {
        if self.is_lost {
            return Err(self.refuse(given_up(Step::Sync)));
        }
        match self.settle() {
            Ok(()) => Ok(()),
            Err(cause) => {
                self.is_lost = true;
                Err(self.refuse(cause))
            }
        }
    }

    /// It knows no moments, and answers 0.
    fn moment(&self) -> u64
        ensures { result ≡ 0 }
    {
        0
    }
}
