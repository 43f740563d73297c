// A link over a UDP socket.
ghost use Rattle.std.specs.Prelude.{◌≡◌, ◌^◌, ◌≤◌, ◌<◌, ◌↔◌, length, Some, None, IsTrue, IsSome, IfOk, IfSome, OnOk, OnErr};
ghost use Rattle.std.specs.Option.{option_map};
ghost use Rattle.std.specs.Net.Socket.{socket_ip, socket_port};
ghost use Rattle.pp_terms.specs.disk.Disk.{moment_of};
ghost use Rattle.pp_outside.specs.Outside.{FitsIn, DoesBind, DoesNext, DoesSend};
ghost use Rattle.pp_adapt.specs.Counts.{raised};
ghost use Rattle.pp_adapt.specs.UdpState.{UdpState, unbound, with_refused_call, silent_link, named, IsSameFamily, Reaches, moment_of_event};

use crate::cause::{Cause, Step};
use crate::meter::{LinkMeter, Stream, is_terminal, micros_since};
use libc::net;
use libc::types::pollfd;
use pp_outside::{Address, Disk, Event, Link, LinkFault};
use std::io::{self, ErrorKind};
use std::marker::Model;
use std::net::{IpAddr, Ipv4Addr, Ipv6Addr, Net, SocketAddr, UdpSocket};
use std::os::fd::AsRawFd;
use std::time::{Clock, Instant};

// How long a short wait lasts at most, in milliseconds.
const BRISK_MS: i32 = 1;

// How often it looks for a datagram before a burst is over that came faster than it was read: for some hundred microseconds.
const LOOKS: u32 = 200;

/// A link over one UDP socket of the system, for peers of the family of the address that it is bound to.
///
/// While standard error is a terminal, it says there at which address it listens, and how much came and went.
#[derive(Drop)]
pub struct UdpLink<R: Net + Clock + Eprint> {
    system: R,
    // when the link was made, where the clock told
    made: Option<Instant>,
    bound: Option<Bound>,
    // the latest moment that it told
    moment: u64,
    faults: u64,
    nexts: u64,
    // why a call was first refused since the last one of `bind`, which contracts don't see
    cause: Option<Cause>,
    // what passed, where a person sees it; contracts don't
    meter: Option<LinkMeter>,
}

// How datagrams come, by the last wait.
#[derive(Clone, Copy, PartialEq, Eq)]
enum Pace {
    // It brought none.
    Idle,
    // One came while it waited, or there was no wait yet.
    Brisk,
    // One was there already.
    Busy,
}

// The open socket.
#[derive(Drop)]
struct Bound {
    socket: UdpSocket,
    listen: Address,
    pace: Pace,
}

impl<R: Net + Clock + Eprint> Model for UdpLink<R> {
    ghost Value = { UdpState };

    ghost view = { λ u. record { listen = option_map (λ b. b.listen) u.bound; moment = u.moment; faults = u.faults; nexts = u.nexts } };
}

impl<R: Net + Clock + Eprint> UdpLink<R> {
    /// A link that is not bound, which refuses each call but `bind` until it is. It opens nothing. Its moments count
    /// from now.
    pub fn new(system: R) -> Self
        ensures { result ≡ unbound }
    {
        let made = Instant::now(&system).ok();
        let meter = if is_terminal(Stream::Error) {
            Some(LinkMeter::new())
        } else {
            None
        };
        UdpLink {
            system,
            made,
            bound: None,
            moment: 0,
            faults: 0,
            nexts: 0,
            cause: None,
            meter,
        }
    }

    /// How many calls it refused, up to the greatest `u64`.
    pub fn faults(&self) -> u64
        ensures { result ≡ self.now.faults }
    {
        self.faults
    }

    /// How many calls of `next` have returned, up to the greatest `u64`.
    pub fn nexts(&self) -> u64
        ensures { result ≡ self.now.nexts }
    {
        self.nexts
    }

    /// Why it first refused a call since the last one of `bind`.
    pub fn cause(&self) -> Option<Cause> {
        self.cause
    }

    fn refuse(&mut self, step: Step, error: io::Error) -> LinkFault
        ensures state { self.new ≡ with_refused_call self.old }
        ensures fits { self.old.faults < 2 ^ 64 }
    {
        self.faults = self.faults.saturating_add(1);
        if self.cause.is_none() {
            self.cause = Some(Cause::new(step, error));
        }
        LinkFault
    }
}

// The socket address of the system for an address, with no flow information and no scope.
fn socket_of(address: Address) -> SocketAddr
    ensures { named (socket_ip result) (socket_port result) ≡ address }
{
    match address {
        Address::V4(bytes, port) => SocketAddr::new(IpAddr::V4(Ipv4Addr::from_octets(bytes)), port),
        Address::V6(bytes, port) => SocketAddr::new(IpAddr::V6(Ipv6Addr::from_octets(bytes)), port),
    }
}

fn address_of(found: &SocketAddr) -> Address
    ensures { result ≡ named (socket_ip found.now) (socket_port found.now) }
{
    match found.ip() {
        IpAddr::V4(ip) => Address::V4(ip.octets(), found.port()),
        IpAddr::V6(ip) => Address::V6(ip.octets(), found.port()),
    }
}

fn is_same_family(one: &Address, other: &Address) -> bool
    ensures { IsTrue result ↔ IsSameFamily one.now other.now }
{
    match (one, other) {
        (Address::V4(..), Address::V4(..)) | (Address::V6(..), Address::V6(..)) => true,
        _ => false,
    }
}

// Asks for more memory for datagrams that wait than any system gives: it gives the most that it may. If it refuses,
// the socket keeps what it has.
fn widen(socket: &UdpSocket) {
    let mut most = [0; 16];
    most[..4].copy_from_slice(&i32::MAX.to_ne_bytes());
    // The option is read from the first 4 bytes alone.
    let _ = unsafe {
        net::setsockopt(
            socket.as_raw_fd(),
            net::SOL_SOCKET,
            net::SO_RCVBUF,
            &most,
            4,
        )
    };
}

fn open(net: &impl Net, listen: &Address) -> io::Result<Bound>
    ensures { IfOk result (λ bound. bound.listen ≡ listen.now) }
{
    let socket = UdpSocket::bind(net, socket_of(*listen))?;
    widen(&socket);
    socket.set_nonblocking(true)?;
    Ok(Bound {
        socket,
        listen: *listen,
        pace: Pace::Brisk,
    })
}

impl Bound {
    // Waits until the socket is ready for one of these events, the time is over, or a signal comes. A negative limit is none.
    fn await_ready(&self, events: i16, limit_ms: i32) {
        let fd = self.socket.as_raw_fd();
        net::poll(
            &mut [pollfd {
                fd,
                events,
                revents: 0,
            }],
            limit_ms,
        );
    }

    // The size and the sender of a datagram, or none where none is there or a signal came.
    fn receive(&self, buffer: &mut [u8]) -> io::Result<Option<(usize, SocketAddr)>>
        ensures { IfOk result (λ found. IfSome found (λ pair. pair.0 ≤ length buffer.new)) }
    {
        match self.socket.recv_from(buffer) {
            Ok(found) => Ok(Some(found)),
            Err(e) => match e.kind() {
                ErrorKind::WouldBlock | ErrorKind::Interrupted => Ok(None),
                _ => Err(e),
            },
        }
    }

    // The same, once it has looked again and again where none is there.
    fn look(&self, buffer: &mut [u8]) -> io::Result<Option<(usize, SocketAddr)>>
        ensures { IfOk result (λ found. IfSome found (λ pair. pair.0 ≤ length buffer.new)) }
    {
        for _ in 0..LOOKS {
            if let Some(found) = self.receive(buffer)? {
                return Ok(Some(found));
            }
        }
        Ok(None)
    }

    // The same, once it has waited where none is there. Behind a datagram the end of the burst is told soon, so that what it brought
    // can be committed: at once where the burst came faster than it was read, and else after a millisecond. The first wait ends as
    // soon, so that a peer dials at once.
    fn wait(&self, limit_us: u64, buffer: &mut [u8]) -> io::Result<Option<(usize, SocketAddr)>>
        ensures { IfOk result (λ found. IfSome found (λ pair. pair.0 ≤ length buffer.new)) }
    {
        let most_ms = match self.pace {
            Pace::Idle => i32::MAX,
            Pace::Brisk => BRISK_MS,
            Pace::Busy => return self.look(buffer),
        };
        let limit_ms = limit_us.div_ceil(1_000).min(most_ms as u64) as i32;
        self.await_ready(net::POLLIN, limit_ms);
        self.receive(buffer)
    }

    // A datagram, or none where the time was over before one came.
    fn next(&mut self, limit_us: u64, buffer: &mut [u8]) -> io::Result<Option<(usize, SocketAddr)>>
        ensures found { IfOk result (λ found. IfSome found (λ pair. pair.0 ≤ length buffer.new)) }
        ensures listen { self.new.listen ≡ self.old.listen }
    {
        if let Some(found) = self.receive(buffer)? {
            self.pace = Pace::Busy;
            return Ok(Some(found));
        }
        let found = self.wait(limit_us, buffer)?;
        self.pace = if found.is_some() {
            Pace::Brisk
        } else {
            Pace::Idle
        };
        Ok(found)
    }

    // Sends it whole to an address of the same family: again where a signal came, and once there is room where there is none.
    fn send(&self, to: &Address, bytes: &[u8]) -> io::Result<()>
        ensures { OnOk result (IsSameFamily self.now.listen to.now) }
    {
        if !is_same_family(&self.listen, to) {
            return Err(io::Error::new(
                ErrorKind::Unsupported,
                "a peer of the other family of addresses",
            ));
        }
        let receiver = socket_of(*to);
        for _ in 0..u64::MAX {
            match self.socket.send_to(bytes, receiver) {
                Ok(n) if n == bytes.len() => return Ok(()),
                Ok(_) => return Err(ErrorKind::WriteZero.into()),
                Err(e) => match e.kind() {
                    ErrorKind::Interrupted => {}
                    ErrorKind::WouldBlock => self.await_ready(net::POLLOUT, -1),
                    _ => return Err(e),
                },
            }
        }
        Err(ErrorKind::TimedOut.into())
    }
}

fn send_by(bound: &Option<Bound>, to: &Address, bytes: &[u8]) -> io::Result<()>
    ensures { OnOk result (Reaches (option_map (λ b. b.listen) bound.now) to.now) }
{
    match bound {
        Some(bound) => bound.send(to, bytes),
        None => Err(ErrorKind::NotConnected.into()),
    }
}

impl<R: Net + Clock + Eprint> UdpLink<R> {
    fn wait(&mut self, limit_us: u64, buffer: &mut [u8]) -> io::Result<Event>
        ensures ok { IfOk result (λ event. FitsIn event buffer.new × (self.new ≡ record self.old { moment = moment_of_event event })) }
        ensures later { self.old.moment ≤ self.new.moment }
        ensures err { OnErr result (self.new ≡ self.old) }
        ensures bound { OnOk result (IsSome self.old.listen) }
    {
        let Some(bound) = &mut self.bound else {
            return Err(ErrorKind::NotConnected.into());
        };
        let found = bound.next(limit_us, buffer)?;
        let now = micros_since(&self.system, &self.made)?;
        // The system's clock never falls; this doesn't rest on it.
        self.moment = self.moment.max(now);
        let at = self.moment;
        let event = match found {
            Some((len, sender)) => Event::Datagram {
                from: address_of(&sender),
                len,
                at,
            },
            None => Event::Quiet { at },
        };
        self.show(&event);
        Ok(event)
    }

    // Shows how much came and went, with what just came.
    fn show(&mut self, event: &Event)
        ensures { self.new ≡ self.old }
    {
        let Some(meter) = &mut self.meter else {
            return;
        };
        if let Event::Datagram { from, len, .. } = event {
            meter.note_received(*from, *len);
        }
        meter.show(self.moment, &self.system);
    }

    // Says where it listens.
    fn tell(&self) {
        if let (Some(_), Some(bound)) = (&self.meter, &self.bound) {
            if let Ok(address) = bound.socket.local_addr() {
                let _ = self.system.eprintln(format_args!("listening at {address}"));
            }
        }
    }
}

impl<R: Net + Clock + Eprint> Link for UdpLink<R> {
    ghost seen = { silent_link };

    /// The socket that it had before is closed first, as it may hold the same address. Port 0 is any free one.
    fn bind(&mut self, listen: &Address) -> Result<(), LinkFault>
        ensures does { DoesBind (silent_link self.old) listen.now result (silent_link self.new) }
        ensures ok { OnOk result (self.new ≡ record self.old { listen = Some listen.now }) }
        ensures err { OnErr result (self.new ≡ with_refused_call (record self.old { listen = None })) }
    {
        self.bound = None;
        self.cause = None;
        match open(&self.system, listen) {
            Ok(bound) => {
                self.bound = Some(bound);
                self.tell();
                Ok(())
            }
            Err(error) => Err(self.refuse(Step::Open, error)),
        }
    }

    /// A wait that a signal cut short brought no datagram, and one behind a datagram ends after a millisecond, or at once
    /// where the one before was there already: a burst is over then. The first one ends after a millisecond too. `at` is in
    /// microseconds since the link was made, and never falls.
    fn next(&mut self, limit_us: u64, buffer: &mut [u8]) -> Result<Event, LinkFault>
        requires { 65536 ≤ length buffer.old }
        ensures does { DoesNext (silent_link self.old) buffer.new result (silent_link self.new) }
        ensures ok { IfOk result (λ event. self.new ≡ record self.old { moment = moment_of_event event; nexts = raised self.old.nexts }) }
        ensures later { self.old.moment ≤ self.new.moment }
        ensures err { OnErr result (self.new ≡ with_refused_call (record self.old { nexts = raised self.old.nexts })) }
        ensures bound { OnOk result (IsSome self.old.listen) }
    {
        self.nexts = self.nexts.saturating_add(1);
        match self.wait(limit_us, buffer) {
            Ok(event) => Ok(event),
            Err(error) => Err(self.refuse(Step::Receive, error)),
        }
    }

    /// An address of the other family than that it is bound to is refused, as is a datagram that the system doesn't
    /// take whole.
    fn send<D: Disk>(&mut self, disk: &D, to: &Address, bytes: &[u8]) -> Result<(), LinkFault>
        ensures does { DoesSend (silent_link self.old) (moment_of (D.state disk.now).history) to.now bytes.now result (silent_link self.new) }
        ensures ok { OnOk result (self.new ≡ self.old) }
        ensures err { OnErr result (self.new ≡ with_refused_call self.old) }
        ensures reaches { OnOk result (Reaches self.old.listen to.now) }
    {
        match send_by(&self.bound, to, bytes) {
            Ok(()) => {
                if let Some(meter) = &mut self.meter {
                    meter.note_sent(bytes.len());
                }
                Ok(())
            }
            Err(error) => Err(self.refuse(Step::Send, error)),
        }
    }
}
