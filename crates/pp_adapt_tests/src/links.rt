// Links over sockets.
ghost use Rattle.std.specs.Prelude.{◌≤◌, length, IfOk};

use crate::causes::is_told;
use pp_adapt::UdpLink;
use pp_outside::{Address, Event, Link, LinkFault, NullDisk};
use std::alloc::{AllocError, Global};
use std::io;
use std::net::UdpSocket;
use std::process::Abort;

// Room for a datagram.
fn room(alloc: Global) -> Result<Vec<u8>, AllocError>
    ensures { IfOk result (λ room. 65536 ≤ length room.items) }
{
    vec![in alloc; 0; 65536]
}

// Sends itself a datagram, which comes. Behind it a wait of an hour is short.
fn sends_itself(
    rt: &impl Abort,
    link: &mut impl Link,
    own: &Address,
    buffer: &mut [u8],
) -> Result<(), LinkFault>
    requires { 65536 ≤ length buffer.old }
{
    link.bind(own)?;
    link.send(&NullDisk::new(), own, b"abc")?;
    let Event::Datagram { from, len, .. } = link.next(10_000_000, buffer)? else {
        return Err(LinkFault);
    };
    assert!(rt; from == *own && len == 3);
    assert!(rt; buffer.starts_with(b"abc\0"));
    match link.next(3_600_000_000, buffer)? {
        Event::Datagram { .. } => Err(LinkFault),
        Event::Quiet { .. } => Ok(()),
    }
}

#[test]
fn sends_to_its_own_socket(rt: HostRuntime) -> io::Result<()> {
    let mut buffer = room(rt.alloc())?;
    let taken = UdpSocket::bind(&rt, "127.0.0.1:0")?;
    let own = Address::V4([127, 0, 0, 1], taken.local_addr()?.port());
    let mut link = UdpLink::new(&rt);
    assert!(rt; link.bind(&own).is_err());
    is_told(
        &rt,
        rt.alloc(),
        link.cause(),
        "Address already in use (os error 98)",
    );
    drop(taken);
    assert!(rt; sends_itself(&rt, &mut link, &own, &mut buffer).is_ok());
    Ok(())
}
