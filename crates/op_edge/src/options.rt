ghost use Rattle.libc.specs.Net.{SockOption};

use libc::net::{
    IPPROTO_TCP, SO_KEEPALIVE, SOL_SOCKET, TCP_KEEPCNT, TCP_KEEPIDLE, TCP_KEEPINTVL,
    TCP_USER_TIMEOUT, setsockopt,
};
use mio::net::TcpStream;
use std::io;
use std::os::fd::AsRawFd;

/// How long written bytes may go without an acknowledgement, in milliseconds.
pub(crate) const UNMOVED_MILLIS: u32 = 2000;

/// After how many seconds without a byte the other side is asked whether it is there.
const ASKED_SECONDS: u32 = 60;

/// After how many seconds it is asked again, and how often at most.
const ASKED_AGAIN_SECONDS: u32 = 10;

const ASKED_TIMES: u32 = 3;

/// The bytes of an option's value, an `unsigned int` of C.
const VALUE_BYTES: usize = 4;

/// Has a connection send each piece at once, and end where written bytes go without an acknowledgement, or
/// where nobody is at the other end any more.
pub(crate) fn set_options(stream: &TcpStream) -> io::Result<()> {
    stream.set_nodelay(true)?;
    let fd = stream.as_raw_fd();
    set(fd, IPPROTO_TCP, TCP_USER_TIMEOUT, UNMOVED_MILLIS)?;
    set(fd, SOL_SOCKET, SO_KEEPALIVE, 1)?;
    set(fd, IPPROTO_TCP, TCP_KEEPIDLE, ASKED_SECONDS)?;
    set(fd, IPPROTO_TCP, TCP_KEEPINTVL, ASKED_AGAIN_SECONDS)?;
    set(fd, IPPROTO_TCP, TCP_KEEPCNT, ASKED_TIMES)
}

/// Sets an option of a connection.
fn set(fd: i32, level: i32, name: i32, number: u32) -> io::Result<()>
    requires { SockOption level name }
{
    let mut value = [0u8; 16];
    value[..VALUE_BYTES].copy_from_slice(&number.to_ne_bytes());
    let len = VALUE_BYTES as u32;
    if unsafe { setsockopt(fd, level, name, &value, len) } < 0 {
        return Err(io::Error::other("an option of a connection was refused"));
    }
    Ok(())
}
