use op_edge::{FileDisk, MioNet, MonotonicClock, Programs};
use op_memory::FakeClock;
use op_outside::{Addr, Clock, Conn, Disk, DiskFail, Got, Happening, Net, NetFail, Spawner, Took};
use std::alloc::AllocError;
use std::collections::VecDeque;
use std::net::{Ipv4Addr, SocketAddr, TcpListener};
use std::path::PathBuf;
use std::test::Fail;
use std::{fs, io};

fn write_twice<D: Disk>(disk: &mut D) -> Result<(), DiskFail> {
    disk.write_at(0, b"abcdefgh")?;
    disk.sync()?;
    disk.write_at(2, b"XY")?;
    disk.sync()
}

/// Writes, cuts and syncs, and gives the length and the bytes from byte offset 1 on.
fn use_disk<D: Disk>(disk: &mut D) -> Result<(u64, [u8; 3]), DiskFail> {
    write_twice(disk)?;
    disk.cut(4)?;
    disk.sync()?;
    let mut bytes = [0u8; 3];
    disk.read(1, &mut bytes)?;
    Ok((disk.len()?, bytes))
}

/// The length of a new disk, what its use gives, and the faults after it.
fn begun<D: Disk>(disk: &mut D) -> (Result<u64, DiskFail>, Result<(u64, [u8; 3]), DiskFail>, u64) {
    (disk.len(), use_disk(disk), disk.faults())
}

/// Whether a read, a write and a cut past the end of a disk of 4 bytes fail, and the faults after them.
fn past_end<D: Disk>(disk: &mut D) -> ([bool; 3], u64) {
    let read = disk.read(1, &mut [0u8; 4]).is_err();
    let write = disk.write_at(5, b"x").is_err();
    let cut = disk.cut(5).is_err();
    ([read, write, cut], disk.faults())
}

/// Whether a new disk is used without a fault, and then refuses what is past its end.
fn is_used<D: Disk>(disk: &mut D) -> bool {
    begun(disk) == (Ok(0), Ok((4, *b"bXY")), 0) && past_end(disk) == ([true, true, true], 3)
}

/// Whether the file at this path, which is absent, is used so as a disk.
fn is_used_at(rt: &HostRuntime, path: &str) -> Result<bool, AllocError> {
    let mut disk = FileDisk::new(rt, PathBuf::from_str(rt.alloc(), path)?);
    Ok(fs::metadata(rt, path).is_err() && is_used(&mut disk))
}

/// The length of the file at this path, as a disk, and the faults then.
fn length_at(rt: &HostRuntime, path: &str) -> Result<(Result<u64, DiskFail>, u64), AllocError> {
    let mut disk = FileDisk::new(rt, PathBuf::from_str(rt.alloc(), path)?);
    Ok((disk.len(), disk.faults()))
}

#[test]
fn a_file_is_a_disk(rt: HostRuntime) -> Result<(), Fail> {
    let name = "edges.disk";
    assert!(rt; is_used_at(&rt, name)?);
    assert_eq!(rt; length_at(&rt, name)?, (Ok(4), 0));
    fs::remove_file(&rt, name)?;
    assert_eq!(rt; length_at(&rt, "absent/edges.disk")?, (Err(DiskFail), 1));
    Ok(())
}

/// A call of a disk, which holds some bytes.
#[derive(Clone, Copy)]
enum DiskCall {
    Len,
    Read,
    Write,
    Cut,
    Sync,
}

const DISK_CALLS: [DiskCall; 5] = [
    DiskCall::Len,
    DiskCall::Read,
    DiskCall::Write,
    DiskCall::Cut,
    DiskCall::Sync,
];

/// Whether a call of a disk is answered.
fn is_answered<D: Disk>(disk: &mut D, call: DiskCall) -> bool {
    match call {
        DiskCall::Len => disk.len().is_ok(),
        DiskCall::Read => disk.read(0, &mut [0u8; 1]).is_ok(),
        DiskCall::Write => disk.write_at(0, b"x").is_ok(),
        DiskCall::Cut => disk.cut(0).is_ok(),
        DiskCall::Sync => disk.sync().is_ok(),
    }
}

/// The first call that is answered, or that is no fault.
fn first_answered<D: Disk>(disk: &mut D) -> Option<usize> {
    for (place, call) in DISK_CALLS.iter().enumerate() {
        let faults = disk.faults();
        if is_answered(disk, *call) || disk.faults() <= faults {
            return Some(place);
        }
    }
    None
}

/// Whether the file at this path, which is absent, is used as a disk, and another disk on it then answers no
/// call.
fn is_held_at(rt: &HostRuntime, path: &str) -> Result<bool, AllocError> {
    let mut first = FileDisk::new(rt, PathBuf::from_str(rt.alloc(), path)?);
    let mut second = FileDisk::new(rt, PathBuf::from_str(rt.alloc(), path)?);
    Ok(is_used(&mut first) && first_answered(&mut second).is_none() && first.len() == Ok(4))
}

/// Bytes 1 to 3 of the file at this path, as a disk.
fn bytes_at(rt: &HostRuntime, path: &str) -> Result<Result<[u8; 3], DiskFail>, AllocError> {
    let mut disk = FileDisk::new(rt, PathBuf::from_str(rt.alloc(), path)?);
    let mut bytes = [0u8; 3];
    Ok(disk.read(1, &mut bytes).map(|()| bytes))
}

#[test]
fn a_file_is_one_disk_at_a_time(rt: HostRuntime) -> Result<(), Fail> {
    let name = "edges.held";
    assert!(rt; is_held_at(&rt, name)?);
    assert_eq!(rt; bytes_at(&rt, name)?, Ok(*b"bXY"));
    fs::remove_file(&rt, name)?;
    Ok(())
}

#[test]
fn the_clock_does_not_go_back(rt: HostRuntime) {
    let mut clock = MonotonicClock::new(&rt);
    let mut last = clock.millis();
    for _ in 0..1000u32 {
        let now = clock.millis();
        assert!(rt; last <= now);
        last = now;
    }
}

/// What happens next.
fn next<N: Net>(net: &mut N) -> Result<Happening, NetFail> {
    for _ in 0..50u32 {
        if net.wait(100)? > 0 {
            return Ok(net.ready(0));
        }
    }
    Err(NetFail)
}

/// Listens at a port of this machine that is free.
fn listen<N: Net>(net: &mut N) -> Option<Addr> {
    for port in 21_000..21_100u16 {
        let addr = Addr {
            host: LOOPBACK,
            port,
        };
        if net.listen(&addr).is_ok() {
            return Some(addr);
        }
    }
    None
}

/// 127.0.0.1.
const LOOPBACK: u32 = 0x7f00_0001;

/// The ends of a connection: the one that dialled, and the one that was listening.
#[derive(Clone, Copy)]
enum End {
    Near,
    Far,
}

/// A call at an end of a connection, with its answer.
#[derive(Clone, Copy)]
enum Step<'a> {
    Opened,
    Readable,
    Ended,
    /// Nothing happens.
    Idle,
    /// All of these bytes are taken.
    Writes(&'a [u8]),
    /// These bytes come.
    Reads(&'a [u8]),
    ReadsNothing(Got),
    Closes,
}

/// Whether a call at an end answers so.
fn answers<N: Net>(net: &mut N, conn: Conn, step: Step) -> bool {
    let mut buf = [0u8; 8];
    match step {
        Step::Opened => next(net) == Ok(Happening::Writable(conn)),
        Step::Readable => next(net) == Ok(Happening::Readable(conn)),
        Step::Ended => next(net) == Ok(Happening::Ended(conn)),
        Step::Idle => net.wait(0) == Ok(0),
        Step::Writes(bytes) => {
            !bytes.is_empty() && net.write(conn, bytes) == Ok(Took::Bytes(bytes.len()))
        }
        Step::Reads(bytes) => net.read(conn, &mut buf) == Ok(Got::Bytes(bytes.len()))
            && buf.starts_with(bytes),
        Step::ReadsNothing(got) => net.read(conn, &mut buf) == Ok(got),
        Step::Closes => {
            net.close(conn);
            true
        }
    }
}

/// Bytes both ways, and the end. What wasn't read is told again.
const TALK: [(End, Step); 17] = [
    (End::Near, Step::Opened),
    (End::Near, Step::Writes(b"ping")),
    (End::Far, Step::Readable),
    (End::Far, Step::Readable),
    (End::Far, Step::Reads(b"ping")),
    (End::Far, Step::ReadsNothing(Got::NotYet)),
    (End::Far, Step::Idle),
    (End::Far, Step::Writes(b"pong!")),
    (End::Near, Step::Readable),
    (End::Near, Step::Reads(b"pong!")),
    (End::Near, Step::Closes),
    (End::Near, Step::ReadsNothing(Got::Ended)),
    (End::Far, Step::Readable),
    (End::Far, Step::ReadsNothing(Got::Ended)),
    (End::Far, Step::Ended),
    (End::Far, Step::Closes),
    (End::Far, Step::Idle),
];

/// Dials a net that listens at this address, and gives both ends of the connection.
fn accepted<N: Net>(server: &mut N, client: &mut N, addr: &Addr) -> Option<(Conn, Conn)> {
    let Ok(Some(near)) = client.dial(addr) else {
        return None;
    };
    match next(server) {
        Ok(Happening::Accepted(far)) => Some((near, far)),
        _ => None,
    }
}

/// The first step of the talk between two nets that goes otherwise.
fn first_wrong<N: Net>(server: &mut N, client: &mut N, (near, far): (Conn, Conn)) -> Option<usize> {
    for (place, (end, step)) in TALK.iter().enumerate() {
        let goes = match end {
            End::Near => answers(client, near, *step),
            End::Far => answers(server, far, *step),
        };
        if !goes {
            return Some(place);
        }
    }
    None
}

/// The first step of the talk that goes otherwise, and the dialling net's faults; None where there is no
/// connection.
fn talk<N: Net>(server: &mut N, client: &mut N) -> Option<(Option<usize>, u64)> {
    let addr = listen(server)?;
    let conns = accepted(server, client, &addr)?;
    Some((first_wrong(server, client, conns), client.faults()))
}

#[test]
fn sockets_carry_bytes_both_ways(rt: HostRuntime) {
    let mut server = MioNet::new(&rt, rt.alloc(), MonotonicClock::new(&rt));
    let mut client = MioNet::new(&rt, rt.alloc(), MonotonicClock::new(&rt));
    assert_eq!(rt; talk(&mut server, &mut client), Some((None, 0)));
}

/// Writes until there is no room.
fn fill<N: Net>(net: &mut N, conn: Conn) -> Result<Took, NetFail> {
    let piece = [7u8; 16_384];
    for _ in 0..10_000u32 {
        match net.write(conn, &piece)? {
            Took::Bytes(_) => {}
            other => return Ok(other),
        }
    }
    Err(NetFail)
}

/// Fills a connection whenever it has room, until it has ended.
fn fill_until_ended<N: Net>(net: &mut N, conn: Conn) -> Result<Took, NetFail> {
    let mut last = fill(net, conn)?;
    for _ in 0..50u32 {
        match next(net)? {
            Happening::Ended(_) => return Ok(last),
            _ => last = fill(net, conn)?,
        }
    }
    Err(NetFail)
}

/// Dials, and gives the connection once it is open.
fn opened<N: Net>(net: &mut N, addr: &Addr) -> Option<Conn> {
    let Ok(Some(conn)) = net.dial(addr) else {
        return None;
    };
    if next(net) == Ok(Happening::Writable(conn)) {
        Some(conn)
    } else {
        None
    }
}

/// Whether a dial to this address gives no connection, or one that ends at once.
fn ends_at_once<N: Net>(net: &mut N, addr: &Addr) -> bool {
    let Ok(Some(conn)) = net.dial(addr) else {
        return true;
    };
    next(net) == Ok(Happening::Readable(conn)) && net.read(conn, &mut [0u8; 8]) == Ok(Got::Ended)
}

/// A port where nobody listens.
const CLOSED: Addr = Addr {
    host: LOOPBACK,
    port: 1,
};

/// Whether a connection whose bytes don't move ends with no room, and a dial to a port where nobody listens
/// at once, without a fault; None where there is no connection.
fn ends_stuck<N: Net, M: Net>(server: &mut N, client: &mut M) -> Option<bool> {
    let addr = listen(server)?;
    let near = opened(client, &addr)?;
    let is_stuck = fill_until_ended(client, near) == Ok(Took::NotYet);
    client.close(near);
    Some(is_stuck && ends_at_once(client, &CLOSED) && client.faults() == 0)
}

/// By a clock that goes on by a second with each answer.
#[test]
fn a_connection_that_is_stuck_ends(rt: HostRuntime) {
    let clock = FakeClock::new(rt.alloc(), VecDeque::new(rt.alloc()), 1000);
    let mut server = MioNet::new(&rt, rt.alloc(), MonotonicClock::new(&rt));
    let mut client = MioNet::new(&rt, rt.alloc(), clock);
    assert_eq!(rt; ends_stuck(&mut server, &mut client), Some(true));
}

/// How long written bytes go unmoved, in milliseconds. Two clocks may differ by one.
const UNMOVED_MILLIS: u64 = 2000;

/// The first connection that has ended. Each is read whenever it can be read, and filled whenever it has
/// room.
fn first_end<N: Net>(net: &mut N) -> Result<Conn, NetFail> {
    for _ in 0..50u32 {
        match next(net)? {
            Happening::Ended(conn) => return Ok(conn),
            Happening::Readable(conn) => {
                net.read(conn, &mut [0u8; 8])?;
            }
            Happening::Writable(conn) | Happening::Accepted(conn) => {
                fill(net, conn)?;
            }
        }
    }
    Err(NetFail)
}

/// The address at which this listens.
fn addr_of(listener: &TcpListener) -> io::Result<Addr> {
    Ok(Addr {
        host: LOOPBACK,
        port: listener.local_addr()?.port(),
    })
}

/// Whether it took so long, where the bound is this.
fn is_within(millis: Option<u64>, bound: u64) -> bool {
    match millis {
        Some(millis) => bound <= millis.saturating_add(1) && millis < bound.saturating_mul(2),
        None => false,
    }
}

/// How many milliseconds it takes until a dialled connection has ended that is filled; None where it isn't
/// the first to end, or a net fails.
fn unmoved<N: Net, C: Clock>(net: &mut N, clock: &mut C, addr: &Addr) -> Option<u64> {
    let begin = clock.millis();
    let conn = net.dial(addr).ok()?;
    let ended = first_end(net).ok()?;
    if conn != Some(ended) || net.faults() != 0 {
        return None;
    }
    Some(clock.millis().saturating_sub(begin))
}

/// By the real clock a connection whose bytes don't move has ended after 2 seconds. The other end isn't read.
#[test]
fn bytes_that_do_not_move_end_a_connection(rt: HostRuntime) -> Result<(), Fail> {
    let listener = TcpListener::bind(&rt, SocketAddr::from((Ipv4Addr::LOCALHOST, 0)))?;
    let addr = addr_of(&listener)?;
    let mut net = MioNet::new(&rt, rt.alloc(), MonotonicClock::new(&rt));
    let millis = unmoved(&mut net, &mut MonotonicClock::new(&rt), &addr);
    assert!(rt; is_within(millis, UNMOVED_MILLIS), "{millis:?}");
    Ok(())
}

/// Starts the program of an id and waits for its end, which gives this status, and once more, which fails.
/// Gives the faults after each of the two, or None where something goes otherwise.
fn faults_of_ends<S: Spawner>(
    spawner: &mut S,
    id: u32,
    input: &[u8],
    status: u8,
) -> Option<(u64, u64)> {
    if spawner.start(id, input).is_err() || spawner.end(id) != Ok(status) {
        return None;
    }
    let first = spawner.faults();
    if spawner.end(id).is_ok() {
        return None;
    }
    Some((first, spawner.faults()))
}

/// What the shell gives that is run as program 7.
fn faults_of_shell(rt: &HostRuntime) -> Result<Option<(u64, u64)>, AllocError> {
    let shell = PathBuf::from_str(rt.alloc(), "/bin/sh")?;
    let mut children = Programs::new(rt, Ok(shell));
    Ok(faults_of_ends(&mut children, 7, b"4\n", 47))
}

/// Whether a program that is absent starts as program 8, and the faults then.
fn starts_absent(rt: &HostRuntime) -> Result<(bool, u64), AllocError> {
    let absent = PathBuf::from_str(rt.alloc(), "/absent/program")?;
    let mut nobody = Programs::new(rt, Ok(absent));
    Ok((nobody.start(8, b"").is_ok(), nobody.faults()))
}

/// The shell runs the script `node` of the folder `n7`, which ends with the number that it is given and the
/// program's id.
#[test]
fn a_child_runs_in_its_folder(rt: HostRuntime) -> Result<(), Fail> {
    fs::create_dir(&rt, "n7")?;
    fs::write(&rt, "n7/node", "read number; exit $number$1")?;
    assert_eq!(rt; faults_of_shell(&rt)?, Some((0, 1)));
    fs::remove_file(&rt, "n7/node")?;
    fs::remove_dir(&rt, "n7")?;
    assert_eq!(rt; starts_absent(&rt)?, (false, 1));
    fs::remove_dir(&rt, "n8")?;
    Ok(())
}
