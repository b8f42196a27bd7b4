//! What the tests share.
ghost use Rattle.std.specs.Prelude.{IfOk};
ghost use Rattle.op_types.specs.Ranges.{MembersInRange};
ghost use Rattle.op_core.specs.NodeCores.{IsServable};
ghost use Rattle.op_pump.specs.Counts.{IsLimited};
ghost use Rattle.op_pump.specs.Moments.{PeersInRange};

use op_core::{NodeCore, opened_nodes_can_be_served};
use op_memory::{FakeClock, Incoming, KeptCall, MemDisk, NetScript, ScriptNet};
use op_node::Node;
use op_outside::{Addr, Conn, Happening, Took};
use op_pump::{ServeEnd, Served, serve};
use op_setup::{MOST_TURNS, Peers, Settings};
use op_types::{Members, NoMemory, Pid, Seq};
use std::alloc::Global;
use std::collections::VecDeque;
use std::test::Fail;

/// The longest body of a client's frame.
const MOST: usize = 131_072;

/// How many bytes a read gives at most.
const PIECE: usize = 65_536;

/// A client's first byte, the head of the longest body, and that body's zeros, up to so many bytes as a read
/// gives.
fn longest_begun(alloc: Global) -> Result<Vec<u8>, NoMemory> {
    let mut bytes = Vec::from_slice(alloc, b"C\x00\x02\x00\x00")?;
    bytes.resize(PIECE, 0)?;
    Ok(bytes)
}

/// The zeros behind those, but for the last five.
fn longest_goes_on(alloc: Global) -> Result<Vec<u8>, NoMemory> {
    let mut bytes = Vec::new(alloc);
    bytes.resize(MOST - PIECE, 0)?;
    Ok(bytes)
}

/// A client's first byte, and so many puts of `x` at `a`.
fn puts(alloc: Global, count: u64) -> Result<Vec<u8>, NoMemory> {
    let mut bytes = Vec::from_slice(alloc, b"C")?;
    for seq in 0..count {
        bytes.extend_from_slice(b"\0\0\0\x17\x01\0\0\0\0\0\0\0\x07")?;
        bytes.extend_from_slice(&(seq + 1).to_be_bytes())?;
        bytes.extend_from_slice(b"\x01\x01a\0\x01x")?;
    }
    Ok(bytes)
}

/// How many bytes the value is that a long put puts.
const LONG_VALUE: u64 = 4096;

/// A client's first byte, and the put of such a value at `a`, of client 8 and number 1.
fn long_put(alloc: Global) -> Result<Vec<u8>, NoMemory> {
    let mut bytes = Vec::from_slice(alloc, b"C\0\0\x10\x16\x01\0\0\0\0\0\0\0\x08")?;
    bytes.extend_from_slice(b"\0\0\0\0\0\0\0\x01\x01\x01a\x10\0")?;
    for _ in 0..LONG_VALUE {
        bytes.push(120)?;
    }
    Ok(bytes)
}

/// Gets of `a`, of client 7 and these numbers; before the first stands a client's first byte.
fn gets(alloc: Global, first: u64, last: u64) -> Result<Vec<u8>, NoMemory> {
    let mut bytes = Vec::new(alloc);
    if first == 1 {
        bytes.push(67)?;
    }
    for seq in first..=last {
        bytes.extend_from_slice(b"\0\0\0\x14\x01\0\0\0\0\0\0\0\x07")?;
        bytes.extend_from_slice(&seq.to_be_bytes())?;
        bytes.extend_from_slice(b"\x03\x01a")?;
    }
    Ok(bytes)
}

/// That each of these is done.
fn dones(alloc: Global, count: u64) -> Result<Vec<u8>, NoMemory> {
    let mut bytes = Vec::new(alloc);
    for seq in 0..count {
        bytes.extend_from_slice(b"\0\0\0\x11\0\0\0\0\0\0\0\x07")?;
        bytes.extend_from_slice(&(seq + 1).to_be_bytes())?;
        bytes.push(1)?;
    }
    Ok(bytes)
}

/// Nodes 1 to 3, of which 1 is the only member, so many turns, and at how many untrimmed entries the leader
/// trims by itself.
fn settings(alloc: Global, turns: u64, trim_every: Option<u64>) -> Result<Settings, NoMemory>
    ensures peers { IfOk result PeersInRange }
    ensures limits { IfOk result IsLimited }
{
    let addr = Addr {
        host: 0,
        port: 7000,
    };
    let peers = Vec::from_slice(alloc, &[(1, addr), (2, addr), (3, addr)])?;
    Ok(Settings {
        tick_ms: 10,
        turns: turns.min(MOST_TURNS),
        members: sole()?,
        peers: Peers::from_vec(peers),
        is_mirrored: false,
        observers: Seq::new(alloc),
        trim_every,
        cluster: None,
    })
}

/// The first member alone.
fn sole() -> Result<Members, NoMemory>
    ensures { IfOk result MembersInRange }
{
    Members::from_slice(&[1])
}

/// The members 1 and 2.
fn pair() -> Result<Members, NoMemory>
    ensures { IfOk result MembersInRange }
{
    Members::from_slice(&[1, 2])
}

/// What a script does next.
#[derive(Clone, Copy)]
pub enum Step<'a> {
    /// A wait gives these.
    Happens(&'a [Happening]),
    /// So many waits give nothing.
    Idles(usize),
    /// A read gives these bytes.
    Comes(&'a [u8]),
    /// A read gives `longest_begun`.
    ComesLongestBegun,
    /// A read gives `longest_goes_on`.
    ComesLongestGoesOn,
    /// A read gives a client's first byte and so many puts, of client 7 and numbers from 1.
    ComesPuts(u64),
    /// A read gives a client's first byte and client 8's first put, of 4096 bytes at `a`.
    ComesLongPut,
    /// A read gives gets of `a`, of client 7 and the numbers from the one to the other; before number 1
    /// stands a client's first byte.
    ComesGets(u64, u64),
    /// A write takes so much.
    Takes(Took),
    /// This call fails.
    Fails(u64),
}

fn script_of(alloc: Global, steps: &[Step]) -> Result<NetScript, NoMemory> {
    let mut script = NetScript::new(alloc);
    for step in steps {
        add(&mut script, alloc, *step)?;
    }
    Ok(script)
}

fn add(script: &mut NetScript, alloc: Global, step: Step) -> Result<(), NoMemory> {
    match step {
        Step::Happens(happenings) => happens(script, alloc, happenings),
        Step::Idles(count) => idles(script, alloc, count),
        Step::Comes(bytes) => read_gives(script, Vec::from_slice(alloc, bytes)?),
        Step::ComesLongestBegun => read_gives(script, longest_begun(alloc)?),
        Step::ComesLongestGoesOn => read_gives(script, longest_goes_on(alloc)?),
        Step::ComesPuts(count) => read_gives(script, puts(alloc, count)?),
        Step::ComesLongPut => read_gives(script, long_put(alloc)?),
        Step::ComesGets(first, last) => read_gives(script, gets(alloc, first, last)?),
        Step::Takes(took) => Ok(script.writes.push_back(took)?),
        Step::Fails(call) => Ok(script.fails.push(call)?),
    }
}

/// The next wait gives these.
fn happens(
    script: &mut NetScript,
    alloc: Global,
    happenings: &[Happening],
) -> Result<(), NoMemory> {
    script.waits.push_back(Vec::from_slice(alloc, happenings)?)?;
    Ok(())
}

fn idles(script: &mut NetScript, alloc: Global, count: usize) -> Result<(), NoMemory> {
    for _ in 0..count {
        happens(script, alloc, &[])?;
    }
    Ok(())
}

/// The next read gives these bytes.
fn read_gives(script: &mut NetScript, bytes: Vec<u8>) -> Result<(), NoMemory> {
    script.reads.push_back(Incoming::Bytes(bytes))?;
    Ok(())
}

/// How serving ended, how many marks there are, the net, and how many calls of the first disk were made.
type Run = (ServeEnd, usize, ScriptNet, u64);

/// The node that serves: node 1.
#[derive(Clone, Copy)]
pub enum Server {
    /// The only member.
    Alone,
    /// The same, which trims by itself at so many untrimmed entries.
    Trimming(u64),
    /// Node 2 is the other member.
    Beside,
    /// The only member, where this call of its first disk fails.
    Failing(u64),
    /// The same, where 2 is the other member.
    FailingBeside(u64),
}

/// The members of its configuration.
fn members_of(server: Server) -> Result<Members, NoMemory>
    ensures { IfOk result MembersInRange }
{
    match server {
        Server::Alone | Server::Trimming(_) | Server::Failing(_) => sole(),
        Server::Beside | Server::FailingBeside(_) => pair(),
    }
}

/// At how many untrimmed entries it trims by itself, if it does.
fn trims_of(server: Server) -> Option<u64> {
    match server {
        Server::Trimming(every) => Some(every),
        _ => None,
    }
}

/// The call of its first disk that fails, if one does.
fn fails_of(server: Server) -> Option<u64> {
    match server {
        Server::Failing(call) | Server::FailingBeside(call) => Some(call),
        _ => None,
    }
}

/// What is served, and what comes of it.
#[derive(Clone, Copy)]
pub struct Row<'a> {
    pub server: Server,
    pub steps: &'a [Step<'a>],
    pub turns: u64,
    pub conns: &'a [Conduct<'a>],
    pub end: ServeEnd,
    /// How many marks there are.
    pub lost: usize,
}

/// How it ended, how many calls of the net there were, and the first connection with which it went otherwise.
pub fn seen_of(alloc: Global, row: &Row) -> Result<Seen, Fail> {
    let (end, lost, net, disk_calls) = served(alloc, row)?;
    Ok(Seen {
        is_ended: (end, lost) == (row.end, row.lost),
        calls: net.calls().len(),
        disk_calls,
        wrong: first_wrong(alloc, &net, row.conns)?,
    })
}

/// The first row that goes otherwise.
pub fn first_other(alloc: Global, rows: &[Row]) -> Result<Option<usize>, Fail> {
    for (place, row) in rows.iter().enumerate() {
        let seen = seen_of(alloc, row)?;
        if !seen.is_ended || seen.wrong.is_some() {
            return Ok(Some(place));
        }
    }
    Ok(None)
}

/// A new disk, of which this call fails, if one does.
fn disk(alloc: Global, fails: Option<u64>) -> Result<MemDisk, NoMemory> {
    let mut disk = MemDisk::new(alloc, Vec::new(alloc))?;
    if let Some(call) = fails {
        disk.fail_at(call)?;
    }
    Ok(disk)
}

/// Opens node 1 of these members on new disks, of the first of which this call fails, if one does.
fn opened(alloc: Global, members: &Members, fails: Option<u64>) -> Result<Node<MemDisk>, Fail>
    requires { MembersInRange members.now }
    ensures { IfOk result IsServable }
{
    opened_nodes_can_be_served::<MemDisk>();
    let first = disk(alloc, fails)?;
    let second = disk(alloc, None)?;
    match Node::open(alloc, 1, members, first, second) {
        Ok((node, _sends)) => Ok(node),
        Err(_) => Err("it is not opened".into()),
    }
}

/// What comes of serving.
fn served(alloc: Global, row: &Row) -> Result<Run, Fail> {
    let settings = settings(alloc, row.turns, trims_of(row.server))?;
    let members = members_of(row.server)?;
    let mut net = ScriptNet::new(alloc, script_of(alloc, row.steps)?);
    let mut clock = FakeClock::new(alloc, VecDeque::new(alloc), 1);
    let node = opened(alloc, &members, fails_of(row.server))?;
    let Served { core, end } = serve(alloc, NodeCore::new(node), &mut net, &mut clock, &settings);
    let (_, first, _) = core.node.park();
    let (end, lost) = end?;
    Ok((end, lost.len(), net, first.calls()))
}

/// What is written to a connection.
#[derive(Clone, Copy)]
pub enum Wrote<'a> {
    Bytes(&'a [u8]),
    /// A reply that is of no command, and what it says.
    Reply(&'a [u8]),
    /// That so many puts are done, of client 7 and numbers from 1.
    Dones(u64),
    /// So many bytes.
    Long(usize),
    Something,
    /// Something or nothing.
    Any,
}

/// A connection, what is written to it, and how often it is closed.
pub type Conduct<'a> = (Conn, Wrote<'a>, usize);

/// What was seen of serving.
#[derive(Clone, Copy)]
pub struct Seen {
    /// Whether it ended as it is to, with so many marks.
    pub is_ended: bool,
    /// The calls of the net.
    pub calls: usize,
    /// The calls of the first disk.
    pub disk_calls: u64,
    /// The first connection with which it went otherwise.
    pub wrong: Option<Conn>,
}

fn first_wrong(alloc: Global, net: &ScriptNet, conns: &[Conduct]) -> Result<Option<Conn>, Fail> {
    for (conn, wrote, count) in conns {
        if closings(net, *conn) != *count || !is_written(alloc, net, *conn, *wrote)? {
            return Ok(Some(*conn));
        }
    }
    Ok(None)
}

/// Whether this is what is written to a connection.
fn is_written(alloc: Global, net: &ScriptNet, conn: Conn, wrote: Wrote) -> Result<bool, Fail> {
    let bytes = written(alloc, net, conn)?;
    Ok(match wrote {
        Wrote::Bytes(wanted) => bytes.as_slice() == wanted,
        Wrote::Reply(said) => bytes.as_slice() == reply(alloc, said)?.as_slice(),
        Wrote::Dones(count) => bytes.as_slice() == dones(alloc, count)?.as_slice(),
        Wrote::Long(len) => bytes.len() == len,
        Wrote::Something => !bytes.is_empty(),
        Wrote::Any => true,
    })
}

/// A reply that is of no command: its head, the client and number 0, and what is said.
fn reply(alloc: Global, said: &[u8]) -> Result<Vec<u8>, Fail> {
    let Ok(length) = u8::try_from(said.len().saturating_add(16)) else {
        return Err("it is too long".into());
    };
    let mut bytes = Vec::from_slice(alloc, &[0, 0, 0, length])?;
    for _ in 0..16 {
        bytes.push(0)?;
    }
    bytes.extend_from_slice(said)?;
    Ok(bytes)
}

/// All that was written to a connection, where writes take everything.
fn written(alloc: Global, net: &ScriptNet, conn: Conn) -> Result<Vec<u8>, NoMemory> {
    let mut all = Vec::new(alloc);
    for call in net.calls() {
        if let KeptCall::Wrote(to, bytes, _) = call {
            if *to == conn {
                all.extend_from_slice(bytes.as_slice())?;
            }
        }
    }
    Ok(all)
}

/// How often a connection was closed.
fn closings(net: &ScriptNet, conn: Conn) -> usize {
    net.calls()
        .iter()
        .filter(|call| matches!(call, KeptCall::Closed(c) if *c == conn))
        .count()
}
