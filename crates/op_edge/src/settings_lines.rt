//! What is told of settings: which key or row of them it is that isn't taken, where the status's line says
//! less.

use crate::log::Log;
use op_setup::{KEYS, addr};
use op_text::pid;
use std::alloc::{AllocError, Global};
use std::time::Clock;
use toml::{Table, Value};

/// Tells what is odd in this text of settings: that it is no TOML, keys that no setting has, rows of
/// `[peers]` that are no peer's, nodes with one address, members and observers that are no peers, and
/// observers that are members, too.
pub(crate) fn tell_settings<R: Clock + Eprint + Alloc<A = Global>>(
    rt: &R,
    log: Log,
    text: &[u8],
) -> Result<(), AllocError> {
    match toml::table_from_slice(rt.alloc(), text) {
        Ok(table) => tell_table(rt, log, &table),
        Err(error) => {
            let line = line_of(text, error.span().map_or(0, |span| span.start));
            let why = error.message();
            log.tell(
                rt,
                format_args!("line {line} of the settings is no TOML: {why}"),
            );
            Ok(())
        }
    }
}

/// In which line of a text this byte offset is, from 1.
fn line_of(text: &[u8], at: usize) -> usize {
    let before = text.get(..at).unwrap_or(text);
    before
        .iter()
        .filter(|byte| **byte == b'\n')
        .count()
        .saturating_add(1)
}

fn tell_table<R: Clock + Eprint + Alloc<A = Global>>(
    rt: &R,
    log: Log,
    table: &Table,
) -> Result<(), AllocError> {
    tell_unknown(rt, log, table);
    let Some(Value::Table(peers)) = table.get("peers") else {
        return Ok(());
    };
    tell_peers(rt, log, peers);
    tell_absent(rt, log, table, "members", "member", peers)?;
    tell_absent(rt, log, table, "observers", "observer", peers)?;
    tell_both(rt, log, table);
    Ok(())
}

/// Tells each key that no setting has.
fn tell_unknown<R: Clock + Eprint + Alloc<A = Global>>(rt: &R, log: Log, table: &Table) {
    for (key, _) in table {
        let key = key.as_str();
        if !KEYS.contains(&key) {
            log.tell(
                rt,
                format_args!("no setting has the key {key}: it is ignored"),
            );
        }
    }
}

/// Tells what is wrong with the rows of `[peers]`.
fn tell_peers<R: Clock + Eprint + Alloc<A = Global>>(rt: &R, log: Log, peers: &Table) {
    for (key, value) in peers {
        let key = key.as_str();
        if KEYS.contains(&key) {
            log.tell(
                rt,
                format_args!("the key {key} stands under [peers]: it belongs above"),
            );
        } else if pid(key.as_bytes()).is_none() {
            log.tell(
                rt,
                format_args!("{key} under [peers] is no id from 1 to 999"),
            );
        } else if let Some(text) = addr_text(value) {
            tell_twins(rt, log, peers, key, text);
        } else {
            log.tell(
                rt,
                format_args!("node {key} has no address as '10.0.0.1:7000' is one"),
            );
        }
    }
}

/// The text of an address, if it is one.
fn addr_text(value: &Value) -> Option<&str> {
    let text = value.as_str()?;
    if addr(text).is_some() {
        Some(text)
    } else {
        None
    }
}

/// Tells which nodes whose keys come later have this node's address, too.
fn tell_twins<R: Clock + Eprint + Alloc<A = Global>>(
    rt: &R,
    log: Log,
    peers: &Table,
    key: &str,
    text: &str,
) {
    for (other, value) in peers {
        let other = other.as_str();
        if key < other && value.as_str() == Some(text) {
            log.tell(rt, format_args!("nodes {key} and {other} have one address"));
        }
    }
}

/// Tells which ids of this key are no peers, each by this name.
fn tell_absent<R: Clock + Eprint + Alloc<A = Global>>(
    rt: &R,
    log: Log,
    table: &Table,
    key: &str,
    name: &str,
    peers: &Table,
) -> Result<(), AllocError> {
    let Some(Value::Array(ids)) = table.get(key) else {
        return Ok(());
    };
    for value in ids.as_slice() {
        if let Some(id) = value.as_integer() {
            let text = id.to_string(rt.alloc())?;
            if peers.get(text.as_str()).is_none() {
                log.tell(rt, format_args!("{name} {id} isn't under [peers]"));
            }
        }
    }
    Ok(())
}

/// Tells which observers are members, too.
fn tell_both<R: Clock + Eprint + Alloc<A = Global>>(rt: &R, log: Log, table: &Table) {
    let Some(Value::Array(observers)) = table.get("observers") else {
        return;
    };
    let Some(Value::Array(members)) = table.get("members") else {
        return;
    };
    for observer in observers.as_slice() {
        if let Some(id) = observer.as_integer() {
            for member in members.as_slice() {
                if member.as_integer() == Some(id) {
                    log.tell(rt, format_args!("{id} is a member and an observer"));
                }
            }
        }
    }
}
