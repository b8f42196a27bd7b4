//! Nodes' lines, as text.
ghost use Rattle.std.specs.Prelude.{Some};
ghost use Rattle.op_text.specs.Nodes.{at_text, joining_text, node_text, running_text};

use op_runs::{NodeLine, Running};
use op_types::ConfNo;
use std::fmt;

/// A node's line of the report, which prints with its end.
#[derive(Clone, Copy)]
pub struct NodeText(pub NodeLine);

impl fmt::Display for NodeText {
    ghost output = { λ n. Some (node_text n.0) };

    fn fmt<W: fmt::Write>(&self, f: &mut fmt::Formatter<W>) -> fmt::Result {
        let pid = self.0.pid;
        let at = PlaceText(self.0.at);
        let joining = JoiningText(self.0.joining);
        let running = RunningText(self.0.running);
        writeln!(f, "node {pid}{at}{joining}{running}")
    }
}

/// Where a node stands: its configuration, how many entries are decided, and how many are trimmed.
#[derive(Clone, Copy)]
struct PlaceText(Option<(ConfNo, u64, u64)>);

impl fmt::Display for PlaceText {
    ghost output = { λ p. Some (at_text p.0) };

    fn fmt<W: fmt::Write>(&self, f: &mut fmt::Formatter<W>) -> fmt::Result {
        match self.0 {
            Some((conf, decided, trimmed)) => {
                write!(f, " config {conf} decided {decided} trimmed {trimmed}")
            }
            None => f.write_str(" spare"),
        }
    }
}

/// Which configuration a node is joining, if any.
#[derive(Clone, Copy)]
struct JoiningText(Option<ConfNo>);

impl fmt::Display for JoiningText {
    ghost output = { λ j. Some (joining_text j.0) };

    fn fmt<W: fmt::Write>(&self, f: &mut fmt::Formatter<W>) -> fmt::Result {
        match self.0 {
            Some(conf) => write!(f, " joining {conf}"),
            None => Ok(()),
        }
    }
}

/// How a node runs; a node that is up prints nothing.
#[derive(Clone, Copy)]
struct RunningText(Running);

impl fmt::Display for RunningText {
    ghost output = { λ r. Some (running_text r.0) };

    fn fmt<W: fmt::Write>(&self, f: &mut fmt::Formatter<W>) -> fmt::Result {
        match self.0 {
            Running::Up => Ok(()),
            Running::Down => f.write_str(" down"),
            Running::Failed => f.write_str(" failed"),
        }
    }
}
