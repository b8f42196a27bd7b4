ghost use Rattle.std.specs.Prelude.{◌≡◌, ◌∷◌, [], None, OnOk};
ghost use Rattle.op_change.specs.Over.{nothing_written};
ghost use Rattle.op_deciding.specs.Deciding.{Continues};

use op_change::KvChange;
use op_kv::Map;
use op_types::{Entry, NoMemory, Replies, Reply, StopSign};
use std::alloc::Global;

/// What the entries that a step decides do, before any of it takes effect.
#[derive(Drop)]
pub struct Served {
    /// What they do to the service.
    pub change: KvChange,
    /// The replies to their commands, each for whoever waits for it.
    pub replies: Replies,
    /// The stop-sign that ends them, if one does.
    pub stop: Option<StopSign>,
}

impl Served {
    /// No entries are served.
    pub fn nothing(alloc: Global) -> Served
        ensures { result ≡ record { change = nothing_written; replies = []; stop = None } }
    {
        Served {
            change: KvChange::new(alloc),
            replies: Replies::new(alloc),
            stop: None,
        }
    }

    /// These entries are served too, after the others.
    pub fn serve(&mut self, alloc: Global, service: &Map, entries: &[Entry]) -> Result<(), NoMemory>
        requires { service.now.waiting ≡ 0 }
        ensures { OnOk result (Continues service.now.service self.old self.new entries.now) }
    {
        'entries: for entry in entries {
            self.serve_one(alloc, service, entry)?;
        }
        Ok(())
    }

    /// One entry more is served: a command has a reply, and a stop-sign ends the entries.
    fn serve_one(&mut self, alloc: Global, service: &Map, entry: &Entry) -> Result<(), NoMemory>
        requires { service.now.waiting ≡ 0 }
        ensures { OnOk result (Continues service.now.service self.old self.new (entry.now ∷ [])) }
    {
        match entry {
            Entry::Command(command) => {
                let reply = Reply {
                    client: command.client,
                    seq: command.seq,
                    answer: service.serve(alloc, &mut self.change, command)?,
                };
                self.replies.push(reply)?;
                self.stop = None;
            }
            Entry::Stop(stop) => self.stop = Some(stop.get().copy()),
        }
        Ok(())
    }
}
