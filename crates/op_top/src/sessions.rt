//! A run of the program, over anything outside.
ghost use Rattle.std.specs.Prelude.{map, string_bytes, IfOk, IfErr};
ghost use Rattle.op_top.specs.Sessions.{Ends, EndsWithoutWords};
ghost use Rattle.op_top.specs.Tasks.{outside};

use crate::host::Host;
use crate::top::omni;
use op_outside::{Clock, Disk, Net, Sink, Source, Spawner};
use op_serve::{Ending, NodeDisks};
use op_status::Status;
use std::alloc::{AllocError, Global};

/// Does what the words ask, as `omni` does. `AllocError` in place of the words is want of memory for them.
pub fn session<D: Disk, N: Net, C: Clock, S: Source, K: Sink, P: Spawner>(
    alloc: Global,
    words: Result<Vec<String>, AllocError>,
    disks: NodeDisks<D>,
    host: &mut Host<N, C, S, K, P>,
) -> Ending<D>
    ensures ends { IfOk words (λ words. Ends D.Disk (map string_bytes words.items)
        (outside disks (N.told host.old.net, N.fault_count host.old.net) (C.answers host.old.clock)
        (S.left host.old.input, S.fault_count host.old.input)
        (K.held host.old.out, K.fault_count host.old.out)
        (P.told host.old.children, P.fault_count host.old.children))
        (outside result.disks (N.told host.new.net, N.fault_count host.new.net) (C.answers host.new.clock)
        (S.left host.new.input, S.fault_count host.new.input)
        (K.held host.new.out, K.fault_count host.new.out)
        (P.told host.new.children, P.fault_count host.new.children))
        (K.held host.old.err, K.fault_count host.old.err) (K.held host.new.err, K.fault_count host.new.err)
        result.status result.lost.items) }
    ensures without_words { IfErr words (λ _. EndsWithoutWords
        (outside disks (N.told host.old.net, N.fault_count host.old.net) (C.answers host.old.clock)
        (S.left host.old.input, S.fault_count host.old.input)
        (K.held host.old.out, K.fault_count host.old.out)
        (P.told host.old.children, P.fault_count host.old.children))
        (outside result.disks (N.told host.new.net, N.fault_count host.new.net) (C.answers host.new.clock)
        (S.left host.new.input, S.fault_count host.new.input)
        (K.held host.new.out, K.fault_count host.new.out)
        (P.told host.new.children, P.fault_count host.new.children))
        (K.held host.old.err, K.fault_count host.old.err) (K.held host.new.err, K.fault_count host.new.err)
        result.status result.lost.items) }
{
    match words {
        Ok(words) => omni(
            alloc,
            &words,
            disks,
            &mut host.net,
            &mut host.clock,
            &mut host.input,
            &mut host.out,
            &mut host.err,
            &mut host.children,
        ),
        Err(AllocError) => {
            Status::NoMemory.tell(&mut host.err);
            Ending::early(alloc, Status::NoMemory, disks)
        }
    }
}
