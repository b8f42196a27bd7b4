ghost use Rattle.std.specs.Prelude.{◌≡◌, ℕ, List};
ghost use Rattle.op_serving.specs.Cores.{Standing};
ghost use Rattle.op_serving.specs.Inputs.{Luck, kept};
ghost use Rattle.op_serving.specs.Pump.{Settings, Pump, Answer, after, calls};
ghost use Rattle.op_serving.specs.Answers.{Answers};
ghost use Rattle.op_serving.specs.Promise.{Keeps, folded};
ghost use Rattle.op_connections.specs.Runs.{Begins, IsRun, inputs, calls_of};
ghost use Rattle.op_connections.specs.Hearing.{HearsAll, HoldsLess};
ghost use Rattle.op_connections.specs.Waiting.{FramesAreShort, QueuesAreShort};
ghost use Rattle.op_connections.specs.Taking.{IsBetween, IsDone};
ghost use Rattle.op_connections.specs.Telling.{ClientsAreTold};
ghost use Rattle.op_connections.specs.Behind.{FewWaitBehind};

/// Whatever net and clock answer, and wherever memory is wanting: the inputs of each connection are those of
/// the frames of the bytes that it read, in order, each command for its own connection, and of an open one no
/// whole frame is left, and no more than a part of a hello or a frame; the bytes that it took are the first
/// of its hello and of the frames for it, and while it is open the others wait. No more bytes wait for it
/// than may, so each frame that was said for it is short.
pub fn connections_keep()
    ensures keeps { (o : Settings) (l : Luck) (line : Standing → List ℕ) (answers : List Answer) (p : Pump)
        → Begins p.driver → Answers o l line answers p → Keeps (after o l line answers p).driver }
    ensures hears { (o : Settings) (l : Luck) (line : Standing → List ℕ) (answers : List Answer) (p : Pump)
        → Begins p.driver → Answers o l line answers p → HearsAll (after o l line answers p).driver }
    ensures holds { (o : Settings) (l : Luck) (line : Standing → List ℕ) (answers : List Answer) (p : Pump)
        → Begins p.driver → Answers o l line answers p → HoldsLess (after o l line answers p).driver }
    ensures queues { (o : Settings) (l : Luck) (line : Standing → List ℕ) (answers : List Answer) (p : Pump)
        → Begins p.driver → Answers o l line answers p
        → QueuesAreShort (after o l line answers p).driver.loop }
    ensures frames { (o : Settings) (l : Luck) (line : Standing → List ℕ) (answers : List Answer) (p : Pump)
        → Begins p.driver → Answers o l line answers p → FramesAreShort (after o l line answers p).driver }
{}

/// What a client is told at its connection, while that is open, of each of its commands and reads, is what
/// the deeds make due there: an answer that the node gives out, to whoever asked last for it, once; a refusal
/// where the node refused that input at once, where it was lost for want of memory, or where a disk failed;
/// and nothing else.
pub fn clients_are_told()
    ensures told { (o : Settings) (l : Luck) (line : Standing → List ℕ) (answers : List Answer) (p : Pump)
        → Begins p.driver → Answers o l line answers p
        → ClientsAreTold p.driver.node (after o l line answers p).driver }
{}

/// No more than 65,536 frames wait behind for a connection for which there is no room, where no more did
/// before.
pub fn few_frames_wait()
    ensures few { (o : Settings) (l : Luck) (line : Standing → List ℕ) (answers : List Answer) (p : Pump)
        → Begins p.driver → FewWaitBehind p.driver.loop → Answers o l line answers p
        → FewWaitBehind (after o l line answers p).driver.loop }
{}

/// Between two turns, and at each end for which no fault of the net is the cause, no command and no message
/// waits to be given, and what an open connection took is all that was said for it, unless its last write
/// took nothing.
pub fn turns_take_all()
    ensures { (o : Settings) (l : Luck) (line : Standing → List ℕ) (answers : List Answer) (p : Pump)
        → Begins p.driver → Answers o l line answers p → IsBetween (after o l line answers p).at
        → IsDone (calls o l line answers p) (after o l line answers p).driver }
{}

/// The node is the fold of its step over all inputs of the run.
pub fn nodes_fold()
    ensures { (o : Settings) (l : Luck) (line : Standing → List ℕ) (answers : List Answer) (p : Pump)
        → Begins p.driver → Answers o l line answers p
        → (after o l line answers p).driver.node
        ≡ folded p.driver.node (after o l line answers p).driver.deeds }
{}

/// What a run does is a function of what net and clock answered, of the marks of what was lost for want of
/// memory, and of what came of the inputs that were not lost: two runs from one start with the same of these
/// have the same inputs, lost ones too with what came of each, make the same calls of the net, and end in the
/// same way and in the same state. Where else memory was wanting doesn't matter.
pub fn runs_follow_answers()
    ensures { (o : Settings) (line : Standing → List ℕ) (answers : List Answer) (p end other : Pump)
        → IsRun o line answers p end → IsRun o line answers p other
        → end.driver.loop.lost ≡ other.driver.loop.lost
        → kept end.driver.deeds ≡ kept other.driver.deeds
        → (inputs end.driver.deeds ≡ inputs other.driver.deeds)
        × (calls_of o line answers p end ≡ calls_of o line answers p other) × (end ≡ other) }
{}
