ghost use Rattle.std.specs.Prelude.{◌≡◌, List, map};
ghost use Rattle.op_types.specs.declared.events.Request.{Request};
ghost use Rattle.op_outside.specs.declared.net.Addr.{Addr};
ghost use Rattle.op_client.specs.Rules.{Event, Ending};
ghost use Rattle.op_client.specs.Called.{Happens};
ghost use Rattle.op_client.specs.Following.{answer_of};

/// What a call does, and how it ends, is a function of what the net answers and of where memory was found:
/// two calls with the same answers are one.
pub fn calls_follow_answers()
    ensures { (addr : Addr) (request : Request) (d e : Ending) (es fs : List Event)
        → Happens addr request es d → Happens addr request fs e
        → map answer_of es ≡ map answer_of fs → (es ≡ fs) × (d ≡ e) }
{}
