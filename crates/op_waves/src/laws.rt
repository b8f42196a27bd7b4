ghost use Rattle.op_waves.specs.Leading.{AllLead, MajoritiesLead, SessionsPromise};

/// Once a majority that hear one another and nobody else agree on a ballot (`majorities_agree`), each other
/// one of them that begins its session with the owner anew, behind the heartbeats of any later round and
/// whatever else came there, has promised that ballot from the end of that round on, and its promise is
/// kept, if what the session brings about comes at once: what it sends over links, but for heartbeats, is
/// delivered, then what that sends, and so on, in three waves or more. So a Prepare of that ballot comes
/// and is taken, whatever was trimmed or lost before, and its Promise comes to the owner and can be adopted
/// there, whether one message brings it or its parts do (`promise`). In a full round their heartbeats go,
/// and then each begins its session with each other one so, one after the other: from the end of any later
/// full round on the owner leads that ballot, for ever, and each of them has promised it (`lead`); so do
/// all members, where all are up and all links work (`all`). What it doesn't say: that nothing is left to
/// be delivered after so many waves, and what is decided.
pub fn majorities_lead()
    ensures promise { SessionsPromise }
    ensures lead { MajoritiesLead }
    ensures all { AllLead }
{}
