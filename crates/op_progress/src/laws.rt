ghost use Rattle.op_progress.specs.Deciding.{MajoritiesDecide};
ghost use Rattle.op_progress.specs.Progress.{AllAgree, MajoritiesAgree};
ghost use Rattle.op_progress.specs.Trimmed.{PreparesAreTaken, TrimmedIsDecided};

/// Over fixed two-way links by which a majority of the members hear one another and nobody else, from every
/// world that a run without stop-signs reaches in which these are up and know ballots with room for two
/// more: after four rounds of their heartbeats they take one and the same ballot of one of them for the
/// leader's. It stands for it, has promised it, and prepares or leads it; none of them promises a ballot
/// above it or stands for one, and so it stays for ever. Whom a Prepare of it has reached in a later round,
/// and whose log isn't trimmed past what that member may lack, has promised it from the end of that round
/// on. Whose whole Promise has reached the owner, which can adopt it there, has it kept from then on, and
/// once the owner keeps those of all others of the majority it leads, for ever. Behind the heartbeats of
/// each round whatever may happen at all others, who may be up or down. At the majority nobody stops:
/// commands, reads and trims come, sessions begin and end, and any other message that was ever sent between
/// two that are linked is delivered, in any order, any number of times, or not at all. So nobody refuses
/// that ballot, and nobody takes over. What it doesn't say: that Prepares and Promises come, and that a
/// promise which comes can be adopted.
pub fn majorities_agree()
    ensures agree { MajoritiesAgree }
    ensures all { AllAgree }
{}

/// Once a majority agrees so, nothing disturbs an exchange behind the heartbeats of any later round: an
/// entry that comes at the owner of the ballot while it prepares it is decided there, at its place in that
/// configuration's list, once each other of the majority has done the five steps of an exchange with it; or
/// it is dropped, and whoever proposed it is told. No session between two of them ends meanwhile. That
/// nothing else disturbs them, that they keep their promises and stay up, is proved and no premise. What it
/// doesn't say: what comes at an owner that leads already, and that these steps are done.
pub fn majorities_decide()
    ensures decide { MajoritiesDecide }
{}

/// In every world that a run in range without stop-signs reaches, whatever happens in it, what a node has
/// trimmed each member has decided. So no Prepare is dropped for what its addressee has trimmed, where it
/// tells of its sender's log as it is when it comes.
pub fn trims_are_decided()
    ensures trimmed { TrimmedIsDecided }
    ensures taken { PreparesAreTaken }
{}
