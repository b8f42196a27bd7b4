ghost use Rattle.std.specs.Prelude.{◌≡◌};
ghost use Rattle.op_watch.specs.Basing.{staged_for, staged_after, first_stage, HasRoomToStage};

use op_segments::add_piece;
use op_types::{ConfNo, Pieces, Turn};

/// What came so far of a base that an observer is to go on from.
#[derive(Drop)]
pub struct BaseStage {
    /// The configuration of the base.
    pub conf: ConfNo,
    /// Its pieces.
    pub pieces: Option<Pieces>,
}

impl BaseStage {
    /// Nothing yet.
    pub fn new() -> BaseStage
        ensures { result ≡ first_stage }
    {
        BaseStage {
            conf: 0,
            pieces: None,
        }
    }

    /// Pieces of a base of this configuration are to come: those of another one are let go of.
    fn turn_to(&mut self, conf: ConfNo)
        ensures { self.new ≡ record { conf = conf; pieces = staged_for self.old conf } }
    {
        if self.conf != conf {
            self.conf = conf;
            self.pieces = None;
        }
    }

    /// Changes what is staged as the turn says, in the room that was made. It takes no memory and can't fail.
    pub fn adopt(&mut self, turn: Turn)
        requires { HasRoomToStage turn self.old }
        ensures { self.new ≡ staged_after turn self.old }
    {
        match turn {
            Turn::StageBase(conf, piece, fresh) => {
                self.turn_to(conf);
                add_piece(&mut self.pieces, piece, fresh);
            }
            Turn::Renew => {
                self.conf = 0;
                self.pieces = None;
            }
            _ => {}
        }
    }
}
