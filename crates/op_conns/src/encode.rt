ghost use Rattle.std.specs.Prelude.{◌≡◌, ◌++◌, List, ℕ, OnOk, OnErr};

use std::alloc::AllocError as NoMemory;

/// What can wait for a connection as bytes.
pub trait Encode {
    /// Its bytes.
    ghost bytes: { Self → List ℕ };

    /// Appends its bytes. Without memory nothing is appended.
    fn encode(&self, out: &mut Vec<u8>) -> Result<(), NoMemory>
        ensures ok { OnOk result (out.new.items ≡ out.old.items ++ bytes self.now) }
        ensures err { OnErr result (out.new.items ≡ out.old.items) };
}
