ghost use Rattle.std.specs.Prelude.{◌≡◌, ◌<◌, ◌++◌, ℕ, List, length};
ghost use Rattle.std.specs.Int.{Width, byte_len, from_be_bytes};
ghost use Rattle.op_fields.specs.Form.{encoded, number, counted};
ghost use Rattle.op_fields.specs.Reads.{IsBytes, IsFieldWidth, limit_of, Reads};
ghost use Rattle.op_fields.specs.Taken.{IsCountedAt};

/// A number is told by its bytes, and so many bytes are some number's.
pub fn numbers()
    ensures size { (w : Width) (n : ℕ) → IsFieldWidth w → length (encoded w n) ≡ byte_len w }
    ensures again { (w : Width) (n : ℕ) → IsFieldWidth w → n < limit_of w →
        from_be_bytes w (encoded w n) ≡ n }
    ensures back { (w : Width) (bytes : List ℕ) → IsFieldWidth w → IsBytes bytes →
        length bytes ≡ byte_len w → encoded w (from_be_bytes w bytes) ≡ bytes }
{}

/// Bytes after their length are taken from where they stand.
pub fn counted_bytes()
    ensures { (w : Width) (prefix text rest : List ℕ) → IsFieldWidth w → length text < limit_of w →
        IsCountedAt w (prefix ++ (encoded w (length text) ++ (text ++ rest))) (length prefix) text }
{}

/// A number in a range is read where it is encoded, and only there.
pub fn number_reads()
    ensures { (w : Width) (low high : ℕ) → IsFieldWidth w → high < limit_of w →
        Reads (number w low high) }
{}

/// Bytes after their length are read where they are encoded, and only there.
pub fn counted_reads()
    ensures { (w : Width) (low high : ℕ) → IsFieldWidth w → high < limit_of w →
        Reads (counted w low high) }
{}
