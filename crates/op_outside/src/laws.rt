ghost use Rattle.std.specs.Prelude.{ℕ, List};
ghost use Rattle.op_outside.specs.Pendings.{Pending, IsImage, IsMixed};

/// Of a disk of which this is pending a crash may leave, beside three images, all that mixes them.
pub fn mixed_images_are_images()
    ensures { (s : Pending) (x y w z : List ℕ) →
        IsImage s x → IsImage s y → IsImage s w → IsMixed x y w z → IsImage s z }
{}
