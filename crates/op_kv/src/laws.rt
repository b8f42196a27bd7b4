ghost use Rattle.std.specs.Prelude.{◌≡◌, ◌<◌, ◌^◌, length};
ghost use Rattle.op_fields.specs.Reads.{Reads};
ghost use Rattle.op_spec.specs.Service.{Service, base_bytes};
ghost use Rattle.op_spec.specs.ServiceRanges.{ServiceInRange, ServiceIsOrdered};
ghost use Rattle.op_kv.specs.Bases.{IsBase, HasBase, base};
ghost use Rattle.op_kv.specs.Once.{CommandsCountOnce, ForgottenAreUnseen, UnseenTakeEffect};

/// A base is read as the service whose bytes it has, and only such bytes are read. Two services with one base
/// are one.
pub fn bases_are_unambiguous()
    ensures text { (s : Service) → ServiceInRange s → base.text s ≡ base_bytes s }
    ensures reads { Reads base }
    ensures holds { (s : Service) → ServiceInRange s → ServiceIsOrdered s → IsBase (base_bytes s) }
    ensures one { (s t : Service) → HasBase s → HasBase t → base_bytes s ≡ base_bytes t → s ≡ t }
    // A base that fits in memory tells that its counts fit.
    ensures fits { (s : Service) → ServiceInRange s → ServiceIsOrdered s →
        length (base_bytes s) < 2 ^ 64 → HasBase s }
{}

/// A command that comes again does nothing, whatever came in between, unless that forgets its client. Of a
/// client that is forgotten nothing is kept, and then each of its numbers takes effect.
pub fn commands_count_once()
    ensures once { CommandsCountOnce }
    ensures forgotten { ForgottenAreUnseen }
    ensures unseen { UnseenTakeEffect }
{}
