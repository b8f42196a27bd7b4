ghost use Rattle.std.specs.Prelude.{◌≡◌};
ghost use Rattle.op_mirror.specs.Copies.{has_first, has_second, living_of, reads_second, AreAlike};
ghost use Rattle.std.specs.Fn.{FnOnceReturnsAtMut};
ghost use Rattle.op_mirror.specs.Joins.{IsMadeOf, IsSameButFirst, AreMarkedBy, StaysSame};

use crate::gone::{Gone, has_first, has_second};
use crate::halves::Halves;
use crate::mirror::Mirror;
use op_outside::Disk;

impl<D: Disk> Mirror<D> {
    /// How many of its copies live.
    pub fn living(&self) -> u8
        ensures { result ≡ living_of self.now.gone self.now.is_dead }
    {
        if self.is_dead {
            return 0;
        }
        match self.gone {
            Gone::Neither => 2,
            Gone::First | Gone::Second => 1,
        }
    }

    /// Whether the first copy lives.
    pub fn has_first(&self) -> bool
        ensures { result ≡ has_first self.now.gone self.now.is_dead }
    {
        has_first(self.gone, self.is_dead)
    }

    /// Whether the second copy lives.
    pub fn has_second(&self) -> bool
        ensures { result ≡ has_second self.now.gone self.now.is_dead }
    {
        has_second(self.gone, self.is_dead)
    }

    /// Whether the second copy is what is read, because the first one failed first.
    pub fn reads_second(&self) -> bool
        ensures { result ≡ reads_second self.now.gone }
    {
        self.gone == Gone::First
    }

    /// The second copy.
    pub fn second(&self) -> &D
        ensures { result.now ≡ self.now.second }
    {
        &self.second
    }

    /// Makes this change of the first copy, of which a read gives the same then and the same is pending.
    pub fn change_first<F: FnOnce(&mut D)>(&mut self, change: F)
        requires called { F.IsAlwaysCallable change }
        requires keeps { (d : D) → FnOnceReturnsAtMut F.FnOnce change self.old.first tt d →
            StaysSame (D.state self.old.first) (D.state d) }
        ensures changed { FnOnceReturnsAtMut F.FnOnce change self.old.first tt self.new.first }
        ensures rest { IsSameButFirst self.old self.new }
    {
        change(&mut self.first);
    }

    /// Its copies, and what it knows of them.
    pub fn apart(self) -> (D, D, Halves)
        ensures made { IsMadeOf D.state result.0 result.1 result.2 self }
        ensures marked { AreMarkedBy result.2 (D.state result.0) (D.state result.1) }
    {
        let Mirror {
            first,
            second,
            gone,
            is_dead,
            faults,
            calls,
            first_mark,
            second_mark,
        } = self;
        let halves = Halves {
            gone,
            is_dead,
            faults,
            calls,
            first_mark,
            second_mark,
        };
        (first, second, halves)
    }

    /// The mirror of these copies, of which nothing else is read and nothing else is pending since it was
    /// taken apart, and whose counts are no less.
    pub fn together(first: D, second: D, halves: Halves) -> Mirror<D>
        requires alike { AreAlike halves.gone (D.state first) (D.state second) }
        requires marked { AreMarkedBy halves (D.state first) (D.state second) }
        ensures made { IsMadeOf D.state first second halves result }
    {
        Mirror {
            first,
            second,
            gone: halves.gone,
            is_dead: halves.is_dead,
            faults: halves.faults,
            calls: halves.calls,
            first_mark: halves.first_mark,
            second_mark: halves.second_mark,
        }
    }
}
