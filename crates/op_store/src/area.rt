//! Two areas are opened: what they stand for, or a fresh durable state.
ghost use Rattle.std.specs.Prelude.{◌≡◌, ◌<◌, ◌≤◌, ◌+◌, ℕ, List, length, IfOk, IfErr};
ghost use Rattle.op_outside.specs.Disks.{disk_end, IsAtRest, Called, Kept, Costs};
ghost use Rattle.op_journal.specs.Areas.{header_len, record_head, IsGeneration, IsArea};
ghost use Rattle.op_journal.specs.declared.head.Head.{Head};
ghost use Rattle.op_journal.specs.Appends.{Trims};
ghost use Rattle.op_journal.specs.Beginnings.{IsFormattable};
ghost use Rattle.op_journal.specs.Calls.{synced_calls, format_calls};
ghost use Rattle.op_journal.specs.Openings.{IsReadFrom};
ghost use Rattle.op_record.specs.Ranges.{DurableInRange};
ghost use Rattle.op_record.specs.Forms.{body};
ghost use Rattle.op_record.specs.declared.body.Rec.TheVariants.{Whole};
ghost use Rattle.op_store.specs.Stored.{
  Disks,
  disks_with,
  chosen_disk,
  other_disk,
  chosen,
  other,
  rival_end,
  IsBelow,
  Obey,
  HaveImages,
  KeepBoth,
  LeaveStill,
};
ghost use Rattle.op_store.specs.Records.{IsBodyOf};
ghost use Rattle.op_store.specs.Failing.{IsFaultOrNoMemory, IsFault, TellsOpening, TellsFaultOf};
ghost use Rattle.op_store.specs.Openings.{
  OpensAreas,
  FindsAreas,
  FindsNone,
  BeginsArea,
  CountsReading,
  CountsBeginning,
  CountsCarrying,
  CarriesOver,
  Carries,
  HasNext,
  IsCarried,
  IsFit,
  IsFitArea,
  begun_area,
  len_in,
};

use crate::fail::{StoreFail, cause_of, faults};
use crate::framing::framed_whole;
use crate::reading::{Reading, read};
use crate::writing::format;
use op_journal::{DiskFault, Framed, Journal, Version};
use op_outside::Disk;
use op_types::Durable;
use std::alloc::Global;

/// The generation of the first area.
const FIRST_GENERATION: u64 = 1;

/// An area that is open.
#[derive(Drop)]
pub struct OpenArea {
    /// Whether it is on the second disk.
    pub is_second: bool,
    /// Its generation, from 1.
    pub generation: u64,
    /// The byte offset of its closed gate.
    pub end: u64,
    /// Its length right after its format.
    pub base: u64,
    /// Whether a closed gate stands before more bytes of the other disk.
    pub is_closed: bool,
    /// The durable state that it stands for.
    pub durable: Durable,
    /// Whether it was begun just now.
    pub is_new: bool,
}

/// Opens the areas of two disks: both are read, and what lies after the chosen one is cut. Where there is
/// none, the first is begun, of the fresh durable state.
pub fn open_areas<D: Disk>(
    alloc: Global,
    fresh: Durable,
    first: &mut D,
    second: &mut D,
) -> Result<OpenArea, StoreFail>
    requires { DurableInRange fresh }
    ensures opens { let old : Disks = disks_with D.state first.old second.old in
        Obey old → OpensAreas fresh old (disks_with D.state first.new second.new) result }
    ensures fit { IfOk result IsFitArea }
    ensures told { TellsOpening (disks_with D.state first.old second.old)
        (disks_with D.state first.new second.new) result }
    ensures kept { KeepBoth (disks_with D.state first.old second.old)
        (disks_with D.state first.new second.new) }
{
    let (found, len) = read_areas(alloc, first, second)?;
    match found {
        Reading::Area {
            is_second,
            head,
            durable,
            end,
            base,
            is_closed,
        } => {
            let area = OpenArea {
                is_second,
                generation: head.generation,
                end,
                base,
                is_closed,
                durable,
                is_new: false,
            };
            match head.version {
                Version::One => carry_over(alloc, first, second, area, len),
                Version::Two => resume(first, second, area, len),
            }
        }
        Reading::New {
            is_closed,
            is_other_closed,
        } => begin(alloc, fresh, first, second, is_closed, is_other_closed),
    }
}

/// Reads both disks, and tells what they hold, and how many bytes the chosen area's disk has.
fn read_areas<D: Disk>(
    alloc: Global,
    first: &mut D,
    second: &mut D,
) -> Result<(Reading, usize), StoreFail>
    ensures found { let old : Disks = disks_with D.state first.old second.old in Obey old →
        IfOk result (λ r. FindsAreas old (disks_with D.state first.new second.new) r.0 r.1) }
    ensures refused { let old : Disks = disks_with D.state first.old second.old in Obey old →
        IfErr result (FindsNone old (disks_with D.state first.new second.new)) }
    ensures still { let old : Disks = disks_with D.state first.old second.old in Obey old →
        LeaveStill old (disks_with D.state first.new second.new) }
    ensures fit { IfOk result (λ r. IsFit r.0) }
    ensures told { TellsOpening (disks_with D.state first.old second.old)
        (disks_with D.state first.new second.new) result }
    ensures kept { KeepBoth (disks_with D.state first.old second.old)
        (disks_with D.state first.new second.new) }
{
    let (bytes, others) = read_both(alloc, first, second)?;
    let found = read(alloc, &bytes, &others)?;
    let len = chosen_len(&found, bytes.len(), others.len());
    Ok((found, len))
}

/// The chosen one of two lengths.
fn chosen_len(found: &Reading, first: usize, second: usize) -> usize
    ensures { result ≡ len_in found.now first second }
{
    match found {
        Reading::Area {
            is_second: true,
            ..
        } => second,
        Reading::Area {
            is_second: false,
            ..
        }
        | Reading::New { .. } => first,
    }
}

/// Reads all of the first disk and then of the second.
fn read_both<D: Disk>(
    alloc: Global,
    first: &mut D,
    second: &mut D,
) -> Result<(Vec<u8>, Vec<u8>), StoreFail>
    ensures first { IfOk result (λ r. IsReadFrom (D.state first.old) (D.state first.new) r.0.items) }
    ensures second { IfOk result (λ r. IsReadFrom (D.state second.old) (D.state second.new) r.1.items) }
    ensures still { let old : Disks = disks_with D.state first.old second.old in Obey old →
        LeaveStill old (disks_with D.state first.new second.new) }
    ensures images { Obey (disks_with D.state first.old second.old) →
        HaveImages (disks_with D.state first.new second.new) }
    ensures calls { let old : Disks = disks_with D.state first.old second.old in Obey old →
        CountsReading old (disks_with D.state first.new second.new) result }
    ensures stops { IfErr result IsFaultOrNoMemory }
    ensures told { TellsOpening (disks_with D.state first.old second.old)
        (disks_with D.state first.new second.new) result }
    ensures kept { KeepBoth (disks_with D.state first.old second.old)
        (disks_with D.state first.new second.new) }
{
    match Journal::read_all(alloc, first) {
        Ok(bytes) => match Journal::read_all(alloc, second) {
            Ok(others) => Ok((bytes, others)),
            Err(fail) => Err(cause_of(fail, 1, faults(first, second))),
        },
        Err(fail) => Err(cause_of(fail, 0, faults(first, second))),
    }
}

/// Cuts what lies after the chosen area's closed gate, of a disk that holds so many bytes.
fn resume<D: Disk>(
    first: &mut D,
    second: &mut D,
    area: OpenArea,
    len: usize,
) -> Result<OpenArea, StoreFail>
    requires { area.end < disk_end }
    ensures trims { (head : Head) (bodies : List (List ℕ)) →
        let old = chosen_disk area.is_second (disks_with D.state first.old second.old) in
        IsArea head bodies area.end old.content → IsAtRest old → length old.content ≡ len →
        Trims head bodies area.end old
        (chosen_disk area.is_second (disks_with D.state first.new second.new)) result }
    ensures calls { area.end + 1 < len →
        Costs synced_calls (chosen_disk area.is_second (disks_with D.state first.old second.old))
        (chosen_disk area.is_second (disks_with D.state first.new second.new)) result }
    ensures idle { len ≤ area.end + 1 →
        chosen area.is_second first.new second.new ≡ chosen area.is_second first.old second.old }
    ensures area { IfOk result (λ a. a ≡ area) }
    ensures fault { IfErr result IsFault }
    ensures told { TellsOpening (disks_with D.state first.old second.old)
        (disks_with D.state first.new second.new) result }
    ensures kept { Kept (chosen_disk area.is_second (disks_with D.state first.old second.old))
        (chosen_disk area.is_second (disks_with D.state first.new second.new)) }
    ensures uncalled { other area.is_second first.new second.new ≡ other area.is_second first.old second.old }
{
    match trim(first, second, area.is_second, area.end, len) {
        Ok(()) => Ok(area),
        Err(_) => Err(StoreFail::DiskFault {
            count: faults(first, second),
        }),
    }
}

/// Cuts what lies after the chosen area's closed gate at this byte offset, of a disk that holds so many
/// bytes.
fn trim<D: Disk>(
    first: &mut D,
    second: &mut D,
    is_second: bool,
    end: u64,
    len: usize,
) -> Result<(), DiskFault>
    requires { end < disk_end }
    ensures trims { (head : Head) (bodies : List (List ℕ)) →
        let old = chosen_disk is_second (disks_with D.state first.old second.old) in
        IsArea head bodies end old.content → IsAtRest old → length old.content ≡ len →
        Trims head bodies end old
        (chosen_disk is_second (disks_with D.state first.new second.new)) result }
    ensures calls { end + 1 < len →
        Costs synced_calls (chosen_disk is_second (disks_with D.state first.old second.old))
        (chosen_disk is_second (disks_with D.state first.new second.new)) result }
    ensures idle { len ≤ end + 1 →
        chosen is_second first.new second.new ≡ chosen is_second first.old second.old }
    ensures told { TellsFaultOf (disks_with D.state first.old second.old)
        (disks_with D.state first.new second.new) result }
    ensures kept { Kept (chosen_disk is_second (disks_with D.state first.old second.old))
        (chosen_disk is_second (disks_with D.state first.new second.new)) }
    ensures uncalled { other is_second first.new second.new ≡ other is_second first.old second.old }
{
    if is_second {
        return Journal::trim_after(second, end, len);
    }
    Journal::trim_after(first, end, len)
}

/// Carries an area of the first version over: cuts what lies after its closed gate, of a disk that holds so
/// many bytes, and begins the other area with its durable state, of the next generation.
fn carry_over<D: Disk>(
    alloc: Global,
    first: &mut D,
    second: &mut D,
    area: OpenArea,
    len: usize,
) -> Result<OpenArea, StoreFail>
    requires { HasNext area }
    ensures carries { Carries area len (disks_with D.state first.old second.old)
        (disks_with D.state first.new second.new) result }
    ensures calls { let old : Disks = disks_with D.state first.old second.old in Obey old →
        CountsCarrying area.is_second area.is_closed area.end len old
        (disks_with D.state first.new second.new) result }
    ensures area { IfOk result (IsCarried area) }
    ensures stops { IfErr result IsFaultOrNoMemory }
    ensures told { TellsOpening (disks_with D.state first.old second.old)
        (disks_with D.state first.new second.new) result }
    ensures kept { KeepBoth (disks_with D.state first.old second.old)
        (disks_with D.state first.new second.new) }
    ensures images { let old : Disks = disks_with D.state first.old second.old in Obey old →
        HaveImages old → HaveImages (disks_with D.state first.new second.new) }
{
    let Ok(framed) = framed_whole(alloc, &area.durable) else {
        return Err(StoreFail::NoMemory);
    };
    let Ok(()) = trim(first, second, area.is_second, area.end, len) else {
        return Err(StoreFail::DiskFault {
            count: faults(first, second),
        });
    };
    begin_next(first, second, area, framed)
}

/// Begins the other area with this record of the durable state of this one, of the next generation.
fn begin_next<D: Disk>(
    first: &mut D,
    second: &mut D,
    area: OpenArea,
    framed: Framed,
) -> Result<OpenArea, StoreFail>
    requires { IsGeneration (area.generation + 1) }
    ensures begins { let old = other_disk area.is_second (disks_with D.state first.old second.old) in
        IsBodyOf (Whole area.durable) framed →
        IsBelow (rival_end area.is_second area.generation) old.content →
        IsFormattable old.content area.is_closed → IsAtRest old →
        CarriesOver area old (other_disk area.is_second (disks_with D.state first.new second.new)) result }
    ensures calls { Costs (format_calls area.is_closed)
        (other_disk area.is_second (disks_with D.state first.old second.old))
        (other_disk area.is_second (disks_with D.state first.new second.new)) result }
    ensures area { IfOk result (IsCarried area) }
    ensures fault { IfErr result IsFault }
    ensures told { TellsOpening (disks_with D.state first.old second.old)
        (disks_with D.state first.new second.new) result }
    ensures called { Called (other_disk area.is_second (disks_with D.state first.old second.old))
        (other_disk area.is_second (disks_with D.state first.new second.new)) }
    ensures uncalled { chosen area.is_second first.new second.new
        ≡ chosen area.is_second first.old second.old }
{
    match format(
        first,
        second,
        area.is_second,
        area.is_closed,
        area.generation + 1,
        framed,
    ) {
        Ok(end) => Ok(OpenArea {
            is_second: !area.is_second,
            generation: area.generation + 1,
            end,
            base: end + 1,
            is_closed: false,
            durable: area.durable,
            is_new: area.is_new,
        }),
        Err(_) => Err(StoreFail::DiskFault {
            count: faults(first, second),
        }),
    }
}

/// Begins the first area, of the fresh durable state.
fn begin<D: Disk>(
    alloc: Global,
    fresh: Durable,
    first: &mut D,
    second: &D,
    is_closed: bool,
    is_other_closed: bool,
) -> Result<OpenArea, StoreFail>
    requires { DurableInRange fresh }
    ensures begins { IsFormattable (D.state first.old).content is_closed → IsAtRest (D.state first.old) →
        BeginsArea fresh (D.state first.old) (D.state first.new) result }
    ensures calls { (D.state first.old).obeys →
        CountsBeginning is_closed (D.state first.old).calls (D.state first.new).calls result }
    ensures area { IfOk result (λ a. a ≡ begun_area fresh is_other_closed a.end) }
    ensures end { IfOk result (λ a. a.end ≡ header_len + record_head + length (body.text (Whole fresh))) }
    ensures room { IfOk result (λ a. a.end < disk_end) }
    ensures stops { IfErr result IsFaultOrNoMemory }
    ensures told { TellsOpening (disks_with D.state first.old second.now)
        (disks_with D.state first.new second.now) result }
    ensures kept { Kept (D.state first.old) (D.state first.new) }
{
    let Ok(framed) = framed_whole(alloc, &fresh) else {
        return Err(StoreFail::NoMemory);
    };
    match Journal::format(first, is_closed, FIRST_GENERATION, framed) {
        Ok(end) => Ok(OpenArea {
            is_second: false,
            generation: FIRST_GENERATION,
            end,
            base: end + 1,
            is_closed: is_other_closed,
            durable: fresh,
            is_new: true,
        }),
        Err(_) => Err(StoreFail::DiskFault {
            count: faults(first, second),
        }),
    }
}
