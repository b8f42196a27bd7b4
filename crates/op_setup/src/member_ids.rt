//! The members of a configuration in words.
ghost use Rattle.std.specs.Prelude.{◌≡◌, ◌<◌, map, decimal, string_bytes, IfOk, IfErr};
ghost use Rattle.op_types.specs.Ranges.{IsPid};
ghost use Rattle.op_text.specs.Found.{IsFound};
ghost use Rattle.op_setup.specs.Requests.{AreMembers, AreMembersOf};

use crate::arguments::bytes;
use op_text::pid;
use op_types::{MOST_MEMBERS, Members, NoMemory, Pid};

/// The members whose ids the words are, each above the one before it. Memory is taken only for words that are
/// such.
pub fn members(words: &[String]) -> Result<Option<Members>, NoMemory>
    ensures found { IfOk result (IsFound (AreMembersOf (map string_bytes words.now))) }
    ensures memory { IfErr result (λ _. AreMembers (map string_bytes words.now)) }
{
    if words.is_empty() || words.len() > MOST_MEMBERS {
        return Ok(None);
    }
    let mut ids: [Pid; MOST_MEMBERS] = [0; MOST_MEMBERS];
    let mut count = 0;
    let mut last = 0;
    for word in words {
        let Some(id) = id_above(last, word) else {
            return Ok(None);
        };
        ids[count] = id;
        count += 1;
        last = id;
    }
    Ok(Some(Members::from_slice(&ids[..count])?))
}

/// The id that a word writes, if it is greater than `low`.
fn id_above(low: Pid, word: &String) -> Option<Pid>
    ensures { IsFound (λ id. (string_bytes word.now ≡ decimal id) × (low < id) × IsPid id) result }
{
    let id = pid(bytes(word))?;
    if low < id { Some(id) } else { None }
}
