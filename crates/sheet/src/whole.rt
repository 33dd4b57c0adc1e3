// A whole sheet, read alone.
ghost use Rattle.sheet.specs.Rules.{ReadByRules};
ghost use Rattle.sheet.specs.Sheets.{Answered, listed, sheet_of};

use crate::reader::Reader;
use entry::Entry;
use fault::Fault;
use std::alloc::Global;

// The entries of a sheet in their order, or the refusal of the first that is none.
#[tactic(auto, using(crate::proofs::Wholes::by_rules))]
pub fn entries<'a>(heap: Global, sheet: &'a [u8]) -> Result<Vec<Entry<'a>>, Fault>
    ensures told { Answered (listed result) (sheet_of sheet.now) }
    ensures rules { ReadByRules sheet.now (listed result) }
{
    let mut reader = Reader::open(sheet)?;
    let mut found = Vec::new(heap);
    while let Some(entry) = reader.read()? {
        found.push(entry)?;
    }
    Ok(found)
}
