// Restates a record of a legacy board in the current layout (document 02, 2.7).

#![tactic(auto)]

ghost use Rattle.std.specs.Prelude.{◌≡◌};
ghost use Rattle.legacy_record.specs.Restating.{restate_answer, restate_list};

mod writing;

use refusal::Refusal;
use shot_record::{Record, bulk};

// The record in the current layout: writes as many bytes as it has to the start of the output array, and returns their number; on error the array does
// not change.
pub fn restate(bytes: &[u8], sheet: &mut [u8]) -> Result<usize, Refusal>
    ensures answer { result ≡ restate_answer bytes.now sheet.old }
    ensures list { sheet.new ≡ restate_list bytes.now sheet.old }
{
    let record = Record::parse(bytes)?;
    let mut codes: [u64; 512] = [0; 512];
    bulk::codes(&mut codes, &record);
    let board = record.board(&codes)?;
    writing::restate_on(board, &record, &codes, sheet)
}
