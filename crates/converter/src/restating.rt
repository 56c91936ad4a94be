// The converter of the program `restate`: the record of a legacy board in the current layout (document 02, 2.7).
ghost use Rattle.legacy_record.specs.Restating.{restate_answer, restate_list};

use crate::Conversion;
use refusal::Refusal;

#[derive(Clone, Copy)]
pub struct Restate;

impl Conversion for Restate {
    ghost answer = { restate_answer };

    ghost list = { restate_list };

    fn convert(bytes: &[u8], sheet: &mut [u8]) -> Result<usize, Refusal> {
        legacy_record::restate(bytes, sheet)
    }
}
