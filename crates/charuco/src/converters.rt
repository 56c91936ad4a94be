// Converters of records.
ghost use Rattle.std.specs.Prelude.{◌≡◌};
ghost use Rattle.legacy_record.specs.Restating.{restate_answer, restate_list};
ghost use Rattle.charuco.specs.Answers.{Tells, count_told};

use super::values;

pub fn charuco_restate(bytes: &[u8], sheet: &mut [u8], values: &mut [u32]) -> u32
    ensures answer { Tells (count_told (restate_answer bytes.now sheet.old)) result values.old values.new }
    ensures list { sheet.new ≡ restate_list bytes.now sheet.old }
{
    let answer = legacy_record::restate(bytes, sheet);
    values::counted(values, answer)
}
