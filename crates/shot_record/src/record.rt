// A shot record with the offsets of its fields.
ghost use Rattle.std.specs.Prelude.{◌≡◌, ℕ, ◌<◌};
ghost use Rattle.shot_record.specs.Fields.{byte, fields_of};

use super::fields;
use super::fields::Fields;

#[derive(Clone, Copy)]
pub struct Record<'a> {
    pub bytes: &'a [u8],
    pub fields: Fields,
    ghost located: { fields ≡ fields_of bytes.now },
    ghost small: { (k : ℕ) → byte k bytes.now < 256 },
}

impl<'a> Record<'a> {
    // The record may end before its fields.
    pub fn located(bytes: &'a [u8]) -> Record<'a>
        ensures { result.bytes.now ≡ bytes.now }
    {
        let fields = fields::locate(bytes);
        Record { bytes, fields }
    }
}
