// A shot that passed the questions before 15, with what a match reads of it once.
ghost use Rattle.hypothesis.specs.Inputs.{Loaded};

use super::Inputs;

#[derive(Clone, Copy)]
pub struct LoadedShot<'a> {
    pub bytes: &'a [u8],
    pub inputs: Inputs,
    pub index: &'a [u32; 768],
    pub table: &'a [f32; 511],
    pub codes: &'a [u64; 512],
    ghost loaded: { Loaded bytes.now inputs index.now table.now codes.now },
}
