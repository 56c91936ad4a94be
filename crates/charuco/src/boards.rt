// The board specification that the corner and link entry points take.
ghost use Rattle.std.specs.Prelude.{◌≡◌};
ghost use Rattle.charuco.specs.Entries.{spec_from};

use board::CharucoBoardSpec;

// `legacy_pattern` is the legacy flag: 0 for a current board, every other number for a legacy board. Seven parameters: C passes no struct here.
pub fn spec(
    rows: u32,
    cols: u32,
    bits: u32,
    border_bits: u32,
    legacy_pattern: u32,
    cell_size: f32,
    marker_size_rel: f32,
) -> CharucoBoardSpec
    ensures { result ≡ spec_from rows cols bits border_bits legacy_pattern cell_size marker_size_rel }
{
    CharucoBoardSpec {
        rows,
        cols,
        bits,
        border_bits,
        legacy_pattern: legacy_pattern != 0,
        cell_size,
        marker_size_rel,
    }
}
