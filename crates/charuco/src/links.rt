// The link entry point.
ghost use Rattle.std.specs.Prelude.{◌≡◌};
ghost use Rattle.link_check.specs.Entry.{check_links, check_links_list, mode_of};
ghost use Rattle.charuco.specs.Answers.{Tells, count_told};
ghost use Rattle.charuco.specs.Entries.{spec_from};

use super::{boards, values};
use link_check::LinkCheckMode;

pub fn charuco_validate_marker_corner_links(
    rows: u32,
    cols: u32,
    bits: u32,
    border_bits: u32,
    legacy_pattern: u32,
    cell_size: f32,
    marker_size_rel: f32,
    codes: &[u64],
    links: &[u32],
    mode: u32,
    violations: &mut [u32],
    values: &mut [u32],
) -> u32
    ensures answer { Tells (count_told (check_links (spec_from rows cols bits border_bits legacy_pattern cell_size marker_size_rel) codes.now
        (mode_of mode)
        links.now violations.old)) result values.old values.new }
    ensures list { violations.new
        ≡ check_links_list (spec_from rows cols bits border_bits legacy_pattern cell_size marker_size_rel) codes.now (mode_of mode)
        links.now violations.old }
{
    let spec = boards::spec(
        rows,
        cols,
        bits,
        border_bits,
        legacy_pattern,
        cell_size,
        marker_size_rel,
    );
    let answer = link_check::validate_marker_corner_links(
        spec,
        codes,
        links,
        LinkCheckMode::from(mode),
        violations,
    );
    values::counted(values, answer)
}
