// Exposes every entry point with its types, under its own name and, with words for results, as `charuco_NAME`, which `charuco_c` exports to C.
// No entry point has a `requires`. A C function returns 0 or the error number, and writes words to an output array; `include/charuco.h` lists them.

#![tactic(auto)]

mod boards;
mod cells;
mod converters;
mod corners;
mod links;
mod matches;
mod records;
mod values;

// Reading a shot record.
pub use records::{
    charuco_cell, charuco_code, charuco_grid, charuco_read_header, charuco_table_entry,
};
pub use score_matrix::BoardMatchConfig;
pub use shot_record::{Header, ReadCell, ReadSample, cell, code, grid, read_header, table_entry};

// Match.
pub use board_match::{Match, match_board, match_board_with_scores};
pub use matches::{charuco_match_board, charuco_match_board_with_scores};
pub use ranking::{Evidence, Hypothesis};

// The cells entry point.
pub use cells::charuco_build_marker_cells;
pub use marker_sampling::build_marker_cells;

// The corner entry point.
pub use corner_mapping::map_charuco_corners;
pub use corners::charuco_map_charuco_corners;
pub use grid_alignment::GridAlignment;

// The link entry point.
pub use link_check::{LinkCheckMode, LinkViolationKind, validate_marker_corner_links};
pub use links::charuco_validate_marker_corner_links;

// Converters of records.
pub use converters::charuco_restate;
pub use legacy_record::restate;

// Types of more than one entry point.
pub use board::CharucoBoardSpec;
pub use refusal::Refusal;
