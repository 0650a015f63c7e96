// The sizes of a stack.
ghost use Rattle.std.specs.Prelude.{◌≤◌};

pub const MOST_COLUMNS: u8 = 24;

pub const MOST_ROWS: u8 = 24;

pub const MOST_PLANES: u8 = 8;

// A value of this type exists only in range.
#[derive(Clone, Copy)]
pub struct Sizes {
    pub width: u8,
    pub height: u8,
    pub planes: u8,
    ghost some_columns: { 1 ≤ width },
    ghost few_columns: { width ≤ 24 },
    ghost some_rows: { 1 ≤ height },
    ghost few_rows: { height ≤ 24 },
    ghost some_planes: { 1 ≤ planes },
    ghost few_planes: { planes ≤ 8 },
}
