//! Adds lines to what is to be printed.

ghost use Rattle.std.specs.Prelude.{◌≡◌, ◌++◌, string_bytes, OnOk};
ghost use Rattle.lines.specs.Text.{ended};

use super::line::Line;
use std::alloc::AllocError;

/// Adds the line and its line feed at the end of `out`. An `Err` is want of memory: a part of the
/// line may then have been added, so `out` is of no further use.
pub fn push_line(out: &mut String, line: Line) -> Result<(), AllocError>
    ensures { OnOk result (string_bytes out.new ≡ string_bytes out.old ++ ended line) }
{
    writeln!(out, "{line}")
}
