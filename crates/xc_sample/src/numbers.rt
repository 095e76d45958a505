// Numbers in texts.
ghost use Rattle.std.specs.Prelude.{◌≡◌, ◌++◌, OnOk, decimal, string_bytes};

use std::alloc::AllocError;

/// Appends a number.
pub(crate) fn push_number(out: &mut String, number: u64) -> Result<(), AllocError>
    ensures { OnOk result (string_bytes out.new ≡ string_bytes out.old ++ decimal number) }
{
    write!(out, "{number}")
}

/// Appends two numbers, with texts before, between and behind them.
pub(crate) fn push_two(
    out: &mut String,
    before: &str,
    first: u64,
    between: &str,
    second: u64,
    behind: &str,
) -> Result<(), AllocError>
    ensures { OnOk result (string_bytes out.new ≡ string_bytes out.old ++ (before.now ++ decimal first ++ between.now ++ decimal second ++ behind.now)) }
{
    out.push_str(before)?;
    push_number(out, first)?;
    out.push_str(between)?;
    push_number(out, second)?;
    out.push_str(behind)?;
    Ok(())
}
