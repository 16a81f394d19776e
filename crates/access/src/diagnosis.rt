// The last diagnosis: numbers, and its extended part in the lent pool.
ghost use Rattle.std.specs.Prelude.{◌≡◌};
ghost use Rattle.parts.specs.Parts.{Itself};
ghost use Rattle.access.specs.Lookup.{found_in, diag_number, extended_seen, last_of};

use crate::images::pooled;
use master::unit::DpMaster;
use payloads::diagnosis::DiagnosticsInfo;
use peripheral_set::PeripheralHandle;
use refusals::Refusal;

// The numbers of the last diagnosis that was taken since the balance was added or reset; "none" before one is held.
// Refuses: pooled_rows.
// Changes: nothing.
pub fn last_diagnostics(
    m: &DpMaster,
    handle: PeripheralHandle,
    diags: &[u8],
) -> Result<DiagnosticsInfo, Refusal>
    ensures { result ≡ last_of (diag_number m.now handle diags.now) (found_in m.now handle) }
{
    Ok(pooled(m, handle, diags.len(), m.parameters.diag_pool)?.last_diagnostics())
}

// The extended part that is stored, itself; empty before a diagnosis is held, and where `last_diagnostics` is refused.
// Refuses: pooled_rows.
// Changes: nothing.
pub fn extended_diagnostics<'a>(m: &DpMaster, handle: PeripheralHandle, diags: &'a [u8]) -> &'a [u8]
    ensures { Itself (extended_seen m.now handle diags.now) diags.entry result }
{
    match pooled(m, handle, diags.len(), m.parameters.diag_pool) {
        Ok(p) => p.extended_diagnostics(diags),
        Err(_) => &diags[..0],
    }
}
