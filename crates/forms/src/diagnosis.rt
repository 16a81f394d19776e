// The last diagnosis as one record that refers to the extended part in the lent pool.
ghost use Rattle.std.specs.Prelude.{◌≡◌};
ghost use Rattle.refusals.specs.Table.{outcome};
ghost use Rattle.access.specs.Lookup.{diag_number};
ghost use Rattle.forms.specs.Diagnosis.{part_of, Says};

use master::unit::DpMaster;
use payloads::diagnosis::DiagnosticsInfo;
use peripheral_set::PeripheralHandle;
use refusals::Refusal;

// The last diagnosis. "None" is `held` false, zeros, master 255 and an empty part; a master of 255 is none.
#[derive(Clone, Copy)]
pub struct PeripheralDiagnostics<'a> {
    // Bytes 0 and 1 of the diagnosis, low byte first, with 0x0400 removed; their bits are `DiagnosticFlags`.
    pub flags: u16,
    // The ident that the balance reports, which should be that of its options.
    pub ident_number: u16,
    // Address of the master that the balance is locked to; 255 is none.
    pub master_address: u8,
    // Whether a diagnosis was taken since the balance was added or reset.
    pub held: bool,
    // The extended part that is stored, in the lent pool itself: 0 to 238 bytes.
    pub extended_diagnostics: &'a [u8],
}

// Whether `last_diagnostics` is refused, which itself answers the record alone.
// Refuses: pooled_rows.
// Changes: nothing.
pub fn last_diagnostics_refusal(
    m: &DpMaster,
    handle: PeripheralHandle,
    diags: &[u8],
) -> Result<(), Refusal>
    ensures { result ≡ outcome (diag_number m.now handle diags.now) }
{
    access::images::pooled_refusal(m, handle, diags.len(), m.parameters.diag_pool)
}

// The last diagnosis as one record that refers to its extended part; "none" before one is held, and when refused.
// Refuses: pooled_rows.
// Changes: nothing.
pub fn last_diagnostics<'a>(
    m: &DpMaster,
    handle: PeripheralHandle,
    diags: &'a [u8],
) -> PeripheralDiagnostics<'a>
    ensures { Says m.now handle diags.entry result }
{
    let last = access::diagnosis::last_diagnostics(m, handle, diags);
    let info = last.unwrap_or(DiagnosticsInfo::none());
    PeripheralDiagnostics {
        flags: info.flags,
        ident_number: info.ident_number,
        master_address: info.master_address,
        held: info.held,
        extended_diagnostics: access::diagnosis::extended_diagnostics(m, handle, diags),
    }
}

// The extended part, read back out of the record.
// Refuses: nothing.
// Changes: nothing.
pub fn extended<'a>(d: PeripheralDiagnostics<'a>) -> &'a [u8]
    ensures { result ≡ part_of d.entry }
{
    d.extended_diagnostics
}
