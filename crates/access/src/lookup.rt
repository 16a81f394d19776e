// The balance of a handle, and what can be read off it; refused where the handle is.
ghost use Rattle.std.specs.Prelude.{◌≡◌};
ghost use Rattle.refusals.specs.Table.{given};
ghost use Rattle.peripheral_set.specs.Marks.{handle_refusal};
ghost use Rattle.station.specs.Record.{is_live, is_running};
ghost use Rattle.access.specs.Lookup.{found_in};

use master::unit::DpMaster;
use payloads::options::PeripheralOptions;
use peripheral::record::Peripheral;
use peripheral_set::PeripheralHandle;
use refusals::Refusal;

// The record of a handle's balance, off which the calls here read.
pub fn find(m: &DpMaster, handle: PeripheralHandle) -> Result<Peripheral, Refusal>
    ensures { result ≡ given (handle_refusal handle m.now.occupied) (found_in m.now handle) }
{
    handle.refusal(&m.occupied)?;
    Ok(m.peripherals[cycle::seen::index(handle.slot)])
}

// Whether the balance responds on the bus: any state but Offline.
// Refuses: handle_refusal.
// Changes: nothing.
pub fn is_live(m: &DpMaster, handle: PeripheralHandle) -> Result<bool, Refusal>
    ensures { result ≡ given (handle_refusal handle m.now.occupied) (is_live (found_in m.now handle).station) }
{
    Ok(find(m, handle)?.is_live())
}

// Whether the balance exchanges data: state DataExchange alone.
// Refuses: handle_refusal.
// Changes: nothing.
pub fn is_running(m: &DpMaster, handle: PeripheralHandle) -> Result<bool, Refusal>
    ensures { result ≡ given (handle_refusal handle m.now.occupied) (is_running (found_in m.now handle).station) }
{
    Ok(find(m, handle)?.is_running())
}

// The address that the balance has now; the handle's own is the one at issue.
// Refuses: handle_refusal.
// Changes: nothing.
pub fn address(m: &DpMaster, handle: PeripheralHandle) -> Result<u8, Refusal>
    ensures { result ≡ given (handle_refusal handle m.now.occupied) (found_in m.now handle).station.address }
{
    Ok(find(m, handle)?.address())
}

// How the balance is set up: what its add was given, with the lengths of its set-up data.
// Refuses: handle_refusal.
// Changes: nothing.
pub fn options(m: &DpMaster, handle: PeripheralHandle) -> Result<PeripheralOptions, Refusal>
    ensures { result ≡ given (handle_refusal handle m.now.occupied) (found_in m.now handle).options }
{
    Ok(find(m, handle)?.options())
}
