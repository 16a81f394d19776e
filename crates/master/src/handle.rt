// What a caller asks of one balance: another address, or a diagnosis.
ghost use Rattle.std.specs.Prelude.{◌≡◌};
ghost use Rattle.refusals.specs.Table.{outcome};
ghost use Rattle.master.specs.Unit.{done_of};
ghost use Rattle.master.specs.Handle.{reset_refusal, reset_done, wish_done};

use crate::unit::DpMaster;
use peripheral_set::PeripheralHandle;
use refusals::Refusal;

impl DpMaster {
    // A reset: the handle, then the address, which may be the balance's own but no other's.
    fn reset_refusal(&self, handle: PeripheralHandle, address: u8) -> Result<(), Refusal>
        ensures { result ≡ outcome (reset_refusal self.now.parameters self.now.occupied self.now.peripherals handle address) }
    {
        let slot = usize::from(handle.slot);
        let elsewhere = addresses::taken_elsewhere(
            &self.occupied,
            &self.peripherals,
            slot,
            address,
        );
        handle
            .refusal(&self.occupied)
            .and(refusals::address(address, self.parameters.address))
            .and(refusals::shared(elsewhere))
    }

    // The balance starts anew at another address, or at its own, and its open request is closed.
    // Refuses: reset_rows.
    // Changes: of the balance address, state, count, frame bit and diagnosis; set-up data, images and all bytes stay.
    pub fn reset_address(&mut self, handle: PeripheralHandle, address: u8) -> Result<(), Refusal>
        ensures { done_of result self.new ≡ reset_done self.old handle address }
    {
        self.reset_refusal(handle, address)?;
        let i = cycle::seen::index(handle.slot);
        self.peripherals[i] = self.peripherals[i].reset_address(address);
        self.state = self.state.closed_for(handle.slot);
        Ok(())
    }

    // A wish for a diagnosis, which is retrieved at the next possible time.
    // Refuses: handle_refusal.
    // Changes: that a diagnosis of the balance is due.
    pub fn request_diagnostics(&mut self, handle: PeripheralHandle) -> Result<(), Refusal>
        ensures { done_of result self.new ≡ wish_done self.old handle }
    {
        handle.refusal(&self.occupied)?;
        let i = cycle::seen::index(handle.slot);
        self.peripherals[i] = self.peripherals[i].request_diagnostics();
        Ok(())
    }
}
