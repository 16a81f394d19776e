// One reply.
ghost use Rattle.master.specs.Receive.{Received};

use crate::unit::DpMaster;
use answers::reply_answer::ReplyAnswer;
use fdl::telegram::Telegram;

impl DpMaster {
    // The reply of the balance at `address`, with the payload that came with it: judged, then stored, then kept.
    // Refuses: reply_rows.
    // Changes: the balance that was asked, place and open request; its input image or extended diagnosis, where one came.
    // Event: Online, Configured, ConfigError, ParameterError, DataExchanged or Diagnostics, of the balance asked; or none.
    pub fn receive_reply(
        &mut self,
        address: u8,
        telegram: Telegram,
        payload: &[u8],
        inputs: &mut [u8],
        diags: &mut [u8],
    ) -> ReplyAnswer
        ensures { Received self.old address telegram payload.now inputs.old diags.old inputs.new diags.new (record { master = self.new; answer = result }) }
    {
        let i = cycle::seen::index(self.state.open_slot);
        let p = self.peripherals[i];
        let judged = answers::reply_answer::judge(
            self.parameters,
            self.state,
            p,
            &self.occupied,
            address,
            telegram,
            payload,
            inputs.len(),
            diags.len(),
        );
        self.peripherals[i] = judged.peripheral;
        self.state = judged.state;
        p.keep(judged.keeps, payload, inputs, diags);
        judged.answer
    }
}
