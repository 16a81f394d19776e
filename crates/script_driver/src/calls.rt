// The calls, each lent the first so many bytes of the arrays that it takes.
ghost use Rattle.std.specs.Prelude.{◌≡◌};
ghost use Rattle.parts.specs.Parts.{Itself};
ghost use Rattle.refusals.specs.Table.{outcome, number_of};
ghost use Rattle.master.specs.Pools.{lend};
ghost use Rattle.master.specs.Add.{added_of};
ghost use Rattle.access.specs.Lookup.{found_in, input_number, output_number, diag_number, inputs_seen, outputs_seen, extended_seen, last_of};
ghost use Rattle.script_driver.specs.Run.{unit_is};
ghost use Rattle.script_driver.specs.Calls.{LentAdd, LentTurn, LentReply, LentWrite, ListingDone};

use crate::arrays::{front, lent, put_entries};
use crate::run::Run;
use answers::reply_answer::ReplyAnswer;
use answers::turn::TurnAnswer;
use fdl::telegram::Telegram;
use master::add::Addition;
use payloads::diagnosis::DiagnosticsInfo;
use peripheral_set::{PeripheralHandle, SLOTS};
use refusals::Refusal;

impl Run {
    // A: the unit's `add`, lent the front of the four pool arrays.
    pub fn add(
        &mut self,
        addition: Addition,
        user: &[u8],
        config: &[u8],
        setup: &mut [u8],
        inputs: &mut [u8],
        outputs: &mut [u8],
        diags: &mut [u8],
    ) -> Result<PeripheralHandle, Refusal>
        ensures call { LentAdd self.old addition user.now config.now setup.old inputs.old outputs.old diags.old setup.new inputs.new outputs.new diags.new (added_of result self.new.unit) }
        ensures run { self.new ≡ unit_is self.new.unit self.old }
    {
        let s = front(self.lent.setup, setup.len());
        let i = front(self.lent.inputs, inputs.len());
        let q = front(self.lent.outputs, outputs.len());
        let d = front(self.lent.diags, diags.len());
        self.unit.add(
            addition,
            user,
            config,
            &mut setup[..s],
            &mut inputs[..i],
            &mut outputs[..q],
            &mut diags[..d],
        )
    }

    // T: the unit's `transmit_telegram`, lent the front of the set-up, output and payload arrays.
    pub fn turn(
        &mut self,
        time: u64,
        high_prio_only: bool,
        setup: &[u8],
        outputs: &[u8],
        payload: &mut [u8],
    ) -> TurnAnswer
        ensures call { LentTurn self.old time high_prio_only setup.now outputs.now payload.old payload.new (record { master = self.new.unit; answer = result }) }
        ensures run { self.new ≡ unit_is self.new.unit self.old }
    {
        let l = self.lent;
        let k = front(l.payload, payload.len());
        self.unit.transmit_telegram(
            time,
            high_prio_only,
            lent(setup, l.setup),
            lent(outputs, l.outputs),
            &mut payload[..k],
        )
    }

    // R: the unit's `receive_reply`, lent the front of the input and diagnosis arrays.
    pub fn reply(
        &mut self,
        address: u8,
        telegram: Telegram,
        payload: &[u8],
        inputs: &mut [u8],
        diags: &mut [u8],
    ) -> ReplyAnswer
        ensures call { LentReply self.old address telegram payload.now inputs.old diags.old inputs.new diags.new (record { master = self.new.unit; answer = result }) }
        ensures run { self.new ≡ unit_is self.new.unit self.old }
    {
        let i = front(self.lent.inputs, inputs.len());
        let d = front(self.lent.diags, diags.len());
        self.unit.receive_reply(
            address,
            telegram,
            payload,
            &mut inputs[..i],
            &mut diags[..d],
        )
    }

    // W: `write_outputs`, lent the front of the output array.
    pub fn write(
        &self,
        handle: PeripheralHandle,
        bytes: &[u8],
        outputs: &mut [u8],
    ) -> Result<(), Refusal>
        ensures { LentWrite self.now handle bytes.now outputs.old outputs.new (number_of result) }
    {
        let q = front(self.lent.outputs, outputs.len());
        access::images::write_outputs(&self.unit, handle, bytes, &mut outputs[..q])
    }

    // Whether I is refused.
    pub fn inputs_refusal(&self, handle: PeripheralHandle, inputs: &[u8]) -> Result<(), Refusal>
        ensures { result ≡ outcome (input_number self.now.unit handle (lend self.now.lent.inputs inputs.now)) }
    {
        access::images::pi_i_refusal(&self.unit, handle, lent(inputs, self.lent.inputs))
    }

    // I: `pi_i`, lent the front of the input array.
    pub fn inputs<'a>(&self, handle: PeripheralHandle, inputs: &'a [u8]) -> &'a [u8]
        ensures { Itself (inputs_seen self.now.unit handle (lend self.now.lent.inputs inputs.now)) inputs.entry result }
    {
        access::images::pi_i(&self.unit, handle, lent(inputs, self.lent.inputs))
    }

    // Whether O is refused.
    pub fn outputs_refusal(&self, handle: PeripheralHandle, outputs: &[u8]) -> Result<(), Refusal>
        ensures { result ≡ outcome (output_number self.now.unit handle (lend self.now.lent.outputs outputs.now)) }
    {
        access::images::pi_q_refusal(&self.unit, handle, lent(outputs, self.lent.outputs))
    }

    // O: `pi_q`, lent the front of the output array.
    pub fn outputs<'a>(&self, handle: PeripheralHandle, outputs: &'a [u8]) -> &'a [u8]
        ensures { Itself (outputs_seen self.now.unit handle (lend self.now.lent.outputs outputs.now)) outputs.entry result }
    {
        access::images::pi_q(&self.unit, handle, lent(outputs, self.lent.outputs))
    }

    // The numbers of G: `last_diagnostics`, lent the front of the diagnosis array.
    pub fn diagnosis(
        &self,
        handle: PeripheralHandle,
        diags: &[u8],
    ) -> Result<DiagnosticsInfo, Refusal>
        ensures { result ≡ last_of (diag_number self.now.unit handle (lend self.now.lent.diags diags.now)) (found_in self.now.unit handle) }
    {
        access::diagnosis::last_diagnostics(&self.unit, handle, lent(diags, self.lent.diags))
    }

    // The extended part of G: `extended_diagnostics`, lent the front of the diagnosis array.
    pub fn extended<'a>(&self, handle: PeripheralHandle, diags: &'a [u8]) -> &'a [u8]
        ensures { Itself (extended_seen self.now.unit handle (lend self.now.lent.diags diags.now)) diags.entry result }
    {
        access::diagnosis::extended_diagnostics(&self.unit, handle, lent(diags, self.lent.diags))
    }

    // H: the listing into the list array, refused by the lent length as `iter` would be; answers how many bytes its entries take, three each.
    pub fn listing(&self, list: &mut [u8]) -> Result<usize, Refusal>
        ensures { ListingDone self.now list.old list.new result }
    {
        if usize::from(self.lent.list) < SLOTS {
            return Err(Refusal::BadLent);
        }
        Ok(put_entries(&self.unit, list))
    }
}
