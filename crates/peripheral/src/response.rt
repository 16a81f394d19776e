// The reply that answers a request: judged first, then kept.
ghost use Rattle.std.specs.Prelude.{◌≡◌, cond, ◌≤◌};
ghost use Rattle.parts.specs.Parts.{part};
ghost use Rattle.station.specs.Heard.{is_exchanged};
ghost use Rattle.peripheral.specs.Response.{extended_of, fits_image, diagnosis_answer, diagnosis_keeps, with_heard, reply_of, with_image, with_part, Kept};

use crate::record::Peripheral;
use fdl::telegram::Telegram;
use payloads::diagnosis;
use payloads::diagnosis::DiagnosticFlags;
use payloads::request::Request;
use station::heard::Heard;
use station::state::{PeripheralEvent, PeripheralState};

// What of a payload is kept: the input image, or the extended part of a diagnosis.
// Three outcomes, of which none is a failure: no `Option`.
#[derive(Clone, Copy)]
pub enum Keeps {
    // No byte: both pools stay as they are.
    Neither,
    // The front of the payload, as long as the input image, goes to the image's range.
    Image,
    // The payload from byte 6 on goes to the room for extended diagnosis.
    Part,
}

// The peripheral after a reply, what is reported, and what is to be kept.
#[derive(Clone, Copy)]
pub struct Reply {
    // As the reply leaves it: only its station differs.
    pub peripheral: Peripheral,
    // What the reply reports, NoEvent where that is nothing; never Offline.
    pub event: PeripheralEvent,
    // What `keep` has to copy to a pool.
    pub keeps: Keeps,
}

// The image with DataExchanged.
fn image_if(event: PeripheralEvent) -> Keeps
    ensures { result ≡ cond (is_exchanged event) Keeps.Image Keeps.Neither }
{
    if event == PeripheralEvent::DataExchanged {
        Keeps::Image
    } else {
        Keeps::Neither
    }
}

impl Peripheral {
    // The length of the extended part of a diagnosis of `len` bytes with these flags, where there is one that fits its room.
    #[tactic(auto, unfolding(crate::specs::Response::part_fits))]
    fn extended(self, flags: u16, len: usize, diags: usize) -> Option<u8>
        requires { 6 ≤ len }
        ensures { result ≡ extended_of self flags len diags }
    {
        let room = usize::from(self.ranges.diag_room);
        if DiagnosticFlags::ExtDiag.is_in(flags)
            && len <= room + 6
            && parts::inside(usize::from(self.ranges.diag), room, diags)
        {
            Some((len - 6) as u8)
        } else {
            None
        }
    }

    // Whether what came is the input image: nothing, for a 0-byte image; or a payload of its length.
    #[tactic(auto, unfolding(crate::specs::Response::fits_image))]
    fn fits_image(self, telegram: Telegram, len: usize, inputs: usize) -> bool
        ensures { result ≡ fits_image telegram self len inputs }
    {
        let room = usize::from(self.ranges.input_len);
        match telegram {
            Telegram::ShortConfirmation => room == 0,
            Telegram::Data { .. } => {
                len == room && parts::inside(usize::from(self.ranges.inputs), room, inputs)
            }
            Telegram::Token | Telegram::Request => false,
        }
    }

    // The record with what its station became.
    fn with_heard(self, h: Heard, keeps: Keeps) -> Reply
        ensures { result ≡ with_heard self h keeps }
    {
        Reply {
            peripheral: Peripheral {
                station: h.station,
                ..self
            },
            event: h.event,
            keeps,
        }
    }

    // A diagnosis was asked for.
    #[tactic(auto, unfolding(crate::specs::Response::station_diagnosed, crate::specs::Response::diagnosis_answer, crate::specs::Response::diagnosis_keeps))]
    fn handle_diagnostics_response(self, telegram: Telegram, payload: &[u8], diags: usize) -> Reply
        ensures { result ≡ with_heard self (diagnosis_answer telegram self payload.now diags) (diagnosis_keeps telegram self payload.now diags) }
    {
        if !diagnosis::is_taken(telegram, payload.len()) {
            return self.with_heard(self.station.diagnosis_missed(), Keeps::Neither);
        }
        let diag = diagnosis::read_diagnosis(payload);
        match self.extended(diag.flags, payload.len(), diags) {
            Some(len) => self.with_heard(self.station.diagnosis_heard(diag, len), Keeps::Part),
            None => self.with_heard(
                self.station.diagnosis_heard(diag, self.station.diag_len),
                Keeps::Neither,
            ),
        }
    }

    // The reply to the request that was asked, with the payload that came with it; the lent pools are so long.
    // Nothing is written: `keep` does it, once the record is stored.
    #[tactic(auto, unfolding(crate::specs::Response::answer_to, crate::specs::Response::keeps_of))]
    pub fn receive_reply(
        self,
        asked: Request,
        telegram: Telegram,
        payload: &[u8],
        inputs: usize,
        diags: usize,
    ) -> Reply
        ensures { result ≡ reply_of asked telegram self payload.now inputs diags }
    {
        match self.station.judged_as(asked) {
            Request::Diagnosis => self.handle_diagnostics_response(telegram, payload, diags),
            Request::Parameters => {
                let short = telegram.is_short_confirmation();
                let heard = self
                    .station
                    .acknowledgement_heard(short, PeripheralState::WaitForConfig);
                self.with_heard(heard, Keeps::Neither)
            }
            Request::Configuration => {
                let short = telegram.is_short_confirmation();
                let heard = self
                    .station
                    .acknowledgement_heard(short, PeripheralState::ValidateConfig);
                self.with_heard(heard, Keeps::Neither)
            }
            Request::Data => {
                let fits = self.fits_image(telegram, payload.len(), inputs);
                let heard = self.station.data_heard(telegram, fits);
                self.with_heard(heard, image_if(heard.event))
            }
        }
    }

    // The image's range gets the front of the payload.
    fn keep_image(self, payload: &[u8], inputs: &mut [u8])
        ensures { inputs.new ≡ with_image self (part 0 self.ranges.input_len payload.now) inputs.old }
    {
        let room = usize::from(self.ranges.input_len);
        let came = parts::part(payload, 0, room);
        parts::copy_at(inputs, usize::from(self.ranges.inputs), room, came);
    }

    // The tail of a diagnosis goes to the function that stores it.
    fn keep_part(self, payload: &[u8], diags: &mut [u8])
        ensures { diags.new ≡ with_part self payload.now diags.old }
    {
        if 6 <= payload.len() {
            let at = usize::from(self.ranges.diag);
            diagnosis::store_extended(diags, at, self.ranges.diag_room, &payload[6..]);
        }
    }

    // What is to be kept of a payload goes to its pool.
    pub fn keep(self, keeps: Keeps, payload: &[u8], inputs: &mut [u8], diags: &mut [u8])
        ensures { Kept keeps self payload.now inputs.old diags.old inputs.new diags.new }
    {
        match keeps {
            Keeps::Neither => {}
            Keeps::Image => self.keep_image(payload, inputs),
            Keeps::Part => self.keep_part(payload, diags),
        }
    }
}
