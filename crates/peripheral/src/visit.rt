// The visit that a turn makes to a peripheral.
ghost use Rattle.std.specs.Prelude.{◌≡◌};
ghost use Rattle.payloads.specs.Payload.{Written};
ghost use Rattle.peripheral.specs.Visit.{visit_of, request_header, clear_length, payload_of};

use crate::record::Peripheral;
use fdl::parameters::Parameters;
use fdl::telegram::{DataTelegramHeader, FrameCountBit};
use payloads::request::Request;
use payloads::write;
use station::visit::Visited;

// The peripheral after a visit, and what the visit does.
#[derive(Clone, Copy)]
pub struct Visit {
    // As the visit leaves it: at most its state, count and frame bit differ.
    pub peripheral: Peripheral,
    // Which request goes out, or that it is reported Offline, or nothing.
    pub what: Visited,
}

// How many zeros a data request has in Clear, for an output image of `len` bytes.
fn clear_len(fail_safe: bool, len: usize) -> usize
    ensures { result ≡ clear_length fail_safe len }
{
    if fail_safe { 0 } else { len }
}

impl Peripheral {
    // The visit hands the peripheral back, and what it does.
    // The record is written anew: a store into a copy of it costs the turn some 50 instructions more.
    pub fn visit(self, limit: u8) -> Visit
        ensures { result ≡ visit_of limit self }
    {
        let what = self.station.action(
            limit,
            self.options.has_user_parameters,
            self.options.has_config,
        );
        let station = self.station.visited(what);
        Visit {
            peripheral: Peripheral { station, ..self },
            what,
        }
    }

    // The header of a request to it, from the station `own`.
    pub fn header(self, kind: Request, own: u8) -> DataTelegramHeader
        ensures { result ≡ request_header kind own self }
    {
        kind.header(
            self.station.address,
            own,
            FrameCountBit::from(self.station.fcb),
        )
    }

    // The payload of a request at the front of `buf`; its length is answered, 0 where it does not fit.
    #[tactic(auto, unfolding(crate::specs::Visit::payload_of))]
    pub fn write_payload(
        self,
        kind: Request,
        u: Parameters,
        clear: bool,
        setup: &[u8],
        outputs: &[u8],
        buf: &mut [u8],
    ) -> usize
        ensures { Written (payload_of kind u clear self setup.now outputs.now) buf.old buf.new result }
    {
        let at = usize::from(self.ranges.setup);
        let count = usize::from(self.options.user_parameters);
        match kind {
            Request::Diagnosis => write::write_zeros(0, buf),
            Request::Parameters => {
                let user = parts::part(setup, at, count);
                write::write_parameters(u, self.options, user, buf)
            }
            Request::Configuration => {
                let config = parts::part(setup, at + count, usize::from(self.options.config));
                write::write_bytes(config, buf)
            }
            Request::Data => {
                let image = self.pi_q(outputs);
                if clear {
                    let len = clear_len(self.options.fail_safe, image.len());
                    write::write_zeros(len, buf)
                } else {
                    write::write_bytes(image, buf)
                }
            }
        }
    }
}
