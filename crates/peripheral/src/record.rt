// The record of a peripheral, as newly added and after a reset, and what can be read off it.
ghost use Rattle.std.specs.Prelude.{◌≡◌, true};
ghost use denote.MutBor.{as_bor};
ghost use Rattle.parts.specs.Parts.{Itself};
ghost use Rattle.station.specs.Record.{due_is, is_live, is_running, last_diagnosis};
ghost use Rattle.peripheral.specs.Record.{blank, new_balance, reset_of, station_is, input_view, output_view, extended_view};

use payloads::diagnosis::DiagnosticsInfo;
use payloads::options::PeripheralOptions;
use station::record::Station;

// Where the four ranges stand in their lent pools, document 01's form for images that the Rust owns or borrows. The set-up range is as long as its user parameters and configuration.
#[repr(C)]
#[derive(Clone, Copy, Default)]
pub struct Ranges {
    // First byte of the set-up range in its pool, 0 to 16,384: user parameters, then configuration.
    pub setup: u16,
    // First byte of the input image in its pool, 0 to 16,384.
    pub inputs: u16,
    // First byte of the output image in its pool, 0 to 16,384.
    pub outputs: u16,
    // First byte of the room for extended diagnosis in its pool, 0 to 16,384.
    pub diag: u16,
    // Length of the input image in bytes, 0 to 244.
    pub input_len: u8,
    // Length of the output image in bytes, 0 to 244.
    pub output_len: u8,
    // Length of the room for extended diagnosis in bytes, 0 to 238.
    pub diag_room: u8,
}

// The record of a balance, 36 bytes: 12 that visits and replies change, and 24 that they do not.
#[repr(C)]
#[derive(Clone, Copy, Default)]
pub struct Peripheral {
    // What visits and replies change; a reset makes it new.
    pub station: Station,
    // Where its parts of the four pools are; an add places them, and they stay.
    pub ranges: Ranges,
    // As given to the add, with the lengths of the set-up data that was lent.
    pub options: PeripheralOptions,
}

impl Peripheral {
    // What an empty slot holds: zeros throughout.
    pub fn blank() -> Peripheral
        ensures { result ≡ blank }
    {
        Peripheral::default()
    }

    // As newly added, with these options, its ranges placed.
    pub fn new(address: u8, options: PeripheralOptions, ranges: Ranges) -> Peripheral
        ensures { result ≡ new_balance address options ranges }
    {
        Peripheral {
            station: Station::new(address),
            ranges,
            options,
        }
    }

    // Set-up data and images stay; all else is as newly added.
    pub fn reset_address(self, address: u8) -> Peripheral
        ensures { result ≡ reset_of self address }
    {
        Peripheral {
            station: Station::new(address),
            ..self
        }
    }

    // The station address that it was added at, or last reset to.
    pub fn address(self) -> u8
        ensures { result ≡ self.station.address }
    {
        self.station.address
    }

    // The options that it was added with, and the lengths of its set-up data.
    pub fn options(self) -> PeripheralOptions
        ensures { result ≡ self.options }
    {
        self.options
    }

    // Whether it responds on the bus: any state but Offline.
    pub fn is_live(self) -> bool
        ensures { result ≡ is_live self.station }
    {
        self.station.is_live()
    }

    // Whether it exchanges data: DataExchange alone.
    pub fn is_running(self) -> bool
        ensures { result ≡ is_running self.station }
    {
        self.station.is_running()
    }

    // A wish for a diagnosis: one is due from now on.
    pub fn request_diagnostics(self) -> Peripheral
        ensures { result ≡ station_is (due_is true self.station) self }
    {
        Peripheral {
            station: self.station.request_diagnostics(),
            ..self
        }
    }

    // The numbers of the diagnosis held; without one, those of none.
    pub fn last_diagnostics(self) -> DiagnosticsInfo
        ensures { result ≡ last_diagnosis self.station }
    {
        self.station.last_diagnostics()
    }

    // The stored extended part of the last diagnosis, itself; empty where none is held.
    pub fn extended_diagnostics(self, diags: &[u8]) -> &[u8]
        ensures { Itself (extended_view self diags.now) diags.entry result }
    {
        parts::part(
            diags,
            usize::from(self.ranges.diag),
            usize::from(self.station.stored_part()),
        )
    }

    // The input image, itself.
    pub fn pi_i(self, inputs: &[u8]) -> &[u8]
        ensures { Itself (input_view self inputs.now) inputs.entry result }
    {
        parts::part(
            inputs,
            usize::from(self.ranges.inputs),
            usize::from(self.ranges.input_len),
        )
    }

    // The output image, itself.
    pub fn pi_q(self, outputs: &[u8]) -> &[u8]
        ensures { Itself (output_view self outputs.now) outputs.entry result }
    {
        parts::part(
            outputs,
            usize::from(self.ranges.outputs),
            usize::from(self.ranges.output_len),
        )
    }

    // The output image, for the caller to write.
    pub fn pi_q_mut(self, outputs: &mut [u8]) -> &mut [u8]
        ensures { Itself (output_view self outputs.old) (as_bor outputs.entry) (as_bor result) }
    {
        parts::part_mut(
            outputs,
            usize::from(self.ranges.outputs),
            usize::from(self.ranges.output_len),
        )
    }
}
