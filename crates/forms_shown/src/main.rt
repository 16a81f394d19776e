// The two forms of crate `forms` in use: the listing in a lent list, and the last diagnosis as one record.
// `stdout` has what this writes, worked out from document 01.
#![tactic(auto)]

ghost use Rattle.std.specs.Prelude.{◌≤◌};

use fdl::parameters::Parameters;
use master::unit::DpMaster;
use payloads::diagnosis::DiagnosticsInfo;
use peripheral::record::Peripheral;
use peripheral_set::{Entry, PeripheralHandle, SLOTS};
use station::state::PeripheralState;
use std::io;

fn parameters() -> Parameters {
    Parameters {
        slot_time: 100,
        setup_pool: 0,
        input_pool: 0,
        output_pool: 0,
        diag_pool: 8,
        address: 1,
        max_retry_limit: 1,
        watchdog: false,
        watchdog_first: 0,
        watchdog_second: 0,
        min_tsdr_bits: 11,
    }
}

// A balance in a state, with no image.
fn balance(address: u8, state: PeripheralState) -> Peripheral {
    let mut p = Peripheral::blank();
    p.station.address = address;
    p.station.state = u8::from(state);
    p
}

// It took the diagnosis 08 08 00 02 12 34 AA BB CC, whose extended part stands in its room of four bytes from index 2 on.
fn diagnosed(address: u8, state: PeripheralState) -> Peripheral {
    let mut p = balance(address, state);
    p.station.diag = DiagnosticsInfo {
        flags: 0x0808,
        ident_number: 0x1234,
        master_address: 2,
        held: true,
    };
    p.station.diag_len = 3;
    p.ranges.diag = 2;
    p.ranges.diag_room = 4;
    p
}

// Slots 0, 3 and 31: Offline, in data exchange with a diagnosis held, and before data exchange.
fn with_gaps() -> DpMaster {
    let mut m = DpMaster::new(parameters()).master;
    m.occupied[0] = true;
    m.occupied[3] = true;
    m.occupied[31] = true;
    m.peripherals[0] = balance(5, PeripheralState::Offline);
    m.peripherals[3] = diagnosed(9, PeripheralState::DataExchange);
    m.peripherals[31] = balance(125, PeripheralState::PreDataExchange);
    m
}

// What `iter` answers and leaves, where the first `room` entries of a list are lent: the entries that are counted, and how many of the others
// are still as they were. No unit has a slot as they have it.
fn report_list(rt: &impl Print, m: &DpMaster, room: usize) -> io::Result<()>
    requires { room ≤ 32 }
{
    let filler = Entry {
        slot: 77,
        address: 88,
        running: true,
    };
    let mut list = [filler; SLOTS];
    let (number, count) = match forms::listing::iter(m, &mut list[..room]) {
        Ok(count) => (0, count),
        Err(refusal) => (u8::from(refusal), 0),
    };
    println!(rt; "list of {room}: number {number}, count {count}")?;
    for e in list.iter().take(count) {
        let running = if e.running { ", running" } else { "" };
        println!(rt; "slot {}, address {}{running}", e.slot, e.address)?;
    }
    let unchanged = list.iter().skip(count).filter(|&&e| e == filler).count();
    println!(rt; "unchanged {unchanged}")
}

// The number, and then the record, of the balance in a slot, where the first `room` bytes of the pool are lent.
// In the pool bytes stand beside the part.
fn report_diagnosis(rt: &impl Print, m: &DpMaster, slot: u8, room: usize) -> io::Result<()>
    requires { room ≤ 8 }
{
    let pool = [1, 2, 0xAA, 0xBB, 0xCC, 6, 7, 8];
    let lent = &pool[..room];
    let handle = PeripheralHandle { slot, address: 0 };
    let number = match forms::diagnosis::last_diagnostics_refusal(m, handle, lent) {
        Ok(()) => 0,
        Err(refusal) => u8::from(refusal),
    };
    let d = forms::diagnosis::last_diagnostics(m, handle, lent);
    let held = if d.held { "held" } else { "none" };
    print!(rt;
        "diagnosis of {slot}: number {number}, {held}, flags {}, ",
        d.flags
    )?;
    print!(rt;
        "ident {}, master {}, part",
        d.ident_number, d.master_address
    )?;
    for byte in forms::diagnosis::extended(d) {
        print!(rt; " {byte}")?;
    }
    println!(rt)
}

fn main(rt: HostRuntime) -> io::Result<()> {
    let m = with_gaps();
    report_list(&rt, &m, 32)?;
    report_list(&rt, &m, 31)?;
    report_diagnosis(&rt, &m, 3, 8)?;
    report_diagnosis(&rt, &m, 0, 8)?;
    report_diagnosis(&rt, &m, 1, 8)?;
    report_diagnosis(&rt, &m, 3, 7)
}
