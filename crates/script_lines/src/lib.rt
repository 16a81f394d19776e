// Call scripts as text (docs/SCRIPTS.md): a line to a call.
#![tactic(auto)]

ghost use Rattle.std.specs.Prelude.{◌≡◌};
ghost use Rattle.script_fields.specs.Read.{with_place, front};
ghost use Rattle.script_lines.specs.Making.{parameters_at, lent_at};
ghost use Rattle.script_lines.specs.Adding.{add_call, user_bytes, config_bytes};
ghost use Rattle.script_lines.specs.Running.{is_bare, telegram_read, reply_call, reply_bytes};
ghost use Rattle.script_lines.specs.Handles.{handle_at};
ghost use Rattle.script_lines.specs.Call.{fields_for, first_for, second_for, CallRead};

use cycle::state::OperatingState;
use fdl::consts::sap_of;
use fdl::parameters::Parameters;
use fdl::telegram::Telegram;
use master::add::Addition;
use payloads::options::PeripheralOptions;
use peripheral_set::PeripheralHandle;
use script_fields::read::Reader;

// How many bytes of each array a call is lent, and how many entries of the list.
// Every reader is given its highest number, so that `as` loses nothing; a reader for each width would need a law a width, since `TryFrom` promises by a relation.
#[derive(Clone, Copy)]
pub struct Lent {
    // Bytes of the array of set-up data: L's `ps`, at most `MOST_LENT`.
    pub setup: u16,
    // Bytes of the array of input images: L's `pi`, at most `MOST_LENT`.
    pub inputs: u16,
    // Bytes of the array of output images: L's `pq`, at most `MOST_LENT`.
    pub outputs: u16,
    // Bytes of the array of extended diagnosis: L's `pd`, at most `MOST_LENT`.
    pub diags: u16,
    // Bytes of the payload array: at most `MOST_PAYLOAD`.
    pub payload: u16,
    // Entries of the list array: at most `MOST_ENTRIES`.
    pub list: u16,
}

// What a line asks for, by its letter. Bytes stand in the two lent arrays, here is how many.
#[derive(Clone, Copy)]
pub enum Call {
    // N: creation, with these parameters.
    New(Parameters),
    // L: these lent lengths, for the next call.
    Lend(Lent),
    // P: every byte of the four pool arrays becomes this one.
    FillPools(u8),
    // F: every payload byte becomes this one, every entry of the list (byte, byte, byte mod 2).
    FillPayload(u8),
    // A: an add, with the bytes of its user parameters and configuration; 0 where absent.
    Add {
        addition: Addition,
        user: usize,
        config: usize,
    },
    // S: the operating state that is set.
    State(OperatingState),
    // T: a turn at `time`, in microseconds.
    Turn {
        time: u64,
        high_prio_only: bool,
    },
    // R: a reply from `address`, with so many bytes of payload.
    Reply {
        address: u8,
        telegram: Telegram,
        len: usize,
    },
    // X: the balance of the handle gets another address.
    Reset {
        handle: PeripheralHandle,
        address: u8,
    },
    // Q: a wish for a diagnosis.
    Wish(PeripheralHandle),
    // W: an output write, with so many bytes.
    Write {
        handle: PeripheralHandle,
        len: usize,
    },
    // I: the input image is asked for.
    Inputs(PeripheralHandle),
    // O: the output image is asked for.
    Outputs(PeripheralHandle),
    // G: the last diagnosis is asked for, with its extended part.
    Diagnosis(PeripheralHandle),
    // H: the listing goes into the list array.
    Listing,
    // D: the whole unit is asked for, with the sums of the pool arrays.
    Dump,
    // B: the checksum of the payload array is asked for.
    Payload,
}

// The most bytes of a pool array that L lends: all of it. The definitions say this and the next two again.
pub const MOST_LENT: u16 = 16400;

// The most bytes of the payload array that L lends: all of it.
pub const MOST_PAYLOAD: u16 = 300;

// The most entries of the list array that L lends: all of it.
pub const MOST_ENTRIES: u16 = 40;

// N: what a unit is created with.
#[tactic(auto, unfolding(crate::specs::Making::parameters_at))]
fn parameters(r: &mut Reader) -> Option<Parameters>
    ensures field { with_place result r.new.at ≡ parameters_at r.old.line.now r.old.at }
    ensures line { r.new.line ≡ r.old.line }
{
    Some(Parameters {
        address: r.number(255)? as u8,
        max_retry_limit: r.number(255)? as u8,
        slot_time: r.number(4294967295)? as u32,
        watchdog: r.flag()?,
        watchdog_first: r.number(255)? as u8,
        watchdog_second: r.number(255)? as u8,
        min_tsdr_bits: r.number(255)? as u8,
        setup_pool: r.number(65535)? as u16,
        input_pool: r.number(65535)? as u16,
        output_pool: r.number(65535)? as u16,
        diag_pool: r.number(65535)? as u16,
    })
}

// L: the lent lengths.
#[tactic(auto, unfolding(crate::specs::Making::lent_at))]
fn lengths(r: &mut Reader) -> Option<Lent>
    ensures field { with_place result r.new.at ≡ lent_at r.old.line.now r.old.at }
    ensures line { r.new.line ≡ r.old.line }
{
    Some(Lent {
        setup: r.number(u64::from(MOST_LENT))? as u16,
        inputs: r.number(u64::from(MOST_LENT))? as u16,
        outputs: r.number(u64::from(MOST_LENT))? as u16,
        diags: r.number(u64::from(MOST_LENT))? as u16,
        payload: r.number(u64::from(MOST_PAYLOAD))? as u16,
        list: r.number(u64::from(MOST_ENTRIES))? as u16,
    })
}

// X, Q, W, I, O and G: slot and address at issue.
#[tactic(auto, unfolding(crate::specs::Handles::handle_at))]
fn handle(r: &mut Reader) -> Option<PeripheralHandle>
    ensures field { with_place result r.new.at ≡ handle_at r.old.line.now r.old.at }
    ensures line { r.new.line ≡ r.old.line }
{
    Some(PeripheralHandle {
        slot: r.number(255)? as u8,
        address: r.number(255)? as u8,
    })
}

// A: what is added; the user parameters go to the front of `a`, the configuration to that of `b`.
#[tactic(auto, unfolding(crate::specs::Adding::add_call, crate::specs::Adding::user_bytes, crate::specs::Adding::config_bytes))]
fn add(r: &mut Reader, a: &mut [u8; 255], b: &mut [u8; 255]) -> Option<Call>
    ensures field { with_place result r.new.at ≡ add_call r.old.line.now r.old.at }
    ensures first { a.new ≡ front (user_bytes r.old.line.now r.old.at) a.old }
    ensures second { b.new ≡ front (config_bytes r.old.line.now r.old.at) b.old }
    ensures line { r.new.line ≡ r.old.line }
{
    let address = r.number(255)? as u8;
    let ident_number = r.number(65535)? as u16;
    let sync_mode = r.flag()?;
    let freeze_mode = r.flag()?;
    let groups = r.number(255)? as u8;
    let fail_safe = r.flag()?;
    let user = r.setup(a)?;
    let config = r.setup(b)?;
    let options = PeripheralOptions {
        ident_number,
        max_tsdr: 0,
        groups,
        sync_mode,
        freeze_mode,
        fail_safe,
        has_user_parameters: user.is_some(),
        user_parameters: 0,
        has_config: config.is_some(),
        config: 0,
    };
    let addition = Addition {
        address,
        options,
        input_len: r.number(65535)? as usize,
        output_len: r.number(65535)? as usize,
        room: r.number(65535)? as usize,
    };
    Some(Call::Add {
        addition,
        user: user.unwrap_or(0),
        config: config.unwrap_or(0),
    })
}

// A short confirmation or a token has no fields of its own: `255 255 0 -`.
fn is_bare(dsap: u8, ssap: u8, status: u8, len: usize) -> bool
    ensures { result ≡ is_bare dsap ssap status len }
{
    dsap == 255 && ssap == 255 && status == 0 && len == 0
}

// What came, by its kind and its fields.
#[tactic(auto, unfolding(crate::specs::Running::telegram_read))]
fn telegram_of(kind: u64, dsap: u8, ssap: u8, status: u8, len: usize) -> Option<Telegram>
    ensures { result ≡ telegram_read kind dsap ssap status len }
{
    let bare = is_bare(dsap, ssap, status, len);
    match kind {
        0 => bare.then_some(Telegram::ShortConfirmation),
        1 => Some(Telegram::Data {
            dsap: sap_of(dsap),
            ssap: sap_of(ssap),
            status,
        }),
        2 => bare.then_some(Telegram::Token),
        _ => Some(Telegram::Request),
    }
}

// R: what came and from whom; the payload goes to the front of `a`.
#[tactic(auto, unfolding(crate::specs::Running::reply_call, crate::specs::Running::reply_bytes))]
fn reply(r: &mut Reader, a: &mut [u8; 255]) -> Option<Call>
    ensures field { with_place result r.new.at ≡ reply_call r.old.line.now r.old.at }
    ensures first { a.new ≡ front (reply_bytes r.old.line.now r.old.at) a.old }
    ensures line { r.new.line ≡ r.old.line }
{
    let address = r.number(255)? as u8;
    let kind = r.number(3)?;
    let dsap = r.number(255)? as u8;
    let ssap = r.number(255)? as u8;
    let status = r.number(255)? as u8;
    let len = r.bytes(a)?;
    Some(Call::Reply {
        address,
        telegram: telegram_of(kind, dsap, ssap, status, len)?,
        len,
    })
}

// The call of a letter, read up to the end of its fields.
#[tactic(auto, unfolding(crate::specs::Call::fields_for, crate::specs::Call::first_for, crate::specs::Call::second_for))]
fn fields(letter: u8, r: &mut Reader, a: &mut [u8; 255], b: &mut [u8; 255]) -> Option<Call>
    ensures field { with_place result r.new.at ≡ fields_for letter r.old.line.now r.old.at }
    ensures first { a.new ≡ front (first_for letter r.old.line.now r.old.at) a.old }
    ensures second { b.new ≡ front (second_for letter r.old.line.now r.old.at) b.old }
    ensures line { r.new.line ≡ r.old.line }
{
    match letter {
        b'N' => Some(Call::New(parameters(r)?)),
        b'L' => Some(Call::Lend(lengths(r)?)),
        b'P' => Some(Call::FillPools(r.number(255)? as u8)),
        b'F' => Some(Call::FillPayload(r.number(255)? as u8)),
        b'A' => add(r, a, b),
        b'S' => Some(Call::State(OperatingState::from(r.number(2)? as u8))),
        b'T' => Some(Call::Turn {
            time: r.number(u64::MAX)?,
            high_prio_only: r.flag()?,
        }),
        b'R' => reply(r, a),
        b'X' => Some(Call::Reset {
            handle: handle(r)?,
            address: r.number(255)? as u8,
        }),
        b'Q' => Some(Call::Wish(handle(r)?)),
        b'W' => Some(Call::Write {
            handle: handle(r)?,
            len: r.bytes(a)?,
        }),
        b'I' => Some(Call::Inputs(handle(r)?)),
        b'O' => Some(Call::Outputs(handle(r)?)),
        b'G' => Some(Call::Diagnosis(handle(r)?)),
        b'H' => Some(Call::Listing),
        b'D' => Some(Call::Dump),
        b'B' => Some(Call::Payload),
        _ => None,
    }
}

// What a line, without its newline, asks for, if it is a call. Bytes go to the front of `a`; in an add the configuration goes to that of `b`.
#[tactic(auto, unfolding(crate::specs::Call::fields_for, crate::specs::Call::first_for, crate::specs::Call::second_for))]
pub fn parse(s: &[u8], a: &mut [u8; 255], b: &mut [u8; 255]) -> Option<Call>
    ensures { CallRead s.now a.old b.old a.new b.new result }
{
    let letter = *s.first()?;
    let mut r = Reader { line: s, at: 1 };
    let call = fields(letter, &mut r, a, b)?;
    r.ends().then_some(call)
}
