// A diagnosis reply: taken or not, read, and its extended part stored.
ghost use Rattle.std.specs.Prelude.{◌≡◌};
ghost use Rattle.parts.specs.Parts.{put_in};
ghost use Rattle.payloads.specs.Diagnosis.{no_diagnosis, taken, flag, flag_weight, diagnosis_of};

use fdl::telegram::Telegram;

// The last diagnosis that was taken, without its extended part.
// `held` stands beside the numbers, and is no `Option`, since the record has C's layout and every value of it is accepted.
// Its default is what an empty slot holds, zeros; `none` is what a balance that holds none answers.
#[repr(C)]
#[derive(Clone, Copy, Default)]
pub struct DiagnosticsInfo {
    // Bytes 0 and 1 of the reply, low byte first, with 0x0400 removed; 0 before a diagnosis is held.
    pub flags: u16,
    // Ident number that the balance reports, 0 before a diagnosis is held; not compared with that of the options.
    pub ident_number: u16,
    // Address of the master that the balance is locked to; 255 is none.
    pub master_address: u8,
    // Whether a diagnosis was taken since the balance was added or its address reset.
    pub held: bool,
}

impl DiagnosticsInfo {
    // No diagnosis held: flags and ident 0, master none.
    pub fn none() -> DiagnosticsInfo
        ensures { result ≡ no_diagnosis }
    {
        DiagnosticsInfo {
            flags: 0,
            ident_number: 0,
            master_address: 255,
            held: false,
        }
    }
}

// The flags of a diagnosis that a rule looks at, each with its weight.
#[derive(Clone, Copy, PartialEq, Eq)]
pub enum DiagnosticFlags {
    // It is not ready for data exchange; in ValidateConfig it is asked again.
    StationNotReady = 0x0002,
    // The configuration sent to it is faulty; in ValidateConfig that is ConfigError.
    ConfigurationFault = 0x0004,
    // An extended part follows, from byte 6 on.
    ExtDiag = 0x0008,
    // The parameters sent to it are faulty; in ValidateConfig that is ParameterError.
    ParameterFault = 0x0040,
    // It wants parameters; ValidateConfig goes back to WaitForParam.
    ParameterRequired = 0x0100,
    // By the standard it is always set; it is removed from what is held.
    PermanentBit = 0x0400,
}

// Its weight in the flags, a power of 2.
impl From<DiagnosticFlags> for u16 {
    ghost from_gives = { λ f n. n ≡ flag_weight f };

    fn from(flag: DiagnosticFlags) -> u16 {
        flag as u16
    }
}

impl DiagnosticFlags {
    // Whether it is set.
    #[tactic(auto, using(crate::proofs::Facts::masked))]
    pub fn is_in(self, flags: u16) -> bool
        ensures { result ≡ flag (flag_weight self) flags }
    {
        flags & u16::from(self) != 0
    }
}

// Whether it is data with DSAP 62, SSAP 60 and at least 6 bytes.
// A test beside `read_diagnosis`, which reads any bytes: its promise on too few would go in one that answers an `Option`.
pub fn is_taken(telegram: Telegram, len: usize) -> bool
    ensures { result ≡ taken telegram len }
{
    match telegram {
        Telegram::Data {
            dsap: Some(62),
            ssap: Some(60),
            ..
        } => 6 <= len,
        _ => false,
    }
}

// Flags low byte first, with 0x0400 removed; the master; the ident, high byte first. A byte that is not there reads as 0.
#[tactic(auto, using(crate::proofs::Facts::unmasked), unfolding(crate::specs::Diagnosis::diagnosis_of))]
pub fn read_diagnosis(p: &[u8]) -> DiagnosticsInfo
    ensures { result ≡ diagnosis_of p.now }
{
    let raw = u16::from_le_bytes([parts::byte_at(p, 0), parts::byte_at(p, 1)]);
    DiagnosticsInfo {
        flags: raw & !u16::from(DiagnosticFlags::PermanentBit),
        ident_number: u16::from_be_bytes([parts::byte_at(p, 4), parts::byte_at(p, 5)]),
        master_address: parts::byte_at(p, 3),
        held: true,
    }
}

// The extended part goes to its room where it fits.
pub fn store_extended(diags: &mut [u8], at: usize, room: u8, ext: &[u8])
    ensures { diags.new ≡ put_in at room ext.now diags.old }
{
    parts::copy_at(diags, at, usize::from(room), ext);
}
