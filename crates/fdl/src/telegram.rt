// Requests and replies as values: no bytes on a wire here.
ghost use Rattle.std.specs.Prelude.{◌≡◌};
ghost use Rattle.fdl.specs.Bits.{cycled, fcb_of, fcv_of, bit_number, bit_of, request_number};
ghost use Rattle.fdl.specs.Status.{among, codes, is_short, usable_reply};

use refusals::MAX_PAYLOAD;

// The bit that tells a repeated request from a new one; inactive in global control.
#[derive(Clone, Copy, PartialEq, Eq)]
pub enum FrameCountBit {
    // FCB 1, FCV 0; a new or reset balance is asked with it until a reply cycles it.
    First = 1,
    // FCB 0, FCV 1; follows First, and High.
    Low = 2,
    // FCB 1, FCV 1; follows Low.
    High = 3,
    // FCB 0, FCV 0; that of the global control, and cycling leaves it.
    Inactive = 0,
}

// The service and the priority of a request.
#[derive(Clone, Copy, PartialEq, Eq)]
pub enum RequestType {
    // Send data with no acknowledge, low priority, for the global control.
    SdnLow = 0x04,
    // Send and request data, low priority, for diagnosis, parameters and configuration.
    SrdLow = 0x0C,
    // Send and request data, high priority, for data.
    SrdHigh = 0x0D,
}

// The header of a request.
#[derive(Clone, Copy)]
pub struct DataTelegramHeader {
    // Destination: the address of the balance, or 0x7F, which is all, for the global control.
    pub da: u8,
    // Source: the master's own address, 0 to 125.
    pub sa: u8,
    // Destination's service access point: 60, 61, 62, 58 for the global control, none for data.
    pub dsap: Option<u8>,
    // Source's service access point: 62, none for data.
    pub ssap: Option<u8>,
    // Frame bit, FCB with FCV; inactive in the global control.
    pub fcb: FrameCountBit,
    // SDN low for the global control, SRD high for data, SRD low for the rest.
    pub req: RequestType,
}

// What came in answer to a request; the payload of data is lent beside it.
#[derive(Clone, Copy)]
pub enum Telegram {
    // Kind 0: one byte on the wire (SC) and no payload; it acknowledges parameters and configuration.
    ShortConfirmation,
    // Kind 1: a reply with a payload, its access points and its status, usable where that is one of the nine codes.
    Data {
        dsap: Option<u8>,
        ssap: Option<u8>,
        status: u8,
    },
    // Kind 2: the right to send, handed on; no reply, and refused as 10.
    Token,
    // Kind 3: somebody's request; no reply, and refused as 10.
    Request,
}

impl FrameCountBit {
    // The bit after a reply that cycles it: First to Low to High to Low; the inactive one stays.
    pub fn cycle(self) -> FrameCountBit
        ensures { result ≡ cycled self }
    {
        match self {
            FrameCountBit::First => FrameCountBit::Low,
            FrameCountBit::Low => FrameCountBit::High,
            FrameCountBit::High => FrameCountBit::Low,
            FrameCountBit::Inactive => FrameCountBit::Inactive,
        }
    }

    // The frame count bit (FCB) of it, 0 or 1.
    pub fn fcb(self) -> u8
        ensures { result ≡ fcb_of self }
    {
        match self {
            FrameCountBit::First | FrameCountBit::High => 1,
            FrameCountBit::Low | FrameCountBit::Inactive => 0,
        }
    }

    // The frame count valid bit (FCV) of it, 0 or 1.
    pub fn fcv(self) -> u8
        ensures { result ≡ fcv_of self }
    {
        match self {
            FrameCountBit::Low | FrameCountBit::High => 1,
            FrameCountBit::First | FrameCountBit::Inactive => 0,
        }
    }
}

// The number that stands for it in a record.
impl From<FrameCountBit> for u8 {
    ghost from_gives = { λ bit n. n ≡ bit_number bit };

    fn from(bit: FrameCountBit) -> u8 {
        bit as u8
    }
}

// The bit of a number; any that is not 1, 2 or 3 counts as inactive. DECISIONS 20
impl From<u8> for FrameCountBit {
    ghost from_gives = { λ n bit. bit ≡ bit_of n };

    fn from(n: u8) -> FrameCountBit {
        match n {
            1 => FrameCountBit::First,
            2 => FrameCountBit::Low,
            3 => FrameCountBit::High,
            _ => FrameCountBit::Inactive,
        }
    }
}

// The low bits of the function code.
impl From<RequestType> for u8 {
    ghost from_gives = { λ kind n. n ≡ request_number kind };

    fn from(kind: RequestType) -> u8 {
        kind as u8
    }
}

// Whether a status is one of the nine codes.
fn usable_status(code: u8) -> bool
    ensures { result ≡ among code codes }
{
    matches!(code, 0..=3 | 8..=10 | 12 | 13)
}

impl Telegram {
    // Whether it is the kind that acknowledges parameters and configuration.
    pub fn is_short_confirmation(self) -> bool
        ensures { result ≡ is_short self }
    {
        matches!(self, Telegram::ShortConfirmation)
    }

    // Whether a reply with a payload of `len` bytes can be used at all; else it is refused as 10.
    pub fn is_usable(self, len: usize) -> bool
        ensures { result ≡ usable_reply self len }
    {
        match self {
            Telegram::ShortConfirmation => true,
            Telegram::Data { status, .. } => usable_status(status) && len <= MAX_PAYLOAD,
            Telegram::Token | Telegram::Request => false,
        }
    }
}
