// The four requests, and the header of each.
ghost use Rattle.std.specs.Prelude.{◌≡◌};
ghost use Rattle.payloads.specs.Request.{kind_number, request_numbered, is_data, header_of, control_header};

use fdl::consts::Service;
use fdl::telegram::{DataTelegramHeader, FrameCountBit, RequestType};

// What a balance can be asked for or told; a turn sends at most one. 0 stands for no request.
#[derive(Clone, Copy, PartialEq, Eq)]
pub enum Request {
    // Its diagnosis (Slave_Diag), DSAP 60; no payload.
    Diagnosis = 1,
    // To take its parameters (Set_Prm), DSAP 61; seven bytes, then the user parameters.
    Parameters = 2,
    // To check its configuration (Chk_Cfg), DSAP 62; the bytes as stored.
    Configuration = 3,
    // To exchange data (Data_Exchange), no access points; the output image, in Clear zeros or nothing.
    Data = 4,
}

// The header of the global control, which goes to all.
pub fn control_header(sa: u8) -> DataTelegramHeader
    ensures { result ≡ control_header sa }
{
    DataTelegramHeader {
        da: 0x7F,
        sa,
        dsap: Service::SlaveGlobalControl.sap(),
        ssap: Service::MasterMs0.sap(),
        fcb: FrameCountBit::Inactive,
        req: RequestType::SdnLow,
    }
}

// Its number, 1 to 4; 0 stands for no request.
impl From<Request> for u8 {
    ghost from_gives = { λ k n. n ≡ kind_number k };

    fn from(kind: Request) -> u8 {
        kind as u8
    }
}

// The request that a kept number stands for; a number that is none of the four counts as a diagnosis, so that no weight comes of it.
impl From<u8> for Request {
    ghost from_gives = { λ n k. k ≡ request_numbered n };

    fn from(n: u8) -> Request {
        match n {
            2 => Request::Parameters,
            3 => Request::Configuration,
            4 => Request::Data,
            _ => Request::Diagnosis,
        }
    }
}

impl Request {
    // Whether data is asked for.
    pub fn is_data(self) -> bool
        ensures { result ≡ is_data self }
    {
        self == Request::Data
    }

    // The header of this request from the station `sa` to the station `da`.
    pub fn header(self, da: u8, sa: u8, fcb: FrameCountBit) -> DataTelegramHeader
        ensures { result ≡ header_of self da sa fcb }
    {
        let (dsap, ssap, req) = match self {
            Request::Diagnosis => (
                Service::SlaveDiagnosis.sap(),
                Service::MasterMs0.sap(),
                RequestType::SrdLow,
            ),
            Request::Parameters => (
                Service::SlaveSetPrm.sap(),
                Service::MasterMs0.sap(),
                RequestType::SrdLow,
            ),
            Request::Configuration => (
                Service::SlaveChkCfg.sap(),
                Service::MasterMs0.sap(),
                RequestType::SrdLow,
            ),
            Request::Data => (
                Service::SlaveDataExchange.sap(),
                Service::MasterDataExchange.sap(),
                RequestType::SrdHigh,
            ),
        };
        DataTelegramHeader {
            da,
            sa,
            dsap,
            ssap,
            fcb,
            req,
        }
    }
}
