// Service access points, by the names of the Rust for those that are used.
// The access point at one end of a telegram (DSAP or SSAP) is `Some` of its number, 0 to 254, or `None`, as in data exchange.
ghost use Rattle.std.specs.Prelude.{◌≡◌};
ghost use Rattle.fdl.specs.Sap.{sap_number, sap_of, service_sap};

// The services at the master's end and at the slave's end of a telegram; each has its access point.
#[derive(Clone, Copy, PartialEq, Eq)]
pub enum Service {
    // The master's end of data exchange (Data_Exchange): none.
    MasterDataExchange,
    // The master's end of all else, its handler of slaves (MS0): 62.
    MasterMs0,
    // The slave's end of data exchange (Data_Exchange): none.
    SlaveDataExchange,
    // The slave's end of the global control (Global_Control): 58.
    SlaveGlobalControl,
    // The slave's end of a diagnosis (Slave_Diag), where it is asked for and comes from: 60.
    SlaveDiagnosis,
    // The slave's end of parameters (Set_Prm): 61.
    SlaveSetPrm,
    // The slave's end of a configuration (Chk_Cfg): 62.
    SlaveChkCfg,
}

// The number that stands for an access point, 255 for none.
// A function, and so is the next: `From` is not for two types of the library.
pub fn sap_number(sap: Option<u8>) -> u8
    ensures { result ≡ sap_number sap }
{
    sap.unwrap_or(255)
}

// The access point of a number; 255 is none.
pub fn sap_of(n: u8) -> Option<u8>
    ensures { result ≡ sap_of n }
{
    match n {
        255 => None,
        _ => Some(n),
    }
}

impl Service {
    // Where the service is reached: its access point, or none.
    pub fn sap(self) -> Option<u8>
        ensures { result ≡ service_sap self }
    {
        match self {
            Service::MasterDataExchange | Service::SlaveDataExchange => None,
            Service::SlaveGlobalControl => Some(58),
            Service::SlaveDiagnosis => Some(60),
            Service::SlaveSetPrm => Some(61),
            Service::MasterMs0 | Service::SlaveChkCfg => Some(62),
        }
    }
}
