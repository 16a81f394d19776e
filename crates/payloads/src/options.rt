// How a peripheral is to be set up.

// The options of a balance; absent user parameters or configuration have the length 0 and no mark.
// Each mark stands beside its length, and is no `Option`, since the record has C's layout and any pair of the two is accepted.
#[repr(C)]
#[derive(Clone, Copy, Default)]
pub struct PeripheralOptions {
    // Ident number by the GSD file, any of 16 bits; parameter bytes 4 and 5, high byte first.
    pub ident_number: u16,
    // Longest response time (max Tsdr) by the GSD file, in bit times; no effect. DECISIONS 11
    pub max_tsdr: u16,
    // Groups of the global control that it is part of, a bit each; parameter byte 6.
    pub groups: u8,
    // Whether it supports fail-safe mode: its data request in Clear is empty, and no other request or state knows it. DECISIONS 85
    pub fail_safe: bool,
    // Whether the parameters ask for SYNC mode (Sync_Req, 0x20); no SYNC is ever commanded.
    pub sync_mode: bool,
    // Whether the parameters ask for FREEZE mode (Freeze_Req, 0x10); no FREEZE is ever commanded.
    pub freeze_mode: bool,
    // Whether there are user parameters, be it 0 bytes; without them nothing is sent in WaitForParam.
    pub has_user_parameters: bool,
    // Length of the user parameters in bytes, 0 to 237; not looked at by an add. DECISIONS 28
    pub user_parameters: u8,
    // Whether there is a configuration, be it 0 bytes; without one nothing is sent in WaitForConfig.
    pub has_config: bool,
    // Length of the configuration in bytes, 0 to 244; not looked at by an add. DECISIONS 28
    pub config: u8,
}
