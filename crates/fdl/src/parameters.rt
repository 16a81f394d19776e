// The parameters of a unit.
ghost use Rattle.std.specs.Prelude.{◌≡◌, cond};
ghost use Rattle.refusals.specs.Table.{outcome};
ghost use Rattle.fdl.specs.Params.{creation_refusal, in_force, lowest};

use refusals::{MAX_ADDRESS, MAX_POOL, MAX_RETRIES, MAX_SLOT_TIME, Refusal};

// What a unit is created with, and what it holds of that from then on.
// The watchdog's mark stands beside its factors, and is no `Option`, since the record has C's layout and every value of it is answered with a number.
#[repr(C)]
#[derive(Clone, Copy)]
pub struct Parameters {
    // Tsl in microseconds, 1 to 1,000,000; 50 of them after a global control the next one is due.
    pub slot_time: u32,
    // Length in bytes of the pool for user parameters and configurations, 0 to 16,384.
    pub setup_pool: u16,
    // Length in bytes of the pool for input images, 0 to 16,384.
    pub input_pool: u16,
    // Length in bytes of the pool for output images, 0 to 16,384.
    pub output_pool: u16,
    // Length in bytes of the pool for extended diagnosis, 0 to 16,384.
    pub diag_pool: u16,
    // The master's own station address, 0 to 125; no balance may have it.
    pub address: u8,
    // Limit of a balance's count of unanswered requests, 0 to 254; above it a visit reports Offline.
    pub max_retry_limit: u8,
    // Whether the balances are to run their watchdog (WD_On).
    pub watchdog: bool,
    // First factor of the watchdog's time (WD_Fact_1), 0 to 255; a unit holds 0 with the watchdog off.
    pub watchdog_first: u8,
    // Second factor of the watchdog's time (WD_Fact_2), 0 to 255; a unit holds 0 with the watchdog off.
    pub watchdog_second: u8,
    // Shortest time after which a balance may reply (min Tsdr), in bit times, 0 to 255.
    pub min_tsdr_bits: u8,
}

// The factor where the watchdog is on.
fn factor(watchdog: bool, f: u8) -> u8
    ensures { result ≡ cond watchdog f 0 }
{
    if watchdog { f } else { 0 }
}

impl Parameters {
    // Refused as 1 where one is outside its range; min Tsdr and the watchdog factors are bytes, of which each is in range.
    pub fn refusal(self) -> Result<(), Refusal>
        ensures { result ≡ outcome (creation_refusal self) }
    {
        refusals::parameter(0, u32::from(MAX_ADDRESS), u32::from(self.address))
            .and(refusals::parameter(0, MAX_RETRIES, u32::from(self.max_retry_limit)))
            .and(refusals::parameter(1, MAX_SLOT_TIME, self.slot_time))
            .and(refusals::parameter(0, MAX_POOL, u32::from(self.setup_pool)))
            .and(refusals::parameter(0, MAX_POOL, u32::from(self.input_pool)))
            .and(refusals::parameter(0, MAX_POOL, u32::from(self.output_pool)))
            .and(refusals::parameter(0, MAX_POOL, u32::from(self.diag_pool)))
    }

    // As a record holds them: with the watchdog off its factors are 0. DECISIONS 9
    pub fn in_force(self) -> Parameters
        ensures { result ≡ in_force self }
    {
        Parameters {
            watchdog_first: factor(self.watchdog, self.watchdog_first),
            watchdog_second: factor(self.watchdog, self.watchdog_second),
            ..self
        }
    }

    // All at their lowest, as a refused creation has them.
    pub fn lowest() -> Parameters
        ensures { result ≡ lowest }
    {
        Parameters {
            slot_time: 1,
            setup_pool: 0,
            input_pool: 0,
            output_pool: 0,
            diag_pool: 0,
            address: 0,
            max_retry_limit: 0,
            watchdog: false,
            watchdog_first: 0,
            watchdog_second: 0,
            min_tsdr_bits: 0,
        }
    }
}
