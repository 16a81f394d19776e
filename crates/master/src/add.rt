// Adding a balance.
ghost use Rattle.std.specs.Prelude.{◌≡◌, cond, [], ◌+◌, ◌≤◌};
ghost use Rattle.refusals.specs.Table.{outcome};
ghost use Rattle.peripheral_set.specs.Marks.{first_empty};
ghost use Rattle.cycle.specs.Refusal.{length_refusal};
ghost use Rattle.master.specs.Pools.{pools_of};
ghost use Rattle.master.specs.Add.{ranges_at, used_after, options_held, room_refusal, setup_after, cleared, added_of, Adding};

use crate::unit::{DpMaster, Used};
use cycle::refusal::{Lengths, Lent};
use fdl::parameters::Parameters;
use payloads::options::PeripheralOptions;
use peripheral::record::{Peripheral, Ranges};
use peripheral_set::{PeripheralHandle, SLOTS};
use refusals::Refusal;

// What a call adds, beside its set-up data: absent data has the length 0 whatever is lent, and the two lengths in the options are not looked at. DECISIONS 14, 28
#[derive(Clone, Copy)]
pub struct Addition {
    // Address of the balance on the bus, 0 to 125, not the master's own and no other balance's.
    pub address: u8,
    // Ident, modes, groups, and whether user parameters and configuration are present.
    pub options: PeripheralOptions,
    // Bytes of its input image, which it sends: 0 to 244.
    pub input_len: usize,
    // Bytes of its output image, which it is sent: 0 to 244.
    pub output_len: usize,
    // Bytes kept in the pool of extended diagnosis for its extended part: 0 to 238.
    pub room: usize,
}

// Set-up data where it is present, else none.
fn present(has: bool, data: &[u8]) -> &[u8]
    ensures { result.now ≡ cond has «data».now [] }
{
    if has { data } else { &data[..0] }
}

// Where the ranges of a new balance stand: each after the used part of its pool.
fn ranges_at(used: Used, l: Lengths) -> Ranges
    requires { length_refusal l ≡ 0 }
    ensures { result ≡ ranges_at used l }
{
    Ranges {
        setup: used.setup,
        inputs: used.inputs,
        outputs: used.outputs,
        diag: used.diags,
        input_len: l.inputs as u8,
        output_len: l.outputs as u8,
        diag_room: l.room as u8,
    }
}

// How long the set-up range of a balance is.
fn setup_len(p: Peripheral) -> usize
    ensures { result ≡ p.options.user_parameters + p.options.config }
{
    usize::from(p.options.user_parameters) + usize::from(p.options.config)
}

// Each of its ranges, by its pool.
fn room_refusal(u: Parameters, p: Peripheral) -> Result<(), Refusal>
    ensures { result ≡ outcome (room_refusal u p) }
{
    let r = p.ranges;
    refusals::room(r.setup, setup_len(p), u.setup_pool)
        .and(refusals::room(r.inputs, usize::from(r.input_len), u.input_pool))
        .and(refusals::room(r.outputs, usize::from(r.output_len), u.output_pool))
        .and(refusals::room(r.diag, usize::from(r.diag_room), u.diag_pool))
}

// Where a range ends that lies in its pool.
fn end_of(pool: u16, start: u16, len: usize) -> u16
    requires { start + len ≤ pool }
    ensures { result ≡ start + len }
{
    (usize::from(start) + len) as u16
}

// The used parts end where its ranges do.
fn used_after(u: Parameters, p: Peripheral) -> Used
    requires { room_refusal u p ≡ 0 }
    ensures { result ≡ used_after p }
{
    let r = p.ranges;
    Used {
        setup: end_of(u.setup_pool, r.setup, setup_len(p)),
        inputs: end_of(u.input_pool, r.inputs, usize::from(r.input_len)),
        outputs: end_of(u.output_pool, r.outputs, usize::from(r.output_len)),
        diags: end_of(u.diag_pool, r.diag, usize::from(r.diag_room)),
    }
}

// The options with the lengths of their set-up data.
fn options_held(o: PeripheralOptions, l: Lengths) -> PeripheralOptions
    requires { length_refusal l ≡ 0 }
    ensures { result ≡ options_held o l }
{
    PeripheralOptions {
        user_parameters: l.user as u8,
        config: l.config as u8,
        ..o
    }
}

// The user parameters first, the configuration right after.
fn store_setup(setup: &mut [u8], at: u16, user: &[u8], config: &[u8])
    ensures { setup.new ≡ setup_after at user.now config.now setup.old }
{
    let start = usize::from(at);
    let count = user.len();
    parts::copy_at(setup, start, count, user);
    parts::copy_at(setup, start + count, config.len(), config);
}

// A range of a pool is zeroed.
fn clear(pool: &mut [u8], at: u16, len: u8)
    ensures { pool.new ≡ cleared at len pool.old }
{
    parts::clear_at(pool, usize::from(at), usize::from(len));
}

impl DpMaster {
    // The first empty slot; SLOTS where there is none.
    fn first_empty(&self) -> usize
        ensures { result ≡ first_empty self.now.occupied }
    {
        peripheral_set::first_empty(&self.occupied).unwrap_or(SLOTS)
    }

    // A balance is added in the first empty slot, each of its ranges behind the used part of its pool; answers its handle, by which all later calls name it.
    // Refuses: add_rows and room_rows.
    // Changes: the slot, its mark and the used lengths; set-up data is copied in, the other three ranges are zeroed.
    pub fn add(
        &mut self,
        a: Addition,
        user: &[u8],
        config: &[u8],
        setup: &mut [u8],
        inputs: &mut [u8],
        outputs: &mut [u8],
        diags: &mut [u8],
    ) -> Result<PeripheralHandle, Refusal>
        ensures { Adding self.old a user.now config.now (pools_of setup.old inputs.old outputs.old diags.old) (pools_of setup.new inputs.new outputs.new diags.new) (added_of result self.new) }
    {
        let u = self.parameters;
        let user_data = present(a.options.has_user_parameters, user);
        let config_data = present(a.options.has_config, config);
        let l = Lengths {
            user: user_data.len(),
            config: config_data.len(),
            inputs: a.input_len,
            outputs: a.output_len,
            room: a.room,
        };
        let lent = Lent {
            setup: setup.len(),
            inputs: inputs.len(),
            outputs: outputs.len(),
            diags: diags.len(),
        };
        let slot = self.first_empty();
        let elsewhere = addresses::taken_elsewhere(
            &self.occupied,
            &self.peripherals,
            slot,
            a.address,
        );
        cycle::refusal::add_refusal(u, lent, slot, a.address, elsewhere, l)?;
        let p = Peripheral::new(
            a.address,
            options_held(a.options, l),
            ranges_at(self.used, l),
        );
        room_refusal(u, p)?;
        self.peripherals[slot] = p;
        self.occupied[slot] = true;
        self.used = used_after(u, p);
        let r = p.ranges;
        store_setup(setup, r.setup, user_data, config_data);
        clear(inputs, r.inputs, r.input_len);
        clear(outputs, r.outputs, r.output_len);
        clear(diags, r.diag, r.diag_room);
        Ok(PeripheralHandle {
            slot: slot as u8,
            address: a.address,
        })
    }
}
