// Images in the lent pools: the part itself, empty when refused, and a call that answers whether it is.
ghost use Rattle.std.specs.Prelude.{◌≡◌};
ghost use denote.MutBor.{as_bor};
ghost use Rattle.parts.specs.Parts.{Itself};
ghost use Rattle.refusals.specs.Table.{outcome, number_of, given};
ghost use Rattle.access.specs.Lookup.{found_in, pooled_refusal, input_number, output_number, inputs_seen, outputs_seen, range_of, OutputsWritten};

use crate::lookup::find;
use master::unit::DpMaster;
use peripheral::record::Peripheral;
use peripheral_set::PeripheralHandle;
use refusals::Refusal;

// Where an image starts in its pool and how long it is.
#[derive(Clone, Copy)]
pub struct ImageRange {
    // Where the image's first byte stands in the pool of outputs, in bytes from its front.
    pub start: usize,
    // Bytes of the image, 0 to 244.
    pub len: usize,
}

// Whether a call that is lent one pool is refused: by its length, then by the handle.
pub fn pooled_refusal(
    m: &DpMaster,
    handle: PeripheralHandle,
    lent: usize,
    pool: u16,
) -> Result<(), Refusal>
    ensures { result ≡ outcome (pooled_refusal lent pool handle m.now.occupied) }
{
    refusals::lent(lent, pool).and(handle.refusal(&m.occupied))
}

// The balance of a handle, for a call that is lent one pool.
pub fn pooled(
    m: &DpMaster,
    handle: PeripheralHandle,
    lent: usize,
    pool: u16,
) -> Result<Peripheral, Refusal>
    ensures { result ≡ given (pooled_refusal lent pool handle m.now.occupied) (found_in m.now handle) }
{
    refusals::lent(lent, pool)?;
    find(m, handle)
}

// Whether `pi_i` is refused, which itself hands out the part alone.
// Refuses: pooled_rows.
// Changes: nothing.
pub fn pi_i_refusal(m: &DpMaster, handle: PeripheralHandle, inputs: &[u8]) -> Result<(), Refusal>
    ensures { result ≡ outcome (input_number m.now handle inputs.now) }
{
    pooled_refusal(m, handle, inputs.len(), m.parameters.input_pool)
}

// The input image, itself: what the newest DataExchanged brought, zeros before the first; empty when refused.
// Refuses: pooled_rows.
// Changes: nothing.
pub fn pi_i<'a>(m: &DpMaster, handle: PeripheralHandle, inputs: &'a [u8]) -> &'a [u8]
    ensures { Itself (inputs_seen m.now handle inputs.now) inputs.entry result }
{
    match pooled(m, handle, inputs.len(), m.parameters.input_pool) {
        Ok(p) => p.pi_i(inputs),
        Err(_) => &inputs[..0],
    }
}

// Whether `pi_q` and `pi_q_mut` are refused, which themselves hand out the part alone.
// Refuses: pooled_rows.
// Changes: nothing.
pub fn pi_q_refusal(m: &DpMaster, handle: PeripheralHandle, outputs: &[u8]) -> Result<(), Refusal>
    ensures { result ≡ outcome (output_number m.now handle outputs.now) }
{
    pooled_refusal(m, handle, outputs.len(), m.parameters.output_pool)
}

// The output image, itself: what goes out with a data request in Operate; empty when refused.
// Refuses: pooled_rows.
// Changes: nothing.
pub fn pi_q<'a>(m: &DpMaster, handle: PeripheralHandle, outputs: &'a [u8]) -> &'a [u8]
    ensures { Itself (outputs_seen m.now handle outputs.now) outputs.entry result }
{
    match pooled(m, handle, outputs.len(), m.parameters.output_pool) {
        Ok(p) => p.pi_q(outputs),
        Err(_) => &outputs[..0],
    }
}

// The output image, for the caller to write; empty when refused.
// Refuses: pooled_rows.
// Changes: nothing by itself; what the caller writes into the part stands in the pool.
pub fn pi_q_mut<'a>(m: &DpMaster, handle: PeripheralHandle, outputs: &'a mut [u8]) -> &'a mut [u8]
    ensures { Itself (outputs_seen m.now handle outputs.old) (as_bor outputs.entry) (as_bor result) }
{
    match pooled(m, handle, outputs.len(), m.parameters.output_pool) {
        Ok(p) => p.pi_q_mut(outputs),
        Err(_) => &mut outputs[..0],
    }
}

// Where `pi_q` and `pi_q_mut` hand the output image out, for whoever slices the pool himself; 0 and 0 where it does not lie in its pool.
// Refuses: pooled_rows.
// Changes: nothing.
pub fn pi_q_range(
    m: &DpMaster,
    handle: PeripheralHandle,
    outputs: &[u8],
) -> Result<ImageRange, Refusal>
    ensures { result ≡ range_of (output_number m.now handle outputs.now) (outputs_seen m.now handle outputs.now) }
{
    let p = pooled(m, handle, outputs.len(), m.parameters.output_pool)?;
    let start = usize::from(p.ranges.outputs);
    let len = usize::from(p.ranges.output_len);
    if parts::inside(start, len, outputs.len()) {
        Ok(ImageRange { start, len })
    } else {
        Ok(ImageRange { start: 0, len: 0 })
    }
}

// The output image becomes `bytes`, which has to be as long.
// Refuses: write_refusal.
// Changes: the bytes of the image.
pub fn write_outputs(
    m: &DpMaster,
    handle: PeripheralHandle,
    bytes: &[u8],
    outputs: &mut [u8],
) -> Result<(), Refusal>
    ensures { OutputsWritten m.now handle bytes.now outputs.old outputs.new (number_of result) }
{
    // A match and no `?`, so that the refusal which is handed on stands in the text.
    let found = match pooled(m, handle, outputs.len(), m.parameters.output_pool) {
        Ok(found) => found,
        Err(refusal) => return Err(refusal),
    };
    let len = usize::from(found.ranges.output_len);
    refusals::write(bytes.len(), len)?;
    parts::copy_at(outputs, usize::from(found.ranges.outputs), len, bytes);
    Ok(())
}
