//! What the state table asks of an operation alone, and the first test that holds.

ghost use Rattle.std.specs.Prelude.{◌≡◌};
ghost use Rattle.vt_types.specs.Operation.{device_of, operation};
ghost use Rattle.vq_common.specs.Queue.{is_queue_size};
ghost use Rattle.state_table.specs.Refusal.{first_of, greatest_value, status_before};

use vq_common::is_ring_size;
use vt_types::{Dev, Field, GREATEST_QUEUE, Op, Step, Why};

/// The device that an operation is on.
pub fn device_of(op: &Op) -> Dev
    ensures { result ≡ device_of (operation op.now) }
{
    match op {
        Op::Probe(dev)
        | Op::Reset(dev)
        | Op::Features(dev)
        | Op::GetStatus(dev)
        | Op::Accept(dev, _)
        | Op::Status(dev, _)
        | Op::SetQ(dev, _, _)
        | Op::Post(dev, _, _)
        | Op::Notify(dev, _)
        | Op::Reap(dev, _)
        | Op::Arm(dev, _)
        | Op::Disarm(dev, _)
        | Op::ReadCfg(dev, _)
        | Op::WriteCfg(dev, _, _)
        | Op::IrqQueues(dev)
        | Op::IrqConfig(dev) => *dev,
    }
}

/// The reason of the first test that holds. None exactly where none does.
pub fn first_of(tests: &[(bool, Why)]) -> Option<Why>
    ensures { result ≡ first_of tests.now }
{
    'tests: for test in tests {
        if test.0 {
            return Some(test.1);
        }
    }
    None
}

/// The status that a step of the bring-up starts from (VIRTIO 1.2, 3.1.1).
pub fn status_before(step: Step) -> u8
    ensures { result ≡ status_before step }
{
    match step {
        Step::Ack => 0,
        Step::Driver => Step::Ack.status(),
        Step::FeatOk => Step::Driver.status(),
        Step::DrvOk => Step::FeatOk.status(),
    }
}

/// Whether a queue of a device may have this size: a power of two, at most `GREATEST_QUEUE`.
pub fn is_queue_size(size: u16) -> bool
    ensures { result ≡ is_queue_size size }
{
    is_ring_size(size) && size <= GREATEST_QUEUE
}

/// The greatest value of a field that is written; 0 of one that is not.
pub fn greatest_value(field: Field) -> u32
    ensures { result ≡ greatest_value field }
{
    match field {
        Field::Writeback => 1,
        Field::Emerg => 255,
        Field::Capacity
        | Field::SegMax
        | Field::BlkSize
        | Field::Mac
        | Field::NetStatus
        | Field::Cols
        | Field::Rows
        | Field::Ports => 0,
    }
}
