//! What a session leaves.
ghost use Rattle.std.specs.Prelude.{◌≡◌};

use blk_base::{Block, Image};
use call_sessions::power_cuts::calls::Attempt;
use host_answers::Standing;
use host_core::HostTrace;
use order_model::{DeviceRecord, Origins, SchedRecord, Trail};
use std::marker::Model;
use volume_ops::Volume;

/// What is kept of a device's record: how many steps it made. Contracts alone see what it took, transferred and sent.
#[derive(Drop)]
pub struct DeviceSteps {
    steps: u64,
    trace: Trail<DeviceRecord>,
}

impl Model for DeviceSteps {
    ghost use Rattle.std.specs.Prelude.{◌≡◌};
    ghost use Rattle.order_model.specs.declared.history.DeviceRecord.{DeviceRecord};
    ghost use Rattle.session_core.specs.code.Steps.{first_record};

    ghost Value = { DeviceRecord };

    ghost view = { λ d. first_record d.trace.items };

    ghost invariant = { λ d. d.steps ≡ (first_record d.trace.items).steps };
}

impl DeviceSteps {
    /// What is kept of this record once its session has ended.
    pub(crate) fn of(trace: DeviceRecord) -> DeviceSteps
        ensures { result ≡ trace }
    {
        DeviceSteps {
            steps: trace.steps,
            trace: Trail::new().and(&trace),
        }
    }

    /// How many steps the device made.
    pub fn steps(&self) -> u64
        ensures { result ≡ self.now.steps }
    {
        self.steps
    }
}

/// What the power cut left of a session's device. The image itself went into its recovery.
#[derive(Drop)]
pub struct CutRecord {
    /// The blocks of the medium, for contracts alone.
    pub image: Trail<Block>,
    pub origins: Origins,
    /// What the device did.
    pub trace: DeviceSteps,
}

/// What a session left, and what recovery made of it.
#[derive(Drop)]
pub struct SessionReport {
    /// What is kept of the host.
    pub host: HostTrace,
    /// What the scheduler accepted and sent out.
    pub sched: SchedRecord,
    /// What the power cut left.
    pub cut: CutRecord,
    /// What is told of each attempt of recovery that was cut, in order.
    pub attempts: Vec<Attempt>,
    /// The volume that was mounted once recovery had run to its end.
    pub volume: Volume,
    /// The blocks that recovery left, of volume and journal.
    pub image: Image,
    /// How many transactions of the session it has.
    pub found: u32,
    /// How each thread stood when the power was cut.
    pub standings: Vec<Standing>,
}
