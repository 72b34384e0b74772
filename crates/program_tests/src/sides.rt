//! Two sides of a session: what the scheduler's and the device's do at the ends of their queues, and what they store of it.
ghost use Rattle.std.specs.Prelude.{◌≡◌, false, replicate};
ghost use Rattle.device_epochs.specs.Device.{opened as opened_device};
ghost use Rattle.schedulers.specs.reassign.Sched.{opened as opened_sched};
ghost use Rattle.schedulers.specs.declared.reassign.scheduler.TheConstants.{CAPACITY};
ghost use Rattle.schedulers.specs.dispatch.Opened.{ArePassesOf, AreNew, AreNamed};
ghost use Rattle.thread_sides.specs.Opened.{epoch_setup};

use blk_base::{Block, Image};
use device_epochs::{DeviceSetup, EpochDevice};
use order_model::{Completion, Inlet, Kind, Outlet, Request, lawful_blocks};
use schedulers::dispatch::{
    CompletionEnd, Ends, Passes, Queues, SubmitEnd, close, ends, make_queues,
};
use schedulers::epochs::Sched;
use std::alloc::Global;
use std::marker::Brand;
use std::process::Abort;
use std::sync::Wait;
use thread_sides::{DeviceEvent, DeviceSide, IdFlags, PartNames, SchedEvent, SchedSide};

// What a test does; whether anything was done, or whether the next completion is that of this id, stands beside it.
#[derive(Clone, Copy)]
enum Step {
    // A put with this id to the block of the same number.
    Submit(u32),
    Accept,
    Dispatch,
    // With the place that this word gives, as the loops draw it.
    DispatchBy(u32),
    Receive,
    Transfer,
    TransferBy(u32),
    PersistBy(u32),
    Answer,
    Complete(Option<u64>),
}

use Step::{
    Accept, Answer, Complete, Dispatch, DispatchBy, PersistBy, Receive, Submit, Transfer,
    TransferBy,
};

// Queues hold one item, and there are two ids.
static STEPS: [(Step, bool); 31] = [
    (Submit(0), true),
    (Submit(1), false),
    (Accept, true),
    (Accept, false),
    (Submit(1), true),
    (Accept, true),
    // An id that came before: its request is put aside, and no other is taken.
    (Submit(0), true),
    (Accept, true),
    (Submit(1), true),
    (Accept, false),
    // Of two, 3 gives the second. The other command finds the queue full, and is kept.
    (DispatchBy(3), true),
    (Dispatch, true),
    (Dispatch, false),
    (Receive, true),
    (Dispatch, true),
    (Dispatch, false),
    (Receive, false),
    (TransferBy(3), true),
    (Transfer, false),
    (Receive, true),
    (Transfer, true),
    // The second completion too.
    (Answer, true),
    (Answer, true),
    (Answer, false),
    (Complete(Some(1)), true),
    (Answer, true),
    (Complete(Some(0)), true),
    (Complete(None), true),
    (PersistBy(3), true),
    (PersistBy(3), true),
    (PersistBy(3), false),
];

static OF_SCHEDULER: [SchedEvent; 6] = [
    SchedEvent::Accept,
    SchedEvent::Accept,
    SchedEvent::Accept,
    SchedEvent::Dispatch(1, false),
    SchedEvent::Dispatch(0, true),
    SchedEvent::Dispatch(0, false),
];

static OF_DEVICE: [DeviceEvent; 9] = [
    DeviceEvent::Receive,
    DeviceEvent::Transfer(0),
    DeviceEvent::Receive,
    DeviceEvent::Transfer(0),
    DeviceEvent::Answer(false),
    DeviceEvent::Answer(true),
    DeviceEvent::Answer(false),
    DeviceEvent::Persist(1),
    DeviceEvent::Persist(0),
];

fn put(block: u32) -> Request {
    Request {
        id: block.into(),
        kind: Kind::Put {
            block,
            body: Block::fill(7),
        },
        ordered: true,
        barrier: false,
    }
}

fn id_of(completion: Option<Completion>) -> Option<u64> {
    match completion {
        Some(Completion::Moved(id) | Completion::Flushed(id) | Completion::Failed(id)) => Some(id),
        Some(Completion::Cut) | None => None,
    }
}

// Whether the step did something, or the completion came; want of memory counts as nothing.
fn done<N: PartNames, H: Wait>(
    submit: &mut SubmitEnd<'_, N, H>,
    sched: &mut SchedSide<'_, Sched, N, H>,
    dev: &mut DeviceSide<'_, EpochDevice, N, H>,
    completion: &mut CompletionEnd<'_, N, H>,
    step: Step,
) -> bool {
    let did = match step {
        Submit(id) => Ok(submit.put(put(id)).is_ok()),
        Accept => sched.accept(),
        Dispatch => sched.dispatch(0),
        DispatchBy(word) => sched.dispatch_word(word),
        Receive => dev.receive(),
        Transfer => dev.transfer(0),
        TransferBy(word) => dev.transfer_word(word),
        PersistBy(word) => dev.persist_word(word),
        Answer => dev.answer(),
        Complete(id) => Ok(id_of(completion.take()) == id),
    };
    did == Ok(true)
}

// Does the steps. The first with another answer than the one beside it ends the process.
fn expect_steps<N: PartNames, H: Wait + Abort>(
    rt: &H,
    submit: &mut SubmitEnd<'_, N, H>,
    sched: &mut SchedSide<'_, Sched, N, H>,
    dev: &mut DeviceSide<'_, EpochDevice, N, H>,
    completion: &mut CompletionEnd<'_, N, H>,
) {
    for (at, (step, wanted)) in STEPS.iter().enumerate() {
        let came = done(submit, sched, dev, completion, *step);
        assert!(rt; came == *wanted, "step {at}");
    }
    assert!(rt; sched.events() == OF_SCHEDULER.as_slice());
    assert!(rt; dev.events() == OF_DEVICE.as_slice());
}

fn plays<'a, N: PartNames, H: Wait + Sync + Abort>(
    rt: &'a H,
    alloc: Global,
    queues: &'a Queues,
    passes: Passes,
    sched: Sched,
    dev: EpochDevice,
    sched_ids: IdFlags,
    device_ids: IdFlags,
)
    requires passes { ArePassesOf queues.now passes }
    requires new { AreNew passes }
    requires names { AreNamed N.submission N.dispatch N.completion passes }
    requires scheduler { sched ≡ opened_sched N.setup.limit CAPACITY }
    requires device { dev ≡ opened_device N.image (epoch_setup N.setup) }
    requires sched_ids { sched_ids ≡ replicate N.setup.limit false }
    requires device_ids { device_ids ≡ replicate N.setup.limit false }
{
    let Ends {
        mut submit,
        request,
        send,
        command,
        post,
        mut completion,
    } = ends::<N, H>(rt, queues, passes);
    let mut sched = SchedSide::open(alloc, sched, sched_ids, request, send);
    let mut dev = DeviceSide::open(alloc, dev, device_ids, command, post);
    expect_steps(rt, &mut submit, &mut sched, &mut dev, &mut completion);
    let (_, _, request, send) = sched.into_parts();
    let (_, _, command, post) = dev.into_parts();
    close(Ends {
        submit,
        request,
        send,
        command,
        post,
        completion,
    });
}

// Two requests go through both sides to the medium, and back as completions; what is refused on the way is kept or put aside.
#[test]
fn carry_two_requests(rt: HostRuntime) {
    let alloc = rt.alloc();
    let (queues, passes) = make_queues(&rt, alloc, 1).expect(&rt, "no queues");
    let setup = DeviceSetup {
        depth: 1,
        limit: 2,
        fail_at: None,
        bad_read: None,
        cut_at: None,
    };
    let image = Image::zeroed(alloc, 2).expect(&rt, "no image");
    let dev = EpochDevice::make(alloc, image, setup).expect(&rt, "no device");
    let sched = Sched::make(alloc, 2).expect(&rt, "no scheduler");
    let sched_ids = IdFlags::make(alloc, 2).expect(&rt, "no flags");
    let device_ids = IdFlags::make(alloc, 2).expect(&rt, "no flags");
    plays::<Brand, HostRuntime>(
        &rt, alloc, &queues, passes, sched, dev, sched_ids, device_ids,
    );
}

// A device of two blocks.
fn small_device(rt: &impl Abort, alloc: Global) -> EpochDevice {
    let image = Image::zeroed(alloc, 2).expect(rt, "no image");
    assert!(rt; !image.is_empty());
    let setup = DeviceSetup {
        depth: 1,
        limit: 3,
        fail_at: None,
        bad_read: None,
        cut_at: None,
    };
    EpochDevice::make(alloc, image, setup).expect(rt, "no device")
}

#[test]
fn knows_the_laws_of_the_model_device(rt: HostRuntime) {
    let device = small_device(&rt, rt.alloc());
    assert_eq!(rt; lawful_blocks(&device), 2);
}
