// Words that name something.
ghost use Rattle.std.specs.Prelude.{◌≡◌};
ghost use Rattle.pp_world.specs.ScheduleFault as wrong;
ghost use Rattle.pp_world.specs.ScheduleRead.{found, order_of, device_of};
ghost use Rattle.pp_replay.specs.Views.{viewed, as_order, as_device, as_kind};
ghost use Rattle.pp_replay.specs.StepNames.{step_named};

use crate::fault::ScheduleKind;
use crate::types::{Device, Order};

/// The first words of steps.
#[derive(Clone, Copy)]
pub(crate) enum StepName {
    Turn,
    Run,
    Lose,
    Repeat,
    Later,
    Forge,
    Fail,
    Crash,
    Stop,
    Start,
}

pub(crate) fn order_of(word: &[u8]) -> Result<Order, ScheduleKind>
    ensures { viewed as_order as_kind result ≡ found wrong.Line (order_of word.now) }
{
    match word {
        b"sequential" => Ok(Order::Sequential),
        b"rarest" => Ok(Order::Rarest),
        _ => Err(ScheduleKind::Line),
    }
}

pub(crate) fn device_of(word: &[u8]) -> Result<Device, ScheduleKind>
    ensures { viewed as_device as_kind result ≡ found wrong.Line (device_of word.now) }
{
    match word {
        b"read" => Ok(Device::Read),
        b"write" => Ok(Device::Write),
        b"sync" => Ok(Device::Sync),
        b"send" => Ok(Device::Send),
        b"receive" => Ok(Device::Receive),
        _ => Err(ScheduleKind::Line),
    }
}

pub(crate) fn step_named(word: &[u8]) -> Option<StepName>
    ensures { result ≡ step_named word.now }
{
    match word {
        b"turn" => Some(StepName::Turn),
        b"run" => Some(StepName::Run),
        b"lose" => Some(StepName::Lose),
        b"repeat" => Some(StepName::Repeat),
        b"later" => Some(StepName::Later),
        b"forge" => Some(StepName::Forge),
        b"fail" => Some(StepName::Fail),
        b"crash" => Some(StepName::Crash),
        b"stop" => Some(StepName::Stop),
        b"start" => Some(StepName::Start),
        _ => None,
    }
}
