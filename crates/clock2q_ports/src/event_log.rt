//! A record of what has gone through a device, which contracts alone see.
ghost use Rattle.std.specs.Prelude.{◌≡◌};
ghost use Rattle.clock2q_ports.specs.Ports.{Traffic, no_traffic, traffic_after};

use clock2q_count::GhostValue;
use std::marker::Model;

/// The effect of one call of a device.
#[derive(Drop)]
pub(super) struct IoEvent<'a> {
    pub(super) bytes: &'a [u8],
    pub(super) stopped: bool,
    pub(super) failed: bool,
}

impl IoEvent<'_> {
    /// It returned an error.
    pub(super) const FAILED: IoEvent<'static> = IoEvent {
        bytes: &[],
        stopped: false,
        failed: true,
    };

    /// It moved no bytes, and stopped.
    pub(super) const STOPPED: IoEvent<'static> = IoEvent {
        bytes: &[],
        stopped: true,
        failed: false,
    };
}

/// What has gone through a device, as a type for contracts alone: no value of it is ever made.
#[derive(Drop)]
pub(super) struct TrafficModel;

impl Model for TrafficModel {
    ghost Value = { Traffic };

    ghost view = { λ _. no_traffic };
}

/// The effect of all calls of a device. It takes no memory, and no code can read it.
#[derive(Drop)]
pub(super) struct EventLog {
    pub(super) traffic: GhostValue<TrafficModel>,
}

impl EventLog {
    pub(super) fn new() -> EventLog
        ensures { result.traffic.value ≡ no_traffic }
    {
        EventLog {
            traffic: GhostValue::new(&()),
        }
    }

    pub(super) fn add(&mut self, event: &IoEvent)
        ensures { self.new.traffic.value ≡
            traffic_after self.old.traffic.value event.now.bytes.now event.now.stopped event.now.failed }
    {
        self.traffic.set(event);
    }
}

const _: () = prove!(size_of::<EventLog>() == 0);
