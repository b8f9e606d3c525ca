//! The program: `serve` between standard input and standard output.

use crate::serving::{serve, serve_with};
use clock2q_ports::Device;
use std::hash::RandomState;
use std::process::ExitCode;

/// Serves standard input to standard output, and returns the program's status.
///
/// The keys are hashed with random numbers, so that no text can have keys that collide. If the
/// system has no random numbers, they are hashed with a fixed seed: the replies are the same.
///
/// A refusal is reported by a line on standard error, and by a status that is not 0
/// ([`ServeError::status`](crate::ServeError::status)).
pub fn serve_standard(rt: HostRuntime) -> ExitCode {
    let mut reader = Device::new(rt.stdin());
    let mut writer = Device::new(rt.stdout());
    let served = match RandomState::new(&rt) {
        Ok(hasher) => serve_with(rt.alloc(), &mut reader, &mut writer, hasher),
        Err(_) => serve(rt.alloc(), &mut reader, &mut writer),
    };
    match served {
        Ok(()) => ExitCode::SUCCESS,
        Err(refusal) => {
            let _ = eprintln!(rt; "{refusal}");
            ExitCode::from(refusal.status())
        }
    }
}
