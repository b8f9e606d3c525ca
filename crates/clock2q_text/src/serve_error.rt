//! What the program can refuse.
ghost use Rattle.std.specs.Prelude.{◌≡◌};

use clock2q_ports::ReadError;
use std::alloc::AllocError;
use thiserror::Error;

/// The reason why `serve` of `clock2q_command` wrote no replies, or not all of them.
///
/// # Example
///
/// ```
/// let mut input = Device::new(b"new 2\nput 1\n".as_slice());
/// let mut output = Device::new(Vec::new(rt.alloc()));
/// let refused = serve(rt.alloc(), &mut input, &mut output);
/// assert_eq!(rt; refused.err(), Some(ServeError::BadLine(2)));
/// ```
#[derive(Debug, Clone, Copy, PartialEq, Eq, Error)]
pub enum ServeError {
    /// The number of the first line that isn't a valid command in its place, counted from 1. In an
    /// empty input it is line 1.
    #[error("line {0}: bad command")]
    BadLine(usize),
    /// A request for memory was refused, at any step.
    #[error("no memory")]
    Memory,
    /// All lines are good, and the capacity is above 16,777,215, the most that a cache can have.
    #[error("capacity refused")]
    Capacity,
    /// All lines are good, the capacity is within its limit, and the shares in the first line don't
    /// fit together.
    #[error("policy refused")]
    Policy,
    /// The source failed before its end.
    #[error("read failed")]
    Read,
    /// The sink failed. A prefix of the replies, or all of them, may have been written.
    #[error("write failed")]
    Write,
}

impl ServeError {
    ghost use Rattle.clock2q_text.specs.ServeError.{status_of};

    /// Returns the program's exit status: 2 for a bad line, 3 if there is no memory or the capacity
    /// is too large, 4 if a device failed, 5 if the shares don't fit together.
    pub fn status(&self) -> u8
        ensures status { result ≡ status_of self.now }
    {
        match self {
            ServeError::BadLine(_) => 2,
            ServeError::Memory | ServeError::Capacity => 3,
            ServeError::Read | ServeError::Write => 4,
            ServeError::Policy => 5,
        }
    }
}

impl From<AllocError> for ServeError {
    ghost use Rattle.clock2q_text.specs.declared.serve_error.ServeError.TheVariants.{Memory};

    ghost from_gives = { λ _ refusal. refusal ≡ Memory };

    fn from(_error: AllocError) -> ServeError {
        ServeError::Memory
    }
}

impl From<ReadError> for ServeError {
    ghost use Rattle.clock2q_text.specs.ServeError.{of_reading};

    ghost from_gives = { λ error refusal. refusal ≡ of_reading error };

    fn from(error: ReadError) -> ServeError {
        match error {
            ReadError::Failed => ServeError::Read,
            ReadError::Memory => ServeError::Memory,
        }
    }
}
