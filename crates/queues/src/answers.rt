// The queues, and what serve answers.
ghost use Rattle.std.specs.Prelude.{◌≡◌};
ghost use Rattle.definitions.specs.Calls.Queues.{queue_number, last};
ghost use Rattle.definitions.specs.Calls.QueueBytes.{mark_byte};
ghost use Rattle.queues.specs.Outcomes.{queue_is, NumberedIs};

use terms::refusals::Refusal;

// Whose frames wait in it, by document 02's number.
#[derive(Clone, Copy, Debug, PartialEq, Eq)]
pub enum Queue {
    Chassis = 0,
    FixedUnit = 1,
}

impl Queue {
    // The byte of document 02's format that marks it as the last served.
    pub(crate) fn mark_byte(self) -> u8
        ensures { result ≡ mark_byte (last (queue_is self)) }
    {
        self as u8 + 1
    }
}

// Document 02's number of a queue.
impl From<Queue> for u8 {
    ghost from_gives = { λ queue number. number ≡ queue_number (queue_is queue) };

    fn from(queue: Queue) -> u8 {
        queue as u8
    }
}

// The queue of a number; there are two.
impl TryFrom<u8> for Queue {
    type Error = Refusal;

    ghost try_from_gives = { NumberedIs };

    fn try_from(number: u8) -> Result<Queue, Refusal> {
        match number {
            0 => Ok(Queue::Chassis),
            1 => Ok(Queue::FixedUnit),
            _ => Err(Refusal::NoSuchQueue),
        }
    }
}

// The queue of the frame that was given and its length, or none if both queues are empty; or why the serve is refused.
pub type ServeAnswer = Result<Option<(Queue, usize)>, Refusal>;
