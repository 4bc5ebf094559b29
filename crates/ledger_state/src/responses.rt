//! Which responses were sent last, and which of these were lost.

use std::alloc::{AllocError, Global};
use std::collections::VecDeque;

/// Of how many responses it is known which records they answer. More never wait to be handed to the system.
const MOST: usize = 4096;

/// Which record a response answers: the number of its lane, and its number there.
#[derive(Clone, Copy)]
struct Sent {
    /// The Response Authenticator.
    authenticator: [u8; 16],
    lane: u16,
    number: u64,
}

/// The responses that were sent last, and the records whose responses were lost.
#[derive(Drop)]
pub(crate) struct Responses {
    sent: VecDeque<Sent>,
    lost: VecDeque<(u16, u64)>,
}

impl Responses {
    /// Makes it with room for all, without any.
    ///
    /// # Errors
    ///
    /// `AllocError` if memory is refused.
    pub(crate) fn new(alloc: Global) -> Result<Responses, AllocError> {
        Ok(Responses {
            sent: VecDeque::with_capacity(alloc, MOST)?,
            lost: VecDeque::with_capacity(alloc, MOST)?,
        })
    }

    /// Records that a response is about to be sent.
    pub(crate) fn send(&mut self, lane: u16, number: u64, response: &[u8]) {
        let Some(authenticator) = authenticator_of(response) else {
            return;
        };
        if self.sent.len() >= MOST {
            self.sent.pop_front();
        }
        let _ = self.sent.push_back(Sent {
            authenticator,
            lane,
            number,
        });
    }

    /// Records that a datagram was lost. If it is none of these responses, or too many were lost, that is forgotten.
    pub(crate) fn lose(&mut self, datagram: &[u8]) {
        let Some(lost) = authenticator_of(datagram) else {
            return;
        };
        for sent in self.sent.iter().rev() {
            if sent.authenticator == lost {
                if self.lost.len() < MOST {
                    let _ = self.lost.push_back((sent.lane, sent.number));
                }
                return;
            }
        }
    }

    /// Takes the record whose response was lost first.
    pub(crate) fn take_lost(&mut self) -> Option<(u16, u64)> {
        self.lost.pop_front()
    }
}

/// Returns the Authenticator of a packet (RFC 2866 section 3).
fn authenticator_of(packet: &[u8]) -> Option<[u8; 16]> {
    let (octets, _) = packet.get(4..)?.split_first_chunk::<16>()?;
    Some(*octets)
}
