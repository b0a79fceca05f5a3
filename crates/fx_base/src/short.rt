//! A few bytes that lie in the value itself.
ghost use Rattle.std.specs.Prelude.{◌≡◌, ◌<◌, ◌≤◌, IfSome, IfNone, length};

use std::marker::Model;

/// At most `ROOM` bytes, of at most 255, which lie in the value itself. A copy takes no memory. Contracts see the list of them.
#[derive(Debug, Drop)]
pub struct Short<const ROOM: usize> {
    room: [u8; ROOM],
    len: u8,
}

impl<const ROOM: usize> Model for Short<ROOM> {
    ghost use Rattle.std.specs.Prelude.{ℕ, List, ◌≤◌, ◌≡◌, length, take};

    ghost Value = { List ℕ };

    ghost view = { λ s. take s.len s.room };

    ghost invariant = { λ s. (s.len ≤ ROOM) × (length s.room ≡ ROOM) };
}

impl<const ROOM: usize> Short<ROOM> {
    /// These bytes; None exactly where there is no room for them.
    pub fn of(bytes: &[u8]) -> Option<Short<ROOM>>
        requires { ROOM ≤ 255 }
        ensures some { IfSome result (λ short. (short ≡ bytes.now) × (length bytes.now ≤ ROOM)) }
        ensures none { IfNone result (ROOM < length bytes.now) }
    {
        if bytes.len() > ROOM {
            return None;
        }
        let mut room = [0; ROOM];
        room[..bytes.len()].copy_from_slice(bytes);
        Some(Short {
            room,
            len: bytes.len() as u8,
        })
    }

    /// The same bytes once more.
    pub fn copy(&self) -> Short<ROOM>
        ensures { result ≡ self.now }
    {
        Short {
            room: self.room,
            len: self.len,
        }
    }

    /// The bytes, as a slice.
    pub fn as_slice(&self) -> &[u8]
        ensures bytes { result.now ≡ self.now }
        ensures fits { length self.now ≤ ROOM }
    {
        &self.room[..self.len as usize]
    }
}

/// So few bytes as a text or a file has in the value itself.
pub type ShortText = Short<30>;
