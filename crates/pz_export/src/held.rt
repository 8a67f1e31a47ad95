//! What a host holds for the sessions that it keeps open.

ghost use Rattle.std.specs.Prelude.{◌≡◌, Some, None, Option};
ghost use Rattle.std.specs.Borrow.{MutBor};
ghost use Rattle.pz_open.specs.Opened.{OpenState};
ghost use Rattle.std.specs.Prelude.{List};

use pz_open::sessions::OpenSessions;
use std::marker::Model;

/// A host's place for its open sessions, whose bytes it only keeps. Where all of them are zero it holds none. `value` is the borrow of
/// sessions that are never freed, at their address.
#[repr(C)]
#[derive(Drop)]
pub struct Held {
    at: *mut (),
    is_held: bool,
    ghost value: { Option (MutBor (List (Option OpenState))) },
}

impl Model for Held {
    ghost use Rattle.pz_export.specs.Held.{borrow_of_sessions};

    ghost also_owns = { λ h. borrow_of_sessions h.is_held h.at h.value };
}

impl Held {
    /// A place that holds none.
    pub fn none() -> Held
        ensures { result.value ≡ None }
    {
        Held {
            at: std::ptr::null_mut(),
            is_held: false,
        }
    }

    /// A place that holds sessions.
    pub fn of(sessions: &'static mut OpenSessions) -> Held
        ensures { result.value ≡ Some sessions.entry }
    {
        Held {
            at: sessions as *mut OpenSessions as *mut (),
            is_held: true,
        }
    }

    /// The sessions that a place holds.
    pub fn into_ref(self) -> Option<&'static mut OpenSessions>
        ensures { result ≡ self.value }
    {
        let Held { at, is_held } = self;
        if !is_held {
            return None;
        }
        let sessions = unsafe { &mut *(at as *mut OpenSessions) };
        Some(sessions)
    }
}
