//! The handles that C keeps.

ghost use Rattle.std.specs.Prelude.{◌≡◌, ◌⊎◌, Option, Some, None, is_some, option_map, IsTrue};
ghost use Rattle.std.specs.Coded.{coded_option};
ghost use Rattle.hefrudyl.specs.code.Owned.{owned};
ghost use Rattle.hefrudyl.specs.code.Taking.{Takes};
ghost use Rattle.tl_sessions.specs.declared.session.Session.{Session};
ghost use Rattle.tl_sessions.specs.contracts.session.Session.{the_row};
ghost use Rattle.std.specs.contracts.impls.GlobalAllocator.TheImpl.{ghosts};

use crate::parts::Parts;
use std::alloc::Global;
use std::marker::Model;
use std::{mem, ptr};
use tl_pictures::answer::Answer;
use tl_sessions::session::Session;

/// The memory of a session, as C sees it.
#[repr(C)]
#[derive(Drop)]
pub struct Opaque {
    first: u8,
}

/// The pointer to a session, or to nothing.
#[repr(C)]
#[derive(Drop)]
pub struct Place {
    at: *mut Opaque,
    alloc: Global,
    pub ghost value: { Option Session } by { coded_option the_row.coded },
}

impl Model for Place {
    ghost also_owns = { λ p. owned (ghosts.dealloc_token p.alloc) the_row p.at p.value };
}

impl Place {
    /// A place that holds nothing.
    fn empty(alloc: Global) -> Place
        ensures { result.value ≡ None }
    {
        Place {
            at: ptr::null_mut(),
            alloc,
        }
    }

    fn of(parts: Parts<Session, Global>) -> Place
        ensures { result.value ≡ Some parts.value }
    {
        let Parts { at, alloc } = parts;
        Place {
            at: at.cast::<Opaque>(),
            alloc,
        }
    }

    fn into_parts(self) -> Parts<Session, Global>
        requires { IsTrue (is_some self.value) }
        ensures { Some result.value ≡ self.value }
    {
        let Place { at, alloc } = self;
        Parts {
            at: at.cast::<Session>(),
            alloc,
        }
    }
}

/// A handle, which holds a session or is empty.
#[repr(C)]
#[derive(Drop)]
pub struct Handle {
    place: Place,
    full: bool,
    ghost is_full: { full ≡ is_some place.value },
}

impl Handle {
    /// An empty handle.
    pub fn empty(alloc: Global) -> Handle
        ensures { result.place.value ≡ None }
    {
        Handle {
            place: Place::empty(alloc),
            full: false,
        }
    }

    /// A handle that holds this session.
    pub fn of(session: Box<Session>) -> Handle
        ensures { result.place.value ≡ Some session.value }
    {
        Handle {
            place: Place::of(Parts::of(session)),
            full: true,
        }
    }

    /// The session of the handle, or None if it is empty. The handle is used up.
    pub fn into_box(self) -> Option<Box<Session>>
        ensures { option_map (λ b. b.value) result ≡ self.place.value }
    {
        let Handle { place, full } = self;
        if full {
            Some(place.into_parts().into_box())
        } else {
            None
        }
    }

    /// Takes a session that was opened, and answers as the call that opened it. A full handle stays, which is bad input.
    /// Without memory for the session an empty handle stays empty.
    pub fn take(&mut self, alloc: Global, opened: Result<Session, Answer>) -> Answer
        ensures { Takes opened self.old.place.value self.new.place.value result }
    {
        if let Some(session) = mem::replace(self, Handle::empty(alloc)).into_box() {
            *self = Handle::of(session);
            drop(opened);
            return Answer::BAD;
        }
        let session = match opened {
            Err(answer) => return answer,
            Ok(session) => session,
        };
        match Box::new(alloc, session) {
            Err(refused) => {
                drop(refused);
                Answer::NO_MEMORY
            }
            Ok(session) => {
                *self = Handle::of(session);
                Answer::OK
            }
        }
    }
}
