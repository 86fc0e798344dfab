//! The handle: null, or the address of a session that it owns.

ghost use Rattle.std.specs.Prelude.{◌≡◌, Some, None};
ghost use Rattle.std.specs.Coded.{coded_option};
ghost use Rattle.std.specs.declared.option.Option.{Option};
ghost use Rattle.graphql_schema_handles.specs.Held.{boxed, held, loosened};
ghost use Rattle.graphql_schema_handles.specs.contracts.sessions.Session.{the_row};
ghost use Rattle.graphql_schema_handles.specs.declared.sessions.Session.{Session};

use crate::loose::Loose;
use crate::sessions::Session;
use std::alloc::Global;
use std::marker::Model;
use std::mem::replace;

/// What a caller in another language keeps: one pointer, which is null if nothing is kept. It is not `Drop`, so no line of
/// code can lose what it owns.
#[repr(C)]
pub struct SchemaHandle {
    at: *mut (),
    pub ghost kept: { Option Session } by { coded_option the_row.coded },
}

impl Model for SchemaHandle {
    ghost also_owns = { λ h. held the_row h.at h.kept };
}

// What it owns names no thread.
unsafe impl Send for SchemaHandle {}

impl SchemaHandle {
    /// A handle that keeps nothing.
    pub fn closed() -> SchemaHandle
        ensures { result.kept ≡ None }
    {
        SchemaHandle {
            at: std::ptr::null_mut(),
        }
    }

    pub(crate) fn of(loose: Loose<Session, Global>) -> SchemaHandle
        ensures { result.kept ≡ Some loose.value }
    {
        let Loose { at, alloc: _ } = loose;
        SchemaHandle { at: at as *mut () }
    }

    pub(crate) fn into_loose(self, alloc: Global) -> Option<Loose<Session, Global>>
        ensures { loosened result ≡ self.kept }
    {
        let SchemaHandle { at } = self;
        if at.is_null() {
            return None;
        }
        Some(Loose {
            at: at as *mut Session,
            alloc,
        })
    }

    /// A handle that keeps this session.
    pub fn keep(session: Box<Session, Global>) -> SchemaHandle
        ensures { result.kept ≡ Some session.value }
    {
        SchemaHandle::of(Loose::of(session))
    }

    /// The session that is kept, if one is.
    pub fn open(self, alloc: Global) -> Option<Box<Session, Global>>
        ensures { boxed result ≡ self.kept }
    {
        Some(self.into_loose(alloc)?.into_box())
    }

    /// Puts a handle in the place of this one, and gives back the memory of what this one kept.
    pub fn put(&mut self, handle: SchemaHandle, alloc: Global)
        ensures { self.new.kept ≡ handle.kept }
    {
        drop(replace(self, handle).open(alloc));
    }
}
