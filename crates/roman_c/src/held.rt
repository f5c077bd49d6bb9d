//! The box that a C program holds.
ghost use Rattle.std.specs.Prelude.{◌≡◌, ◌≢◌, Bool, true, false, Option, Some, None, option_map, OnOk, OnErr};
ghost use Rattle.roman_c.specs.Owned.{held_owns};
ghost use Rattle.roman_c.specs.declared.content.Content.{Content};
ghost use Rattle.roman_c.specs.contracts.content.Content.{the_row};

use crate::content::Content;
use crate::loose::Loose;
use std::alloc::{AllocError, Global};
use std::marker::Model;

/// A box, or nothing. A C program holds a shelf or a session by value as one of these.
#[repr(C)]
#[derive(Drop)]
pub struct Held {
    at: *mut u8,
    full: bool,
    alloc: Global,
    pub ghost value: { Option Content },
}

impl Model for Held {
    ghost also_owns = { λ h. held_owns h.alloc the_row h.at h.full h.value };
}

impl Held {
    fn none(alloc: Global) -> Held
        ensures { result.value ≡ None }
    {
        Held {
            at: std::ptr::null_mut(),
            full: false,
            alloc,
        }
    }

    fn of_loose(loose: Loose<Content, Global>) -> Held
        ensures { result.value ≡ Some loose.value }
    {
        let Loose { at, alloc } = loose;
        Held {
            at: at as *mut u8,
            full: true,
            alloc,
        }
    }

    fn into_loose(self) -> Option<Loose<Content, Global>>
        ensures { self.value ≡ option_map (λ b. b.value) result }
    {
        let Held { at, full, alloc } = self;
        if full {
            Some(Loose {
                at: at as *mut Content,
                alloc,
            })
        } else {
            None
        }
    }

    /// Returns the held box, if there is one. Nothing is held after the call.
    pub(crate) fn take(&mut self, alloc: Global) -> Option<Box<Content>>
        ensures left { self.new.value ≡ None }
        ensures taken { self.old.value ≡ option_map (λ b. b.value) result }
    {
        match std::mem::replace(self, Held::none(alloc)).into_loose() {
            Some(loose) => Some(loose.into_box()),
            None => None,
        }
    }

    /// Holds a box in place of the old content.
    pub(crate) fn put(&mut self, value: Box<Content>)
        ensures { self.new.value ≡ Some value.value }
    {
        *self = Held::of_loose(Loose::of(value));
    }

    /// Holds a new box in place of the old content. Fails only when out of memory, and is then
    /// empty.
    pub(crate) fn hold(&mut self, alloc: Global, content: Content) -> Result<(), AllocError>
        ensures ok { OnOk result (self.new.value ≡ Some content) }
        ensures err { OnErr result (self.new.value ≡ None) }
    {
        let _ = self.take(alloc);
        self.put(Box::new(alloc, content)?);
        Ok(())
    }
}

// A handle may be passed to another thread.
unsafe impl Send for Held {}
