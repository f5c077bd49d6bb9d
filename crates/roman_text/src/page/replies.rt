//! Pushes replies on a page.
ghost use Rattle.std.specs.Prelude.{◌≡◌, ◌+◌, ◌≤◌, ◌++◌, length};
ghost use Rattle.roman_io.specs.SinkCalls.{FailsWith};
ghost use Rattle.roman_model.specs.declared.limits.TheConstants.{PIECE_BYTES};
ghost use Rattle.roman_text.specs.declared.piece.TheConstants.{LONGEST};
ghost use Rattle.roman_text.specs.Replies.{reply_text};
ghost use Rattle.roman_text.specs.declared.replies.Reply.TheVariants as reply;
ghost use Rattle.roman_text.specs.Pages.{Pushes};

use super::Page;
use crate::replies::Reply;
use roman_io::{Failed, Sink};
use roman_read::Name;

#[tactic(auto, using(crate::proofs::PageLemmas::in_pieces))]
impl Page {
    /// Appends a reply, as [`Page::push`] appends bytes. Writes the held bytes first if fewer than
    /// 128 bytes of the page are free.
    pub fn push_reply<O: Sink>(&mut self, reply: &Reply, out: &mut O) -> Result<(), Failed>
        ensures gathers { Pushes O.Sink out.old out.new self.old self.new (reply_text reply.now) result }
        ensures cause { FailsWith O.Sink out.old out.new result }
    {
        self.make_room(out)?;
        self.add_reply(reply);
        Ok(())
    }

    /// Appends the reply that names the service to which a request is delegated, as
    /// [`Page::push_reply`] appends replies.
    pub fn push_using<O: Sink>(&mut self, service: &Name, out: &mut O) -> Result<(), Failed>
        ensures gathers { Pushes O.Sink out.old out.new self.old self.new
            (reply_text (reply.Using service.now)) result }
        ensures cause { FailsWith O.Sink out.old out.new result }
    {
        self.make_room(out)?;
        self.add_using(service);
        Ok(())
    }

    /// Appends the reply that names the new states of the target and of the environment, as
    /// [`Page::push_reply`] appends replies.
    pub fn push_now<O: Sink>(
        &mut self,
        target: &Name,
        env: &Name,
        out: &mut O,
    ) -> Result<(), Failed>
        ensures gathers { Pushes O.Sink out.old out.new self.old self.new
            (reply_text (reply.Now target.now env.now)) result }
        ensures cause { FailsWith O.Sink out.old out.new result }
    {
        self.make_room(out)?;
        self.add_now(target, env);
        Ok(())
    }

    /// Adds a reply. Requires room for the longest reply.
    fn add_reply(&mut self, reply: &Reply)
        requires { length self.old + LONGEST ≤ PIECE_BYTES }
        ensures { self.new ≡ self.old ++ reply_text reply.now }
    {
        match reply {
            Reply::Offer => self.add(b"offer"),
            Reply::Serves(service) => self.add_name(b" ", service, b""),
            Reply::Stop => self.add(b"\n"),
            Reply::Using(service) => self.add_using(service),
            Reply::Now { target, env } => self.add_now(target, env),
            Reply::Aborted => self.add(b"aborted\n"),
            Reply::Kept { kept, added } => self.add_kept(*kept, *added),
            Reply::Jumped => self.add(b"jumped\n"),
            Reply::Bye => self.add(b"bye\n"),
            Reply::ErrorLine => self.add(b"error line\n"),
            Reply::ErrorName => self.add(b"error name\n"),
            Reply::ErrorBusy => self.add(b"error busy\n"),
            Reply::ErrorIdle => self.add(b"error idle\n"),
            Reply::NoComposition => self.add(b"no composition\n"),
            Reply::NotAllowed => self.add(b"not allowed\n"),
            Reply::NotOffered => self.add(b"not offered\n"),
            Reply::Impossible => self.add(b"impossible\n"),
            Reply::ErrorFrozen => self.add(b"error frozen\n"),
            Reply::ErrorReady => self.add(b"error ready\n"),
            Reply::ErrorTaken => self.add(b"error taken\n"),
            Reply::ErrorFull => self.add(b"error full\n"),
            Reply::ErrorLimit => self.add(b"error limit\n"),
            Reply::ErrorRelated => self.add(b"error related\n"),
        }
    }

    /// Adds the line that names the service to which a request is delegated.
    fn add_using(&mut self, service: &Name)
        requires { length self.old + LONGEST ≤ PIECE_BYTES }
        ensures { self.new ≡ self.old ++ reply_text (reply.Using service.now) }
    {
        self.add_name(b"using ", service, b"\n");
    }

    /// Adds the line that names the new states of the target and of the environment.
    fn add_now(&mut self, target: &Name, env: &Name)
        requires { length self.old + LONGEST ≤ PIECE_BYTES }
        ensures { self.new ≡ self.old ++ reply_text (reply.Now target.now env.now) }
    {
        self.add_name(b"now ", target, b" ");
        self.add_name(b"", env, b"\n");
    }

    /// Adds the line with the number of entries that the replay kept, and the number of pairs
    /// added.
    fn add_kept(&mut self, kept: u32, added: u32)
        requires { length self.old + LONGEST ≤ PIECE_BYTES }
        ensures { self.new ≡ self.old ++ reply_text (reply.Kept kept added) }
    {
        self.add(b"kept ");
        self.add_number(kept);
        self.add(b" added ");
        self.add_number(added);
        self.add(b"\n");
    }
}
