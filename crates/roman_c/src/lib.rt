//! Sessions for C programs, as a static library. `roman.h` declares the exports.
//!
//! A C program holds a shelf and a session by value, as handles that begin empty. Each export takes
//! a handle by `&mut`, so its clauses are facts about the content of the handle before and after
//! the call. The clauses require only valid pointers of the caller. `specs/Contents` defines the
//! content of a handle, `specs/Openings` what opening a document leaves in it, and `specs/Answers`
//! the effect of a line.
#![tactic(auto)]

ghost use Rattle.std.specs.Prelude.{◌≡◌, ◌≢◌, ◌∷◌, List, ℕ, [], None, length, drop, take, min, option_copied};
ghost use Rattle.roman_top.specs.Command.{Synth, Check};
ghost use Rattle.roman_c.specs.Answers.{AnswersBy, AnswersEvent, AnswersLine};
ghost use Rattle.roman_c.specs.Events.{join_line};
ghost use Rattle.roman_c.specs.Contents.{reply_in, session_in, texts_in, IsMissing};
ghost use Rattle.roman_c.specs.Copies.{CopiesAll, IsBeginning};
ghost use Rattle.roman_c.specs.Figures.{HaveOffered, by_kind, find_number, kind_from, session_name, no_number, figure_of, phase_number, numbered_state};
ghost use Rattle.roman_c.specs.Jobs.{HasDoneIn, HasWorkedIn, IsJobNumber};
ghost use Rattle.roman_c.specs.Openings.{CanCount, HasOpenedIn, IsOpeningStatus, OpensStart, TellsLimit, TellsRefusal};

use content::Content;
use events::NumberedEvent;
use names::{NO_NUMBER, find, kind_from, name_of, state_of};
use offered::{offered_bits, phase_number};
use shelf::copy_all;
use std::alloc::Global;
use std::marker::Brand;
use std::sync::ledger::{Blank, Ledger};

mod content;
mod events;
mod held;
mod jobs;
mod loose;
mod names;
mod offered;
mod opening;
mod refusals;
mod shelf;
mod talk;

pub use held::Held;

/// Adds a text to a shelf, and begins the shelf if the handle is empty. A newer text replaces an
/// older one with the same name.
///
/// 0: the shelf has the text; 2: the handle holds a session; 9: out of memory; 10: the name isn't
/// UTF-8. If it isn't 0, the texts are unchanged.
#[unsafe(no_mangle)]
pub extern "C" fn roman_add(alloc: Global, shelf: &mut Held, name: &[u8], text: &[u8]) -> u32
    ensures ok { result ≡ 0 → texts_in shelf.new.value ≡ (name.now, text.now) ∷ texts_in shelf.old.value }
    ensures err { result ≢ 0 → texts_in shelf.new.value ≡ texts_in shelf.old.value }
    ensures session { session_in shelf.new.value ≡ session_in shelf.old.value }
{
    let Ok(name) = str::from_utf8(name) else {
        return 10;
    };
    let mut content = match shelf.take(alloc) {
        Some(content) => content,
        None => match Box::new(alloc, Content::empty_shelf(alloc)) {
            Ok(content) => content,
            Err(_) => return 9,
        },
    };
    let status = content.add(alloc, name, text);
    shelf.put(content);
    status
}

/// Begins a session of the document of that name on the shelf, and closes any session that was
/// open.
///
/// 0: the session is open; 3: the document is refused; 4: its system exceeds its limit; 5: the
/// shelf lacks a text that is named; 9: out of memory; 10: the name isn't UTF-8. At 3 and 4 the
/// reply is the line that gives the reason.
#[unsafe(no_mangle)]
pub extern "C" fn roman_open(
    alloc: Global,
    session: &mut Held,
    shelf: &mut Held,
    name: &[u8],
) -> u32
    ensures among { IsOpeningStatus result }
    ensures ok { result ≡ 0 → OpensStart (texts_in shelf.old.value) name.now (session_in session.new.value) }
    ensures none { result ≢ 0 → session_in session.new.value ≡ None }
    ensures refused { result ≡ 3 → TellsRefusal (texts_in shelf.old.value) name.now (reply_in session.new.value) }
    ensures limit { result ≡ 4 → TellsLimit (texts_in shelf.old.value) name.now (reply_in session.new.value) }
    ensures missing { result ≡ 5 → IsMissing shelf.old.value shelf.new.value }
    ensures texts { texts_in shelf.new.value ≡ texts_in shelf.old.value }
{
    opened::<Brand>(alloc, session, shelf, name, Blank::new(1))
}

/// Begins a session as [`roman_open`] does, with a counter of steps on `blank`.
fn opened<L: Ledger>(
    alloc: Global,
    session: &mut Held,
    shelf: &mut Held,
    name: &[u8],
    blank: Blank,
) -> u32
    requires { CanCount L.Ledger blank }
    ensures opens { HasOpenedIn shelf.old.value name.now session.new.value result }
    ensures missing { result ≡ 5 → IsMissing shelf.old.value shelf.new.value }
    ensures texts { texts_in shelf.new.value ≡ texts_in shelf.old.value }
{
    let _ = session.take(alloc);
    let Ok(name) = str::from_utf8(name) else {
        return 10;
    };
    let Some(mut texts) = shelf.take(alloc) else {
        return 5;
    };
    let begun = texts.begin::<L>(alloc, name, blank);
    shelf.put(texts);
    match session.hold(alloc, Content::Talk(begun.talk)) {
        Ok(()) => begun.status,
        Err(_) => 9,
    }
}

/// Reports on the system document of that name on the shelf, as `roman synth` does, and closes any
/// session that was open. The reply is the report.
///
/// 0: the start pair is related; 1: it isn't; 3, 4, 5, 9 and 10 as for [`roman_open`], with its
/// replies. At 9 the reply is a prefix of the text.
#[unsafe(no_mangle)]
pub extern "C" fn roman_synth(
    alloc: Global,
    session: &mut Held,
    shelf: &mut Held,
    name: &[u8],
) -> u32
    ensures among { IsJobNumber result }
    ensures none { session_in session.new.value ≡ None }
    ensures done { HasDoneIn Synth shelf.old.value name.now session.new.value result }
    ensures missing { result ≡ 5 → IsMissing shelf.old.value shelf.new.value }
    ensures texts { texts_in shelf.new.value ≡ texts_in shelf.old.value }
{
    worked::<Brand>(alloc, session, shelf, name, None, Blank::new(1))
}

/// Checks the certificate of that name on the shelf for the system document of that name, as `roman
/// check` does, and closes any session that was open. The reply is the verdict.
///
/// 0: the certificate is right and complete; 1: it is rejected; 8: it is too long; 3, 4, 5, 9 and
/// 10 as for [`roman_synth`].
#[unsafe(no_mangle)]
pub extern "C" fn roman_check(
    alloc: Global,
    session: &mut Held,
    shelf: &mut Held,
    name: &[u8],
    certificate: &[u8],
) -> u32
    ensures among { IsJobNumber result }
    ensures none { session_in session.new.value ≡ None }
    ensures done { HasDoneIn (Check certificate.now) shelf.old.value name.now session.new.value result }
    ensures missing { result ≡ 5 → IsMissing shelf.old.value shelf.new.value }
    ensures texts { texts_in shelf.new.value ≡ texts_in shelf.old.value }
{
    let Ok(certificate) = str::from_utf8(certificate) else {
        let _ = session.take(alloc);
        return 10;
    };
    worked::<Brand>(
        alloc,
        session,
        shelf,
        name,
        Some(certificate),
        Blank::new(1),
    )
}

/// Does a job as [`roman_synth`] and [`roman_check`] do, with a counter of steps on `blank`.
fn worked<L: Ledger>(
    alloc: Global,
    session: &mut Held,
    shelf: &mut Held,
    name: &[u8],
    certificate: Option<&str>,
    blank: Blank,
) -> u32
    requires { CanCount L.Ledger blank }
    ensures works { HasWorkedIn (option_copied certificate.entry) shelf.old.value name.now session.new.value result }
    ensures missing { result ≡ 5 → IsMissing shelf.old.value shelf.new.value }
    ensures texts { texts_in shelf.new.value ≡ texts_in shelf.old.value }
{
    let _ = session.take(alloc);
    let Ok(name) = str::from_utf8(name) else {
        return 10;
    };
    let Some(mut texts) = shelf.take(alloc) else {
        return 5;
    };
    let done = texts.work::<L>(alloc, name, certificate, blank);
    shelf.put(texts);
    match session.hold(alloc, Content::Talk(done.talk)) {
        Ok(()) => done.status,
        Err(_) => 9,
    }
}

/// Answers a line, and holds the reply in place of the last one.
///
/// 0: the event is accepted, or the line is blank or a comment; 1: the line is `quit`; 2: no
/// session is open; 9: there was no memory for the whole reply; from 101 on: the reply is a
/// refusal, and the session is unchanged.
#[unsafe(no_mangle)]
pub extern "C" fn roman_answer(alloc: Global, session: &mut Held, line: &[u8]) -> u32
    ensures { AnswersLine session.old.value line.now session.new.value result }
{
    match session.take(alloc) {
        None => 2,
        Some(mut content) => {
            let status = content.answer(line);
            session.put(content);
            status
        }
    }
}

/// Answers the line of an event by numbers.
fn answer_event(alloc: Global, session: &mut Held, event: NumberedEvent<'_>) -> u32
    ensures { AnswersEvent session.old.value event.entry session.new.value result }
{
    match session.take(alloc) {
        None => 2,
        Some(mut content) => {
            let status = content.answer_event(event);
            session.put(content);
            status
        }
    }
}

/// Requests the action of that number, as `do` does by its name. The status is that of
/// [`roman_answer`], and so is the reply. A number out of range counts as an unknown name.
#[unsafe(no_mangle)]
pub extern "C" fn roman_request(alloc: Global, session: &mut Held, action: u32) -> u32
    ensures { AnswersEvent session.old.value (NumberedEvent.Request action) session.new.value result }
{
    answer_event(alloc, session, NumberedEvent::Request(action))
}

/// Delegates the request to the service at that place, as `use` does by its name.
#[unsafe(no_mangle)]
pub extern "C" fn roman_delegate(alloc: Global, session: &mut Held, service: u32) -> u32
    ensures { AnswersEvent session.old.value (NumberedEvent.Delegate service) session.new.value result }
{
    answer_event(alloc, session, NumberedEvent::Delegate(service))
}

/// Reports the observed states of the delegate and the environment, as `saw` does by their names.
#[unsafe(no_mangle)]
pub extern "C" fn roman_observe(alloc: Global, session: &mut Held, state: u32, env: u32) -> u32
    ensures { AnswersEvent session.old.value (NumberedEvent.Observe state env) session.new.value result }
{
    answer_event(alloc, session, NumberedEvent::Observe(state, env))
}

/// Freezes the service at that place, as `freeze` does by its name.
#[unsafe(no_mangle)]
pub extern "C" fn roman_freeze(alloc: Global, session: &mut Held, service: u32) -> u32
    ensures { AnswersEvent session.old.value (NumberedEvent.Freeze service) session.new.value result }
{
    answer_event(alloc, session, NumberedEvent::Freeze(service))
}

/// Makes the service at that place ready, as `thaw` does by its name.
#[unsafe(no_mangle)]
pub extern "C" fn roman_thaw(alloc: Global, session: &mut Held, service: u32) -> u32
    ensures { AnswersEvent session.old.value (NumberedEvent.Thaw service) session.new.value result }
{
    answer_event(alloc, session, NumberedEvent::Thaw(service))
}

/// Removes the service at that place, as `die` does by its name. Later services move down by one.
#[unsafe(no_mangle)]
pub extern "C" fn roman_die(alloc: Global, session: &mut Held, service: u32) -> u32
    ensures { AnswersEvent session.old.value (NumberedEvent.Die service) session.new.value result }
{
    answer_event(alloc, session, NumberedEvent::Die(service))
}

/// Moves the service at that place to a state, as `jump` does by their names.
#[unsafe(no_mangle)]
pub extern "C" fn roman_jump(alloc: Global, session: &mut Held, service: u32, state: u32) -> u32
    ensures { AnswersEvent session.old.value (NumberedEvent.Jump service state) session.new.value result }
{
    answer_event(alloc, session, NumberedEvent::Jump(service, state))
}

/// Moves the environment to a state, as `jumpenv` does by its name.
#[unsafe(no_mangle)]
pub extern "C" fn roman_jump_env(alloc: Global, session: &mut Held, env: u32) -> u32
    ensures { AnswersEvent session.old.value (NumberedEvent.JumpEnv env) session.new.value result }
{
    answer_event(alloc, session, NumberedEvent::JumpEnv(env))
}

/// Adds a service with that name, behaviour and state in the last place, as `join` does. If `loose`
/// is true, it never needs to be in a final state.
#[unsafe(no_mangle)]
pub extern "C" fn roman_join(
    alloc: Global,
    session: &mut Held,
    name: &[u8],
    behaviour: u32,
    state: u32,
    loose: bool,
) -> u32
    ensures { AnswersBy (λ s. join_line s name.now behaviour state loose) session.old.value session.new.value result }
{
    let event = NumberedEvent::Join {
        name,
        behaviour,
        state,
        loose,
    };
    answer_event(alloc, session, event)
}

/// Returns the services that are offered for the open request: bit `k` is 1 exactly if the service
/// at place `k` is. Returns 0 if no request is open, or if it is delegated.
#[unsafe(no_mangle)]
pub extern "C" fn roman_offers(alloc: Global, session: &mut Held) -> u32
    ensures same { session.new.value ≡ session.old.value }
    ensures offers { HaveOffered (session_in session.old.value) result }
{
    match session.take(alloc) {
        None => 0,
        Some(content) => {
            let bits = match content.session() {
                Some(open) => offered_bits(open),
                None => 0,
            };
            session.put(content);
            bits
        }
    }
}

/// Returns the number of the name of that kind, or `NO_NUMBER`.
#[unsafe(no_mangle)]
pub extern "C" fn roman_find(
    alloc: Global,
    session: &mut Held,
    kind: u32,
    of: u32,
    name: &[u8],
) -> u32
    ensures same { session.new.value ≡ session.old.value }
    ensures number { result ≡ by_kind (kind_from kind of) no_number
        (λ k. figure_of (find_number k name.now) (session_in session.old.value)) }
{
    let Some(kind) = kind_from(kind, of) else {
        return NO_NUMBER;
    };
    match session.take(alloc) {
        None => NO_NUMBER,
        Some(content) => {
            let number = match content.session() {
                Some(open) => find(open, kind, name),
                None => NO_NUMBER,
            };
            session.put(content);
            number
        }
    }
}

/// Copies the name of that kind and number, or as much of it as there is room for. Returns the
/// length of the name, from 1 to 32, or 0 if there is none.
#[unsafe(no_mangle)]
pub extern "C" fn roman_name(
    alloc: Global,
    session: &mut Held,
    kind: u32,
    of: u32,
    number: u32,
    into: &mut [u8],
) -> usize
    ensures same { session.new.value ≡ session.old.value }
    ensures copies { CopiesAll (by_kind (kind_from kind of) []
        (λ k. session_name k number (session_in session.old.value))) into.new result }
{
    let Some(kind) = kind_from(kind, of) else {
        return 0;
    };
    match session.take(alloc) {
        None => 0,
        Some(content) => {
            let len = match content.session() {
                Some(open) => copy_all(name_of(open, kind, number), into),
                None => 0,
            };
            session.put(content);
            len
        }
    }
}

/// Returns the present state of that kind, or `NO_NUMBER`: of the environment, of the target or of
/// the service at place `of`.
#[unsafe(no_mangle)]
pub extern "C" fn roman_state(alloc: Global, session: &mut Held, kind: u32, of: u32) -> u32
    ensures same { session.new.value ≡ session.old.value }
    ensures state { result ≡ by_kind (kind_from kind of) no_number
        (λ k. figure_of (λ s. numbered_state s k) (session_in session.old.value)) }
{
    let Some(kind) = kind_from(kind, of) else {
        return NO_NUMBER;
    };
    match session.take(alloc) {
        None => NO_NUMBER,
        Some(content) => {
            let state = match content.session() {
                Some(open) => state_of(open, kind),
                None => NO_NUMBER,
            };
            session.put(content);
            state
        }
    }
}

/// Returns 0 if no request is open, 1 if services are offered for it, 2 if it is delegated, and
/// `NO_NUMBER` if no session is open.
#[unsafe(no_mangle)]
pub extern "C" fn roman_phase(alloc: Global, session: &mut Held) -> u32
    ensures same { session.new.value ≡ session.old.value }
    ensures phase { result ≡ figure_of (λ s. phase_number s.phase) (session_in session.old.value) }
{
    match session.take(alloc) {
        None => NO_NUMBER,
        Some(content) => {
            let phase = match content.session() {
                Some(open) => phase_number(open.phase()),
                None => NO_NUMBER,
            };
            session.put(content);
            phase
        }
    }
}

/// Copies the last reply from byte `from` on, or as much of it as there is room for. Returns the
/// length of the whole reply.
#[unsafe(no_mangle)]
pub extern "C" fn roman_reply(
    alloc: Global,
    session: &mut Held,
    from: usize,
    into: &mut [u8],
) -> usize
    ensures same { session.new.value ≡ session.old.value }
    ensures len { result ≡ length (reply_in session.old.value) }
    ensures copies { IsBeginning (drop from (reply_in session.old.value)) into.new }
{
    match session.take(alloc) {
        None => 0,
        Some(content) => {
            let len = content.copy_reply(from, into);
            session.put(content);
            len
        }
    }
}

/// Closes the session, if one is open, and returns its memory. The handle is empty after the call.
#[unsafe(no_mangle)]
pub extern "C" fn roman_close(alloc: Global, session: &mut Held)
    ensures { session.new.value ≡ None }
{
    drop(session.take(alloc));
}

/// Returns the memory of a shelf. The handle is empty after the call. Sessions that began from the
/// shelf stay open.
#[unsafe(no_mangle)]
pub extern "C" fn roman_clear(alloc: Global, shelf: &mut Held)
    ensures { shelf.new.value ≡ None }
{
    drop(shelf.take(alloc));
}
