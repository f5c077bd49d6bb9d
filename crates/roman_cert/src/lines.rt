//! Writes the lines of an explanation, and the last line of each text.
ghost use Rattle.std.specs.Prelude.{◌≡◌, ◌<◌, ◌≤◌, ◌++◌, [], ◌∷◌, length, codes};
ghost use Rattle.std.specs.Option.{ForSome, option_map};
ghost use Rattle.roman_io.specs.SinkCalls.{WritesTo, FailsWith};
ghost use Rattle.roman_model.specs.Explanation.{name_at, reason_name, answer_line};
ghost use Rattle.roman_model.specs.Lines.{text_of_lines};
ghost use Rattle.roman_joint.specs.Names.{names_in};
ghost use Rattle.roman_rules.specs.Probes.{IsReasonOf};
ghost use Rattle.roman_order.specs.Board.{as_entry};
ghost use Rattle.roman_cert.specs.Slices.{IsEntryOf, env_text, lost_text, state_text};
ghost use Rattle.roman_joint.specs.Pairs.{joint_pairs, joint_pair, arena_of};
ghost use Rattle.roman_text.specs.Pages.{Pushes};

use roman_io::{Failed, Sink};
use roman_joint::Joint;
use roman_model::Reason;
use roman_text::{Page, Piece};

/// Pushes the last line, and writes the bytes of the page.
#[tactic(auto, using(crate::proofs::Rests::finished))]
pub(crate) fn finish<O: Sink>(page: &mut Page, out: &mut O) -> Result<(), Failed>
    ensures text { WritesTo O.Sink out.old out.new (page.old ++ codes "end\n") result }
    ensures cause { FailsWith O.Sink out.old out.new result }
{
    page.push(b"end\n", out)?;
    page.flush(out)
}

/// Pushes the line of the lost pair `p`, with the reason why it is lost.
pub(crate) fn push_lost<O: Sink>(
    joint: &Joint,
    p: u32,
    reason: Reason,
    page: &mut Page,
    out: &mut O,
) -> Result<(), Failed>
    requires { IsEntryOf joint.now p reason }
    ensures gathers { Pushes O.Sink out.old out.new page.old page.new
        (lost_text joint.now (as_entry (p, reason))) result }
    ensures cause { FailsWith O.Sink out.old out.new result }
{
    let pair = pair_piece(joint, p);
    page.push(pair.bytes(), out)?;
    for k in 0..joint.seats() {
        let state = state_piece(joint, p, k);
        page.push(state.bytes(), out)?;
    }
    let why = reason_piece(joint, reason);
    page.push(why.bytes(), out)
}

/// Returns the beginning of a pair's line: the states of the target and the environment.
fn pair_piece(joint: &Joint, p: u32) -> Piece
    requires { p < joint_pairs joint.now }
    ensures { let q = joint_pair joint.now p in
        result ≡ codes "lost " ++ name_at (names_in joint.now).target q.t
        ++ 32 ∷ env_text joint.now q }
{
    let target = joint.target_name(joint.shape().target_of(p));
    let env = joint.env_name(joint.shape().env_of(p));
    let text = Piece::new().text(b"lost ").name(target);
    text.text(b" ").name(env)
}

/// Returns the part of a pair's line that names the state of the service at place `k`.
fn state_piece(joint: &Joint, p: u32, k: u8) -> Piece
    requires pair { p < joint_pairs joint.now }
    requires seat { k < length joint.now.seats }
    ensures { let q = joint_pair joint.now p in
        result ≡ 32 ∷ state_text joint.now k q }
{
    let state = joint.shape().part_of(p, k);
    Piece::new().text(b" ").name(joint.state_name(k, state))
}

/// Returns the end of a pair's line: the reason why the pair is lost.
fn reason_piece(joint: &Joint, reason: Reason) -> Piece
    requires { IsReasonOf (arena_of joint.now) reason }
    ensures { result ≡ codes ": " ++ reason_name (names_in joint.now) reason ++ 10 ∷ [] }
{
    let text = Piece::new().text(b": ");
    match reason {
        Reason::Final => text.text(b"final\n"),
        Reason::Act(a) => text.name(joint.action_name(a)).text(b"\n"),
    }
}

/// Returns the line of the service at place `k`: the states with which it may answer, or `cannot`.
pub(crate) fn answer_piece(joint: &Joint, k: u8, answer: Option<u32>) -> Piece
    requires seat { k < length joint.now.seats }
    requires pair { ForSome answer (λ q. q < joint_pairs joint.now) }
    ensures { let answered = option_map (joint_pair joint.now) answer in
        result ≡ text_of_lines (answer_line (names_in joint.now) k answered ∷ []) }
{
    let text = Piece::new().text(b"  ").name(joint.service_name(k));
    match answer {
        None => text.text(b" cannot\n"),
        Some(q) => add_states(text, joint, k, q),
    }
}

/// Adds the states with which the service at place `k` may answer. They are those of the pair `q`.
fn add_states(text: Piece, joint: &Joint, k: u8, q: u32) -> Piece
    requires room { length text ≤ 34 }
    requires seat { k < length joint.now.seats }
    requires pair { q < joint_pairs joint.now }
    ensures { let to = joint_pair joint.now q in
        result ≡ text ++ codes " may answer " ++ state_text joint.now k to
        ++ codes " " ++ env_text joint.now to ++ 10 ∷ [] }
{
    let state = joint.state_name(k, joint.shape().part_of(q, k));
    let env = joint.env_name(joint.shape().env_of(q));
    let text = text.text(b" may answer ").name(state);
    text.text(b" ").name(env).text(b"\n")
}
