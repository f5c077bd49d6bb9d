//! Reads a certificate line by line, from pieces of any length.
ghost use Rattle.std.specs.Prelude.{◌≡◌, ℕ, ◌+◌, ◌*◌, ◌<◌, ◌≤◌, ◌==◌, [], length, position, None, Some, IfOk, IfErr};
ghost use Rattle.roman_model.specs.Lines.{lines};
ghost use Rattle.roman_model.specs.Arena.{Arena};
ghost use Rattle.roman_rules.specs.Numbered.{IsNumbered};
ghost use Rattle.roman_check.specs.Lines.{IsPatternFor};
ghost use Rattle.roman_check.specs.Audits.{Fits};
ghost use Rattle.roman_check.specs.Readers.{CanReadFrom, ReadsOn, IsReading, HasLines, IsBetween, ReadsPart, ReadsPiece, EndsLine, Closes, CanEndLine, Decides, DecidesRead, JudgesHeld};

use crate::audit::{Audit, Due};
use crate::entries::ROOM;
use crate::line::Line;
use crate::pattern::Pattern;
use crate::verdict::{Verdict, Why};
use roman_io::Steps;
use roman_model::MAX_CERTIFICATE_BYTES;
use roman_rules::Rules;
use std::alloc::{AllocError, Global};
use std::sync::ledger::Ledger;

/// The state of a check: the lines read so far, and the bytes so far of the next line.
#[derive(Drop)]
pub(crate) struct Reader {
    pub(crate) audit: Audit,
    pub(crate) line: Line,
    // the number of lines read
    pub(crate) lines: u32,
}

/// Returns the place of the first newline.
fn first_newline(bytes: &[u8]) -> Option<usize>
    ensures { result ≡ position (λ byte. byte == 10) bytes.now }
{
    bytes.iter().position(|byte| *byte == b'\n')
}

impl Reader {
    /// Begins a check, before the first byte. Fails only when out of memory.
    pub(crate) fn build<J: Rules>(alloc: Global, joint: &J) -> Result<Reader, AllocError>
        ensures reading { IfOk result (IsReading (J.arena joint.now) []) }
        ensures shaped { IfOk result (λ reader. Fits J.Rules joint.now reader.audit) }
        ensures lines { IfOk result (λ reader. reader.lines ≡ 0) }
    {
        Ok(Reader {
            audit: Audit::build(alloc, joint)?,
            line: Line::new(),
            lines: 0,
        })
    }

    /// Judges the line that consists of the buffered bytes and the bytes `last`.
    #[tactic(auto, using(crate::proofs::ReaderLemmas::alone))]
    fn judge<J: Rules, L: Ledger>(
        &mut self,
        joint: &J,
        last: &[u8],
        steps: &mut Steps<L>,
    ) -> Option<Why>
        requires shaped { Fits J.Rules joint.now self.old.audit }
        ensures judged { JudgesHeld (J.arena joint.now) self.old self.new last.now result }
        ensures shaped { Fits J.Rules joint.now self.new.audit }
        ensures lines { self.new.lines ≡ self.old.lines }
    {
        joint.known(); // a pair's number fits in 32 bits
        if self.line.is_empty() {
            return self.audit.judge(joint, last, steps);
        }
        self.line.extend(last);
        match self.line.text() {
            Some(line) => self.audit.judge(joint, line, steps),
            None => Some(Why::Form),
        }
    }

    /// Reads the last bytes of a line and its newline. Returns the line's fault, if it has one.
    fn end_line<J: Rules, L: Ledger>(
        &mut self,
        joint: &J,
        last: &[u8],
        steps: &mut Steps<L>,
    ) -> Option<Why>
        requires ready { CanEndLine J.Rules joint.now self.old }
        ensures { EndsLine (J.arena joint.now) (J.lanes joint.now) self.old self.new last.now result }
    {
        if let Some(why) = self.judge(joint, last, steps) {
            return Some(why);
        }
        self.line.clear();
        self.lines += 1;
        None
    }

    /// Reads entries from the place `from` on, while they differ from the pattern only in two digits
    /// and their reason is known to hold. Returns the place after them.
    fn read_alike<J: Rules>(
        &mut self,
        joint: &J,
        pattern: &Pattern,
        piece: &[u8],
        from: usize,
    ) -> usize
        requires from { CanReadFrom J.Rules joint.now self.old piece.now from }
        requires between { IsBetween self.old }
        requires pattern { IsPatternFor (J.arena joint.now).actions pattern.now }
        ensures read { ReadsOn J.Rules joint.now self.old self.new piece.now from result None }
        ensures between { IsBetween self.new }
    {
        joint.known(); // a pair's number fits in 32 bits
        let mut start = from;
        let (mut text, shape) = (pattern.text, pattern.shape);
        if shape.reason != self.audit.probe.reason {
            return start;
        }
        let Some(front) = self.audit.front() else {
            return start;
        };
        let end = piece.len().saturating_sub(ROOM);
        while start < end {
            let Some(pair) = shape.fit(&mut text, &piece[start..]) else {
                return start;
            };
            if !self.audit.take_known(joint, front, pair) {
                return start;
            }
            self.lines += 1;
            start += shape.len + 1;
        }
        start
    }

    /// Reads entries from the place `from` on, while each can be read in one pass. Returns the place
    /// after them, or the fault of the last one.
    fn read_entries<J: Rules, L: Ledger>(
        &mut self,
        joint: &J,
        piece: &[u8],
        from: usize,
        steps: &mut Steps<L>,
    ) -> Result<usize, Why>
        requires { CanReadFrom J.Rules joint.now self.old piece.now from }
        ensures read { IfOk result (λ start. ReadsOn J.Rules joint.now self.old self.new piece.now from start None) }
        ensures fault { IfErr result (λ why. (to : ℕ) ×
            ReadsOn J.Rules joint.now self.old self.new piece.now from to (Some why)) }
    {
        joint.known(); // a pair's number fits in 32 bits
        let mut start = from;
        let Due::Body = self.audit.due else {
            return Ok(start);
        };
        if !self.line.is_empty() {
            return Ok(start);
        }
        let (pairs, actions) = (joint.pairs(), joint.actions());
        let mut pattern = Pattern::new();
        while let Some((pair, reason, len)) = pattern.read(&piece[start..], pairs, actions) {
            let end = start + len;
            if let Some(why) = self.audit.take_entry(joint, pair, reason, steps) {
                return Err(why);
            }
            self.lines += 1;
            start = self.read_alike(joint, &pattern, piece, end + 1);
        }
        Ok(start)
    }

    /// Reads a piece, up to the first line at fault that ends in it. Returns that fault, if there is
    /// one.
    pub(crate) fn feed<J: Rules, L: Ledger>(
        &mut self,
        joint: &J,
        piece: &[u8],
        steps: &mut Steps<L>,
    ) -> Option<Why>
        requires shaped { Fits J.Rules joint.now self.old.audit }
        requires room { self.old.lines + length piece.now ≤ MAX_CERTIFICATE_BYTES }
        ensures { ReadsPiece (J.arena joint.now) (J.lanes joint.now) self.old self.new piece.now result }
    {
        let mut from = 0;
        'lines: loop {
            let start = match self.read_entries(joint, piece, from, steps) {
                Ok(start) => start,
                Err(why) => return Some(why),
            };
            let rest = &piece[start..];
            let Some(len) = first_newline(rest) else {
                self.line.extend(rest);
                return None;
            };
            if let Some(why) = self.end_line(joint, &rest[..len], steps) {
                return Some(why);
            }
            from = start + len + 1;
        }
    }

    /// Reads the last line if its newline is missing. Returns its fault, if it has one.
    #[tactic(auto, using(crate::proofs::ReaderLemmas::closed_line))]
    fn close<J: Rules, L: Ledger>(&mut self, joint: &J, steps: &mut Steps<L>) -> Option<Why>
        requires ready { CanEndLine J.Rules joint.now self.old }
        ensures closed { Closes (J.arena joint.now) self.old self.new result }
        ensures shaped { Fits J.Rules joint.now self.new.audit }
        ensures lines { self.new.lines ≤ self.old.lines + 1 }
    {
        if self.line.is_empty() {
            return None;
        }
        self.end_line(joint, &[], steps)
    }

    /// Returns the verdict when all lines were read and none is at fault. It rejects the text if
    /// the line `end` is missing.
    fn conclude(&self, start: u32) -> Verdict
        requires start { start < length self.now.audit.left.words.items * self.now.audit.left.lanes }
        requires room { self.now.lines ≤ MAX_CERTIFICATE_BYTES + 1 }
        ensures { (A : Arena ℕ) → IsNumbered A → Decides A start (λ bytes. HasLines A (lines bytes) self.now) result }
    {
        match self.audit.due {
            Due::Nothing => Verdict::Greatest {
                related: self.audit.left.count,
                start: self.audit.is_left(start),
            },
            _ => Verdict::Rejected {
                line: self.lines + 1,
                why: Why::Form,
            },
        }
    }

    /// Reads the rest of the last line, and returns the verdict on the whole certificate.
    pub(crate) fn finish<J: Rules, L: Ledger>(
        &mut self,
        joint: &J,
        start: u32,
        steps: &mut Steps<L>,
    ) -> Verdict
        requires ready { CanEndLine J.Rules joint.now self.old }
        requires start { start < length (J.arena joint.now).nodes }
        ensures { DecidesRead (J.arena joint.now) start self.old result }
    {
        joint.known(); // pairs are numbered from 0
        if let Some(why) = self.close(joint, steps) {
            return Verdict::Rejected {
                line: self.lines + 1,
                why,
            };
        }
        self.conclude(start)
    }
}
