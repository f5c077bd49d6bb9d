//! Writes offers and reports.
ghost use Rattle.std.specs.Prelude.{◌≡◌, ◌<◌, ◌+◌, ◌++◌, ◌∷◌, length};
ghost use Rattle.roman_io.specs.SinkCalls.{WritesTo, FailsWith};
ghost use Rattle.roman_session.specs.Situations.{IsOpen};
ghost use Rattle.roman_session.specs.Reports.{report_head, services_from, services_and_answer, offer_line, offers_and_end, lines_text, report_text};
ghost use Rattle.roman_session.specs.Serving.{served_line, offer_text};
ghost use Rattle.roman_text.specs.Pages.{Pushes};

use super::Session;
use crate::phase::Phase;
use roman_io::{Failed, Sink};
use roman_rules::SeatSet;
use roman_text::{Page, ReportLine};

fn push_lines<O: Sink>(lines: &[ReportLine], page: &mut Page, out: &mut O) -> Result<(), Failed>
    ensures gathers { Pushes O.Sink out.old out.new page.old page.new (lines_text lines.now) result }
    ensures cause { FailsWith O.Sink out.old out.new result }
{
    for line in lines {
        page.push_report_line(line, out)?;
    }
    Ok(())
}

impl Session {
    /// Writes the report: the numbers of pairs and of related pairs, the services now present, the
    /// present states, and the services that can be offered for each action. Fails only when the
    /// sink's count of faults rose. A prefix of the report was then written.
    pub fn report<O: Sink>(&self, out: &mut O) -> Result<(), Failed>
        ensures report { WritesTo O.Sink out.old out.new
            (report_text self.now.parts self.now.here) result }
        ensures cause { FailsWith O.Sink out.old out.new result }
    {
        let mut page = Page::new();
        self.push_report(&mut page, out)?;
        page.flush(out)
    }

    /// Pushes the reply to a request: the line that names the services that are offered for the
    /// requested action `a`.
    pub(super) fn push_offered<O: Sink>(
        &self,
        a: u8,
        page: &mut Page,
        out: &mut O,
    ) -> Result<(), Failed>
        requires { self.now.phase ≡ Phase.Offered a }
        ensures gathers { Pushes O.Sink out.old out.new page.old page.new (offer_text self.now a) result }
        ensures cause { FailsWith O.Sink out.old out.new result }
    {
        self.known(); // an open request can be served
        let mask = self.offered(a);
        page.push(b"offer", out)?;
        self.push_served(mask, page, out)
    }

    /// Pushes the names of the services of a set, each after a space, and ends the line.
    fn push_served<O: Sink>(
        &self,
        mask: SeatSet,
        page: &mut Page,
        out: &mut O,
    ) -> Result<(), Failed>
        ensures gathers { Pushes O.Sink out.old out.new page.old page.new (served_line self.now.parts mask) result }
        ensures cause { FailsWith O.Sink out.old out.new result }
    {
        for k in 0..self.joint().seats() {
            if !mask.has(k) {
                continue;
            }
            page.push_name(b' ', &self.joint().seat(k).name, out)?;
        }
        page.push(b"\n", out)
    }

    /// Pushes all lines of the report.
    pub(super) fn push_report<O: Sink>(&self, page: &mut Page, out: &mut O) -> Result<(), Failed>
        ensures gathers { Pushes O.Sink out.old out.new page.old page.new
            (report_text self.now.parts self.now.here) result }
        ensures cause { FailsWith O.Sink out.old out.new result }
    {
        push_lines(&self.head_lines(), page, out)?;
        self.push_services(page, out)?;
        self.push_offers(page, out)
    }

    /// Returns the first four lines of the report.
    fn head_lines(&self) -> [ReportLine; 4]
        ensures { result ≡ report_head self.now.parts self.now.here }
    {
        let here = self.target;
        [
            ReportLine::Pairs(self.pairs()),
            ReportLine::Related(self.related()),
            ReportLine::Environment(*self.env_name()),
            ReportLine::Target {
                state: *self.target_name(),
                is_final: self.joint().target().is_final(here),
            },
        ]
    }

    fn service_line(&self, k: u8) -> ReportLine
        requires { k < length self.now.parts.seats }
        ensures { services_from self.now.parts self.now.here k
            ≡ result ∷ services_from self.now.parts self.now.here (k + 1) }
    {
        self.known(); // behaviours are over the environment
        let seat = *self.joint().seat(k);
        let behaviour = self.joint().behaviour(k);
        ReportLine::Service {
            name: seat.name,
            behaviour: *behaviour.name(),
            state: *behaviour.states().at(u32::from(self.state(k))),
            frozen: seat.frozen,
            loose: !seat.rests,
        }
    }

    /// Pushes the lines of the services, and whether the current pair is related.
    fn push_services<O: Sink>(&self, page: &mut Page, out: &mut O) -> Result<(), Failed>
        ensures gathers { Pushes O.Sink out.old out.new page.old page.new
            (lines_text (services_and_answer self.now.parts self.now.here)) result }
        ensures cause { FailsWith O.Sink out.old out.new result }
    {
        for k in 0..self.joint().seats() {
            page.push_report_line(&self.service_line(k), out)?;
        }
        page.push_report_line(&ReportLine::Answer(self.composes()), out)
    }

    /// Pushes a line for each action that the target allows, if the current pair is related, and
    /// the end of the report.
    fn push_offers<O: Sink>(&self, page: &mut Page, out: &mut O) -> Result<(), Failed>
        ensures gathers { Pushes O.Sink out.old out.new page.old page.new
            (lines_text (offers_and_end self.now.parts self.now.here)) result }
        ensures cause { FailsWith O.Sink out.old out.new result }
    {
        if !self.composes() {
            return page.push_report_line(&ReportLine::End, out);
        }
        let actions = self.joint().environment().actions().len() as u8;
        for a in 0..actions {
            if !self.allows(a) {
                continue;
            }
            self.push_offer(a, page, out)?;
        }
        page.push_report_line(&ReportLine::End, out)
    }

    /// Pushes the line of the action `a`, with the services that are offered for it.
    fn push_offer<O: Sink>(&self, a: u8, page: &mut Page, out: &mut O) -> Result<(), Failed>
        requires { IsOpen self.now a }
        ensures gathers { Pushes O.Sink out.old out.new page.old page.new
            (lines_text (offer_line self.now.parts self.now.here a)) result }
        ensures cause { FailsWith O.Sink out.old out.new result }
    {
        self.known(); // allowed actions are actions of the system
        let mask = self.offers(a);
        let line = ReportLine::Offer(*self.joint().action_name(a));
        page.push_report_line(&line, out)?;
        self.push_served(mask, page, out)
    }
}
