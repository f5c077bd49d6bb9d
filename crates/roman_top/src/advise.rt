//! The command `advise SYSTEM COSTS H`.
ghost use Rattle.std.specs.Prelude.{◌≡◌, ◌≤◌, false, length, IfOk};
ghost use Rattle.roman_io.specs.SinkCalls.{WritesTo, FailsWith};
ghost use Rattle.roman_model.specs.declared.limits.TheConstants.{MAX_BEHAVIOURS};
ghost use Rattle.roman_parts.specs.declared.error.PartError.TheVariants as part_error;
ghost use Rattle.roman_relation.specs.Greatest.{IsRelation};
ghost use Rattle.roman_cost.specs.NamedWords.{IsPairNumber};
ghost use Rattle.roman_cost.specs.Refusals.{list_of_rule};
ghost use Rattle.roman_cost.specs.Tables.{AreOf};
ghost use Rattle.roman_text.specs.Report.{line_text};
ghost use Rattle.roman_text.specs.declared.report.ReportLine.TheVariants as line;
ghost use Rattle.roman_opening.specs.Outputs.{outputs_of};
ghost use Rattle.roman_top.specs.Command.{Advise};
ghost use Rattle.roman_top.specs.ContractWords.{OpensCosts, PrintsAdvice, RefusesCosts};
ghost use Rattle.roman_top.specs.Endings.{DoesJobOn};

use crate::check_text::answer_line;
use crate::requests::Requests;
use roman_cost::{Advice, AdviceError, CostError, Costs, MAX_VALUES, put_advice, read_costs};
use roman_io::{Failed, Shelf, Sink, Steps};
use roman_joint::Joint;
use roman_library::{FileName, Part, Refusal};
use roman_opening::{Status, finish, open_system, put_limit, put_refusal};
use roman_parts::List;
use roman_read::Kind;
use roman_relation::Relation;
use roman_start::Seated;
use std::alloc::Global;
use std::sync::ledger::Ledger;

/// Writes the least worst cost of that many requests by the costs on the shelf, and the services to
/// use. Writes `answer none` if the start pair isn't related, and the line of the limit if there
/// are too many values.
#[tactic(auto, using(crate::proofs::OpeningLemmas::early_does))]
pub(crate) fn advise<F: Shelf, O: Sink, L: Ledger>(
    alloc: Global,
    system: &str,
    costs: &str,
    requests: Requests,
    shelf: &mut F,
    out: &mut O,
    steps: &mut Steps<L>,
) -> Status
    ensures { DoesJobOn F.Shelf O.Sink system.now (Advise costs.now requests.count)
        shelf.old out.old shelf.new out.new result }
{
    let seated = match open_system(alloc, system, shelf, out) {
        Ok(seated) => seated,
        Err(status) => return status,
    };
    match open_costs(alloc, costs, &seated.joint, shelf, out) {
        Ok(read) => tell_costs(alloc, &read, seated, requests, out, steps),
        Err(status) => status,
    }
}

/// Reads the costs named `name` on the shelf. If that fails, returns the status with which the run
/// ends, and writes the line of a refusal.
fn open_costs<F: Shelf, O: Sink>(
    alloc: Global,
    name: &str,
    joint: &Joint,
    shelf: &mut F,
    out: &mut O,
) -> Result<Costs, Status>
    requires { length joint.now.catalogue ≤ MAX_BEHAVIOURS }
    ensures opens { OpensCosts name.now joint.now
        (outputs_of F.Shelf O.Sink shelf.old out.old) (outputs_of F.Shelf O.Sink shelf.new out.new) result }
    ensures of { IfOk result (AreOf joint.now) }
{
    match read_costs(alloc, shelf, name, joint) {
        Ok(costs) => Ok(costs),
        Err(CostError::Fault) => Err(Status::ShelfFault),
        Err(CostError::Refused { kind, whole, index }) => {
            Err(refuse(alloc, name, kind, whole, index, out))
        }
        Err(CostError::Memory) => Err(Status::Memory),
    }
}

/// Writes the refusal line of a text of costs.
fn refuse<O: Sink>(
    alloc: Global,
    name: &str,
    kind: Kind,
    whole: bool,
    index: u32,
    out: &mut O,
) -> Status
    ensures { let error = part_error.Refused kind (list_of_rule whole) index in
        RefusesCosts O.Sink name.now error out.old out.new result }
{
    let Ok(document) = FileName::new(alloc, name) else {
        return Status::Memory;
    };
    let refusal = Refusal {
        document,
        kind,
        part: Part::Costs,
        list: list_of(whole),
        index,
    };
    finish(put_refusal(&refusal, out), Status::Refused)
}

/// Returns the list that a refusal of costs names: the text as a whole, or its items.
fn list_of(whole: bool) -> List
    ensures { result ≡ list_of_rule whole }
{
    if whole { List::Whole } else { List::Steps }
}

/// Builds the relation of a system, and writes the advice by the costs.
fn tell_costs<O: Sink, L: Ledger>(
    alloc: Global,
    costs: &Costs,
    seated: Seated,
    requests: Requests,
    out: &mut O,
    steps: &mut Steps<L>,
) -> Status
    requires costs { AreOf seated.joint costs.now }
    requires start { IsPairNumber seated.joint seated.start }
    ensures { PrintsAdvice O.Sink seated.joint costs.now.listed requests.count seated.start out.old out.new result }
{
    let Seated { joint, start, .. } = seated;
    match Relation::build(alloc, joint, steps) {
        Ok(relation) => tell_relation(alloc, &relation, costs, start, requests, out),
        Err(_) => Status::Memory,
    }
}

/// Writes the advice by the costs for the pair `start` of a relation.
fn tell_relation<O: Sink>(
    alloc: Global,
    relation: &Relation,
    costs: &Costs,
    start: u32,
    requests: Requests,
    out: &mut O,
) -> Status
    requires relation { IsRelation relation.now.joint relation.now.order }
    requires costs { AreOf relation.now.joint costs.now }
    requires start { IsPairNumber relation.now.joint start }
    ensures { PrintsAdvice O.Sink relation.now.joint costs.now.listed requests.count start out.old out.new result }
{
    relation.joint.known(); // the system is well formed
    if !relation.related(start) {
        return finish(put_unrelated(out), Status::No);
    }
    match Advice::build(alloc, relation, costs, requests.count) {
        Ok(advice) => finish(
            put_advice(&advice, relation, costs, start, out),
            Status::Done,
        ),
        Err(AdviceError::Limit) => finish(put_limit(MAX_VALUES, out), Status::Limit),
        Err(AdviceError::Memory) => Status::Memory,
    }
}

/// Writes the line `answer none`.
fn put_unrelated<O: Sink>(out: &mut O) -> Result<(), Failed>
    ensures puts { WritesTo O.Sink out.old out.new (line_text (line.Answer false)) result }
    ensures cause { FailsWith O.Sink out.old out.new result }
{
    out.put(answer_line(false))
}
