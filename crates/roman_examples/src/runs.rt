//! Each command once, over a shelf in memory.
ghost use Rattle.std.specs.Prelude.{◌≡◌, ◌<◌};

use roman_io::{EndlessSource, MemShelf, MemSink, QuietSource, Sink, Source, Steps, Waste, Words};
use roman_top::{Status, serve};
use std::alloc::{AllocError, Global};
use std::marker::Brand;
use std::process::Abort;
use std::sync::ledger::{Blank, Ledger};
use std::test::Fail;

/// The texts on the shelf, by name: a lamp, two targets of which one is in a file, and the other
/// texts that commands read.
static FILES: [(&str, &str); 6] = [
    (
        "lamp.json",
        r#"{"roman":1,
"environment":{"states":["e"],"start":"e","actions":["on","off"],"steps":[["e","on","e"],["e","off","e"]]},
"behaviours":[{"name":"lamp","states":["off","on"],"start":"off","final":["off"],
  "steps":[["off",true,"on","on"],["on",true,"off","off"]]}],
"services":[{"name":"l1","behaviour":"lamp"}],
"target":{"states":["off","on"],"start":"off","final":["off"],"steps":[["off",true,"on","on"],["on",true,"off","off"]]}}"#,
    ),
    (
        "two.json",
        r#"{"roman":3,
"environment":{"states":["e"],"start":"e","actions":["on","off"],"steps":[["e","on","e"],["e","off","e"]]},
"behaviours":[{"name":"lamp","states":["off","on"],"start":"off","final":["off"],
  "steps":[["off",{"any":[["e"]]},"on","on"],["on",true,"off","off"]]}],
"services":[{"name":"l1","behaviour":"lamp"},{"name":"l2","behaviour":"lamp","rests":false}],
"targets":[{"name":"a","states":["off","on"],"start":"off","final":["off"],
  "steps":[["off",true,"on","on"],["on",true,"off","off"]]},{"file":"b.json"}]}"#,
    ),
    (
        "b.json",
        r#"{"name":"b","states":["off","on"],"start":"off","final":["off"],
"steps":[["off",true,"on","on"],["on",true,"off","off"]]}"#,
    ),
    ("costs", r#"[["lamp","on",3],["lamp","off",1]]"#),
    ("certificate", "roman-order 1\npairs 4\n1 f\n2 1\nend\n"),
    (
        "session",
        "do on\nuse l1\nsaw on e\ndo off\nuse l1\nsaw off e\n",
    ),
];

/// The words of a run, its input, its status and what it writes.
type Run = (&'static [&'static str], &'static str, Status, &'static str);

/// Each command once.
static RUNS: [Run; 11] = [
    (
        &["synth", "lamp.json"],
        "",
        Status::Done,
        "pairs 4\nrelated 2\nenvironment e\ntarget off final\nservice l1 lamp off ready\nanswer composition\noffer on: l1\nend\n",
    ),
    (
        &["run", "lamp.json"],
        "do on\nuse l1\nabort\nfreeze l1\ndo on\nexplain\nthaw l1\njoin l2 lamp off\ndo on\nabort\ndie l1\njump l2 on\njump l2 off\njumpenv e\nreport\nquit\n",
        Status::Done,
        "offer l1\nusing l1\naborted\nkept 2 added 2\nno composition\nlost off e off: on\nend\nkept 2 added 0\nkept 3 added 2\noffer l1 l2\naborted\nkept 2 added 0\njumped\njumped\njumped\npairs 4\nrelated 2\nenvironment e\ntarget off final\nservice l2 lamp off ready\nanswer composition\noffer on: l2\nend\nbye\n",
    ),
    (
        &["run", "lamp.json", "session"],
        "",
        Status::Done,
        "offer l1\nusing l1\nnow on e\noffer l1\nusing l1\nnow off e\n",
    ),
    (
        &["run", "two.json"],
        "do on-a\nuse l1\nsaw on e\ndo off-b\ndo on-b\n",
        Status::Done,
        "offer l1 l2\nusing l1\nnow on-off e\nnot allowed\noffer l2\n",
    ),
    (
        &["certify", "lamp.json"],
        "",
        Status::Done,
        "roman-order 1\npairs 4\n1 f\n2 1\nend\n",
    ),
    (
        &["check", "lamp.json", "certificate"],
        "",
        Status::Done,
        "greatest 2\nanswer composition\n",
    ),
    (
        &["resilience", "lamp.json"],
        "",
        Status::Done,
        "services 1\nstart composition related 2 choices 2\nwithout l1 freeze none related 0 choices 0\nwithout l1 die none related 0 choices 0\nend\n",
    ),
    (
        &["shortest", "lamp.json"],
        "",
        Status::Done,
        "pairs 4\nrelated 2\ndepth 0: 1\ndepth 1: 1\nstart related\nend\n",
    ),
    (
        &["advise", "lamp.json", "costs", "1"],
        "",
        Status::Done,
        "worst 3\nfor on: l1 3\nvalue 1 0 3\nvalue 1 3 1\nend\n",
    ),
    (
        &["advise", "lamp.json", "session", "1"],
        "",
        Status::Refused,
        "refused session notjson costs 0 whole 0\n",
    ),
    (
        &["make", "1"],
        "",
        Status::Done,
        "made 1\nstart pairs 12 related 5 composition\nfreeze pairs 12 related 0 none\nthaw pairs 12 related 5 composition\ndie pairs 4 related 0 none\njoin pairs 12 related 5 composition\nround pairs 12 related 5 composition\nend\n",
    ),
];

/// Returns a shelf with the texts, whose calls of these numbers fail.
pub(crate) fn shelf(alloc: Global, failing: Vec<u64>) -> Result<MemShelf, AllocError> {
    let mut files = Vec::new(alloc);
    for (name, text) in &FILES {
        files.push((
            String::from_str(alloc, name)?,
            Vec::from_slice(alloc, text.as_bytes())?,
        ))?;
    }
    Ok(MemShelf::new(files, failing))
}

/// Runs the program on a shelf, and returns the status.
pub(crate) fn run<I: Source, O: Sink>(
    alloc: Global,
    words: &[&str],
    shelf: &mut MemShelf,
    input: &mut I,
    out: &mut O,
) -> Result<Status, AllocError> {
    let mut all = Words::new(alloc);
    for word in words {
        all.push(word)?;
    }
    let blank = Blank::new(1);
    Ok(counted::<I, O, Brand>(alloc, &all, shelf, input, out, blank))
}

/// Runs the program with a counter of steps on `blank`, and returns the status.
fn counted<I: Source, O: Sink, L: Ledger>(
    alloc: Global,
    words: &Words,
    shelf: &mut MemShelf,
    input: &mut I,
    out: &mut O,
    blank: Blank,
) -> Status
    requires name { blank.name ≡ L.name }
    requires parts { blank.parts ≡ L.parts }
    requires some { 0 < L.parts }
{
    serve(alloc, words, shelf, input, out, &mut Steps::<L>::new(blank))
}

#[test]
fn each_command_runs(rt: HostRuntime) -> Result<(), Fail> {
    let alloc = rt.alloc();
    for (words, input, status, text) in &RUNS {
        let mut shelf = shelf(alloc, Vec::new(alloc))?;
        let mut input = QuietSource::new(Vec::from_slice(alloc, input.as_bytes())?);
        let mut out = MemSink::new(alloc, Vec::new(alloc));
        assert_eq!(rt;
            run(alloc, words, &mut shelf, &mut input, &mut out)?,
            *status
        );
        assert_eq!(rt; str::from_utf8(out.bytes()).unwrap_or("no text"), *text);
    }
    Ok(())
}

#[test]
fn an_input_without_end_is_too_long(rt: HostRuntime) -> Result<(), Fail> {
    let alloc = rt.alloc();
    let mut shelf = shelf(alloc, Vec::new(alloc))?;
    let mut input = EndlessSource::new(b'a');
    let words = ["run", "lamp.json"];
    let status = run(alloc, &words, &mut shelf, &mut input, &mut Waste::new())?;
    assert_eq!(rt; status, Status::TooLong);
    Ok(())
}
