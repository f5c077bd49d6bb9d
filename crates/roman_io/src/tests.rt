//! Calls each object in memory once, also with calls that fail, and checks that a source over a
//! shelf still exposes the shelf.
ghost use Rattle.std.specs.Prelude.{◌≡◌, ◌<◌};
ghost use Rattle.roman_io.specs.Faults.{HasCause};

use super::*;
use std::alloc::{AllocError, Global};
use std::marker::Brand;
use std::sync::ledger::{Blank, Ledger};
use std::test::Fail;

/// Returns three texts under two names, one of which occurs twice.
fn files(alloc: Global) -> Result<Vec<(String, Vec<u8>)>, AllocError> {
    let mut files = Vec::new(alloc);
    for (name, text) in [("lamp", "on"), ("cell", "b0"), ("lamp", "off")] {
        let name = String::from_str(alloc, name)?;
        files.push((name, text.as_bytes().to_vec(alloc)?))?;
    }
    Ok(files)
}

/// Takes once from any source.
fn take_once<S: Source>(source: &mut S, into: &mut [u8]) -> Result<usize, Failed>
    ensures cause { HasCause (S.faults source.old) (S.faults source.new) result }
    ensures borrowed { S.borrowed source.new ≡ S.borrowed source.old }
    ensures texts { S.texts source.new ≡ S.texts source.old }
{
    source.take(into)
}

/// Reads the first bytes of a text, by a source over the shelf. The contract still states the
/// faults and the texts of the shelf.
fn read_prefix<F: Shelf>(shelf: &mut F, name: &str, into: &mut [u8]) -> Result<usize, Failed>
    ensures cause { HasCause (F.faults shelf.old) (F.faults shelf.new) result }
    ensures texts { F.texts shelf.new ≡ F.texts shelf.old }
{
    let mut source = ShelfSource::new(shelf, name);
    take_once(&mut source, into)
}

fn count_two<L: Ledger>(blank: Blank)
    requires name { blank.name ≡ L.name }
    requires parts { blank.parts ≡ L.parts }
    requires some { 0 < L.parts }
{
    let mut steps = Steps::<L>::new(blank);
    steps.tick();
    steps.tick();
}

#[test]
fn readers(rt: HostRuntime) -> Result<(), Fail> {
    let alloc = rt.alloc();
    let mut into = [0; 3];
    let mut shelf = MemShelf::new(files(alloc)?, [1].to_vec(alloc)?);
    assert_eq!(rt; shelf.fetch("lamp", 0, &mut into), Ok(2));
    assert_eq!(rt; shelf.fetch("lamp", 0, &mut into), Err(Failed));
    let mut quiet = QuietShelf::new(files(alloc)?);
    assert_eq!(rt; read_prefix(&mut quiet, "cell", &mut into), Ok(2));
    let mut source = MemSource::new(b"abc".to_vec(alloc)?, 2, Vec::new(alloc));
    assert_eq!(rt; source.take(&mut into), Ok(2));
    assert_eq!(rt; QuietSource::new(Vec::new(alloc)).take(&mut into), Ok(0));
    assert_eq!(rt; EndlessSource::new(b'e').take(&mut into), Ok(3));
    Ok(())
}

#[test]
fn writers(rt: HostRuntime) -> Result<(), Fail> {
    let alloc = rt.alloc();
    let mut sink = MemSink::new(alloc, [1].to_vec(alloc)?);
    for (piece, answer) in [("ab", Ok(())), ("cde", Err(Failed)), ("f", Ok(()))] {
        assert_eq!(rt; sink.put(piece.as_bytes()), answer, "{piece}");
    }
    assert_eq!(rt; sink.bytes(), b"abcf".as_slice());
    assert_eq!(rt; Waste::new().put(b"ab"), Ok(()));
    let mut words = Words::new(alloc);
    words.push("synth")?;
    words.push("lamp.json")?;
    assert_eq!(rt; words.len(), 2);
    assert_eq!(rt; words.at(1), "lamp.json");
    count_two::<Brand>(Blank::new(1));
    Ok(())
}
