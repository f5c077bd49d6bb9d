//! Laws for readers, which characterise documents and the normal forms of their parts by properties
//! alone. The crate depends on the definitions of documents, and the program doesn't depend on it.
//! Each law is the contract of a function that computes nothing.
//!
//! `specs/Normals` has the properties of normal forms. `specs/Listed` has lists whose items are
//! read one by one, `specs/PartReads` the lists of parts, and `specs/DocumentReads` those of
//! documents. `specs/PartWriter`, `specs/DocumentWriter` and `specs/SeveralWriter` have a writer,
//! which is only a definition. `specs/Accepted` has the properties of accepted documents.
#![tactic(auto)]

ghost use Rattle.roman_document_laws.specs.Accepted.{AcceptedCanBeSaid, AcceptedNamesAreClear, AcceptedSeveralCanBeSaid, PartsCanBeSaid};
ghost use Rattle.roman_document_laws.specs.DocumentReads.{DocumentListsAreRead};
ghost use Rattle.roman_document_laws.specs.DocumentWriter.{LibrariesAreSaid};
ghost use Rattle.roman_document_laws.specs.Normals.{NormalFormsAreNormal, NormalFormsAreUnique};
ghost use Rattle.roman_document_laws.specs.PartReads.{ListsAreRead};
ghost use Rattle.roman_document_laws.specs.PartWriter.{PartsAreSaid};
ghost use Rattle.roman_document_laws.specs.SeveralWriter.{SeveralAreSaid};

use roman_library::targets_are_combined;

/// In a normal form the triples, steps, final states and guards rise without repeats, and no guard is
/// empty. Its numbers, steps and final states are those of the original record. Two normal forms with
/// the same numbers, steps and final states are equal.
#[tactic(auto, using(crate::proofs::NormalForms::forms_normal, crate::proofs::NormalForms::forms_unique))]
pub fn normal_forms_are_normal()
    ensures normal { NormalFormsAreNormal }
    ensures unique { NormalFormsAreUnique }
{}

/// A list of names, final states or steps is read exactly when each of its items is valid, and in its
/// order. The refusal is that of the list, or that of the first faulty item by the first rule that it
/// breaks. The same holds for the services and the behaviours of a document.
#[tactic(auto, using(crate::proofs::PartReadLemmas::lists_read, crate::proofs::DocumentReadLemmas::document_lists_read))]
pub fn lists_are_read()
    ensures read { ListsAreRead }
    ensures documents { DocumentListsAreRead }
{}

/// Each environment, behaviour, target and library within the limits of documents is the meaning of
/// some JSON value, namely of the one that the writer's definition gives. The same holds for each
/// library that combines several targets within the limits.
#[tactic(auto, using(crate::proofs::PartWriterLemmas::parts_said, crate::proofs::DocumentWriterLemmas::libraries_said, crate::proofs::SeveralLemmas::several_said))]
pub fn parts_are_said()
    ensures said { PartsAreSaid }
    ensures libraries { LibrariesAreSaid }
    ensures several { SeveralAreSaid }
{}

/// The converse of [`parts_are_said`]: each environment, behaviour and target that a value means is
/// within the limits of documents, and so is the library of each accepted document with one target.
/// If the document names several targets, these are within the limits too, with the services and
/// the limit of its library.
#[tactic(auto, using(crate::proofs::AcceptedLemmas::parts_can))]
pub fn accepted_can_be_said()
    ensures parts { PartsCanBeSaid }
    ensures libraries { AcceptedCanBeSaid }
    ensures several { AcceptedSeveralCanBeSaid }
{
    targets_are_combined();
}

/// In the library of each accepted document no name stands for two actions, states, behaviours or
/// services, and the target is deterministic. This also holds if it combines several targets.
pub fn accepted_names_are_clear()
    ensures clear { AcceptedNamesAreClear }
{
    targets_are_combined();
}
